//! Command lines.
use crate::shown::put_command;
use crate::spelled::spelled;
use jc_bytes::Fail;
use jc_command_words::read_words;
use std::alloc::Global;
use tests_lines::{Answer, Calls};

/// Command lines, of which none makes anything for the lines behind it.
#[derive(Clone, Copy)]
pub struct CommandLines;

/// Puts what the words behind `jcov` call.
fn put_called(alloc: Global, words: &[&str], out: &mut Answer) -> Option<()> {
    let owned = out.got(spelled(alloc, words))?;
    match read_words(alloc, &owned) {
        Ok(command) => put_command(&command, out),
        Err(Fail::Said(_)) => out.put("Usage"),
        Err(Fail::Memory) => return out.lose(),
    }
    Some(())
}

impl Calls for CommandLines {
    fn answer(&mut self, alloc: Global, words: &[&str], out: &mut Answer) -> Option<()> {
        match words {
            ["jcov", behind @ ..] => put_called(alloc, behind, out),
            _ => out.wrong("no call"),
        }
    }
}
