//! The calls.
use crate::plans::put_plan;
use crate::programs::put_link;
use std::alloc::Global;
use tests_lines::{Answer, Calls, lines};

/// Calls, of which none makes anything for the lines behind it.
#[derive(Clone, Copy)]
pub struct Stateless;

impl Calls for Stateless {
    fn answer(&mut self, alloc: Global, words: &[&str], out: &mut Answer) -> Option<()> {
        match words {
            ["plan", words @ ..] => {
                let text = lines(alloc, words, out)?;
                put_plan(alloc, &text, out)
            }
            ["link", files @ ..] => put_link(alloc, files, out),
            _ => out.wrong("no call"),
        }
    }
}
