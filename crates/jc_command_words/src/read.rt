//! The command that words call.
ghost use Rattle.std.specs.Prelude.{◌≡◌, ◌<◌, ◌^◌, ◌⊎◌, List, ℕ, length, IfOk};
ghost use Rattle.jc_command_words.specs.Words.{Word, words_of};
ghost use Rattle.jc_command_words.specs.Commands.{Called, Means, NoForm, files_of};
ghost use Rattle.jc_command_words.specs.Decide.{is_sample};
ghost use Rattle.jc_command_words.specs.Looks.{scan_view};
ghost use Rattle.jc_command_words.specs.Seen.{command_seen};
ghost use Rattle.jc_command_words.specs.Outcome.{CommandRead};

use crate::call::{given_in, is_plain, is_stated, value_of};
use crate::command::{Command, command_with, methods_in};
use crate::name::CommandName;
use crate::reader::read_call;
use crate::scan::Scanned;
use jc_bytes::Fail;
use std::alloc::Global;

/// The words are of no stated form.
#[derive(Clone, Copy, Debug, PartialEq, Eq)]
pub struct Usage;

/// Whether `cover` has `--sample` alone, with a value that is neither empty nor begins with `-`.
fn is_sample(name: CommandName, words: &Scanned<'_>) -> bool
    ensures { result ≡ is_sample name (scan_view words.now) }
{
    match name {
        CommandName::Cover => {}
        _ => return false,
    }
    let [used] = words.uses.as_slice() else {
        return false;
    };
    if words.dash || !words.files.is_empty() {
        return false;
    }
    used.name == "sample" && is_plain(used.value)
}

/// The command that the words behind the program's name call. Usage comes exactly where they are of no stated form.
/// 4,294,967,296 words or more count as want of memory.
pub fn read_words<'a>(alloc: Global, words: &'a [String]) -> Result<Command<'a>, Fail<Usage>>
    ensures read { CommandRead (words_of words.entry.now) result }
    ensures few { IfOk result (λ command. length (files_of (command_seen command)) < 2 ^ 32) }
{
    if words.len() > u32::MAX as usize {
        return Err(Fail::Memory);
    }
    let Some(call) = read_call(alloc, words)? else {
        return Err(Fail::Said(Usage));
    };
    if is_sample(call.name, &call.words) {
        let Some(methods) = methods_in(value_of(&call.words.uses, "sample")) else {
            return Err(Fail::Said(Usage));
        };
        return Ok(Command::CoverSample { methods });
    }
    if !is_stated(alloc, call.name, &call.words)? {
        return Err(Fail::Said(Usage));
    }
    let given = given_in(alloc, &call.words)?;
    match command_with(alloc, call.name, given)? {
        Some(command) => Ok(command),
        None => Err(Fail::Said(Usage)),
    }
}

/// Each list of words calls exactly one command, or none.
pub fn each_list_of_words_calls_one_command()
    ensures one { (words : List Word) (a b : Called) → Means words a → Means words b → a ≡ b }
    ensures some { (words : List Word) → ((command : Called) × Means words command) ⊎ NoForm words }
{}
