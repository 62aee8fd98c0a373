//! What is printed of a class: its name, and its lines with their statuses.
ghost use Rattle.std.specs.Prelude.{◌≡◌, ◌++◌, string_bytes, IfOk, OnOk};
ghost use Rattle.std.specs.List.{flat_map};
ghost use Rattle.jc_command_classes.specs.ReportSteps.{IsShaped};
ghost use Rattle.jc_rules.specs.Totals.{has_counted_insn};
ghost use Rattle.jc_command_rules.specs.LinesAnswers.{state_word, entry_line, listing_text};
ghost use Rattle.jc_command_rules.specs.Printing.{TellsListing};

use jc_bytes::Memory;
use jc_command_classes::CoveredClass;
use jc_cover::{Counters, counters};
use jc_rules::{LineState, LineStatus, line_list};
use std::alloc::{AllocError, Global};

fn state_word(state: LineState) -> &'static str
    ensures { result.now ≡ state_word state }
{
    match state {
        LineState::Empty => "empty",
        LineState::Not => "not",
        LineState::Partly => "partly",
        LineState::Fully => "fully",
    }
}

/// The line of an entry: its number and its status.
fn entry_line(alloc: Global, entry: LineStatus) -> Result<String, AllocError>
    ensures { IfOk result (λ line. string_bytes line ≡ entry_line entry) }
{
    let number = entry.line;
    let state = state_word(entry.status);
    format!(in alloc; "{number} {state}\n")
}

/// Puts the line of each entry at the end.
fn put_entries(alloc: Global, text: &mut Vec<u8>, list: &[LineStatus]) -> Result<(), AllocError>
    ensures { OnOk result (text.new.items ≡ text.old.items ++ flat_map entry_line list.now) }
{
    'putting: for entry in list {
        let line = entry_line(alloc, *entry)?;
        text.extend_from_slice(line.as_bytes())?;
    }
    Ok(())
}

/// The line of a class, by its name, and one for each entry.
fn listing_text(alloc: Global, name: &[u8], list: &[LineStatus]) -> Result<Vec<u8>, AllocError>
    ensures { IfOk result (λ text. text.items ≡ listing_text name.now list.now) }
{
    let mut text = Vec::from_slice(alloc, b"class ")?;
    text.extend_from_slice(name)?;
    text.extend_from_slice(b"\n")?;
    put_entries(alloc, &mut text, list)?;
    Ok(text)
}

/// Whether an instruction of a class with these counters counts.
fn has_counted_insn(counters: Counters) -> bool
    ensures { result ≡ has_counted_insn (record { counters = counters }) }
{
    counters.instruction.missed > 0 || counters.instruction.covered > 0
}

/// What is printed of a class: nothing where no instruction of it counts, and else its name and its lines.
pub fn class_text(alloc: Global, covered: &CoveredClass) -> Result<Option<Vec<u8>>, Memory>
    requires { IsShaped covered.now }
    ensures { IfOk result (TellsListing covered.now) }
{
    let CoveredClass { class, coverage } = covered;
    if !has_counted_insn(counters(alloc, class, coverage)?) {
        return Ok(None);
    }
    let list = line_list(alloc, class, coverage)?;
    Ok(Some(listing_text(alloc, &class.name, &list)?))
}
