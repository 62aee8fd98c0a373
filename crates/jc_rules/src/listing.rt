//! The lines of a class with their statuses.
ghost use Rattle.std.specs.Prelude.{◌≡◌, ◌+◌, ◌-◌, ◌<◌, ◌≤◌, map, length, IfOk, Some, slice_get, slice_set};
ghost use Rattle.jc_bytes.specs.PlainLists.{numbers_from};
ghost use Rattle.jc_plan.specs.Analysed.{IsAnalysed};
ghost use Rattle.jc_cover.specs.Covered.{HasShape};
ghost use Rattle.jc_cover.specs.Counters.{counted_methods};
ghost use Rattle.jc_rules.specs.declared.status.LineStatus.{LineStatus};
ghost use Rattle.jc_rules.specs.LineList.{IsLineList};
ghost use Rattle.jc_rules.specs.Placed.{both};
ghost use Rattle.jc_rules.specs.Spans.{AreSaid, AreWithin, blank};

use crate::placed::placed;
use crate::span::{Span, span_of};
use crate::status::{LineState, LineStatus, both};
use jc_bytes::Memory;
use jc_cover::Coverage;
use jc_methods::Analysed;
use std::alloc::{AllocError, Global};

/// The lines of a span, which no instruction has so far.
fn blank_lines(alloc: Global, lines: Span) -> Result<Vec<LineStatus>, AllocError>
    requires { lines.least ≤ lines.greatest }
    ensures { IfOk result (λ list. list.items ≡ map (blank lines.least) (numbers_from 0 (lines.greatest + 1 - lines.least))) }
{
    let count = (lines.greatest - lines.least) as usize + 1;
    let mut list = Vec::new(alloc);
    'listing: for index in 0..count {
        list.push(LineStatus {
            line: lines.least + index as u32,
            status: LineState::Empty,
        })?;
    }
    Ok(list)
}

/// Adds an instruction to its line.
fn put_line(list: &mut [LineStatus], least: u32, placed: LineStatus)
    requires not_below { least ≤ placed.line }
    requires within { placed.line - least < length list.old }
    ensures { (old : LineStatus) → slice_get list.old (placed.line - least) ≡ Some old
        → list.new ≡ slice_set list.old (placed.line - least) (record old { status = both old.status placed.status }) }
{
    let line = &mut list[(placed.line - least) as usize];
    line.status = both(line.status, placed.status);
}

/// Adds each instruction to its line, among the lines from the least one on.
fn put_lines(list: &mut [LineStatus], least: u32, placed: &[LineStatus])
    requires within { AreWithin placed.now least (length list.old) }
    requires blank { list.old ≡ map (blank least) (numbers_from 0 (length list.old)) }
    ensures { AreSaid placed.now least list.new }
{
    'putting: for placed in placed {
        put_line(list, least, *placed);
    }
}

/// The lines of a class, each with its status: from the least line number that an instruction of a
/// method that counts has to the greatest, each once, in order.
///
/// A line is empty where no such instruction has it. Else it is covered not at all, in part or fully, as
/// none of its instructions and their branches is covered, some are, or all (JaCoCo's documentation on
/// coverage counters). An instruction is covered where one of its branches is, and the branches count where
/// it has two or more. That takes time in proportion to the instructions and to the lines in the list.
///
/// # Errors
///
/// `Memory` where memory was refused.
pub fn line_list(
    alloc: Global,
    class: &Analysed,
    coverage: &Coverage,
) -> Result<Vec<LineStatus>, Memory>
    requires analysed { IsAnalysed class.now }
    requires shape { HasShape class.now.bodies coverage.now }
    ensures { IfOk result (λ list. IsLineList (counted_methods class.now.bodies coverage.now) list.items) }
{
    let placed = placed(alloc, class, coverage)?;
    let Some(lines) = span_of(&placed) else {
        return Ok(Vec::new(alloc));
    };
    let mut list = blank_lines(alloc, lines)?;
    put_lines(&mut list, lines.least, &placed);
    Ok(list)
}
