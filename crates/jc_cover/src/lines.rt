//! The lines of a class.
ghost use Rattle.std.specs.Prelude.{◌≡◌, ◌++◌, ◌<◌, ◌≤◌, ◌^◌, All, None, length, replicate, option_to_list, if◌then◌else◌, OnOk, IfOk};
ghost use Rattle.jc_methods.specs.WellMade.{IsLine};
ghost use Rattle.jc_bytes.specs.FirstSeen.{first_seen};
ghost use Rattle.jc_cover.specs.Lines.{with_lines, first_of, insn_lines, covered_insn_lines, counted_lines};
ghost use Rattle.jc_cover.specs.Sums.{insns_weight};

use crate::coverage::Count;
use crate::sums::branch_count;
use jc_bytes::{List, Memory, first_seen};
use jc_methods::LineAt;
use std::alloc::{AllocError, Global};

/// The lines of the instructions of a class, in the order of the instructions.
#[derive(Debug, Drop)]
pub struct Lines {
    /// The line of each instruction that has one.
    pub all: Vec<u32>,
    /// The line of each of them that is covered.
    pub covered: Vec<u32>,
}

/// For each of so many instructions, the line that the last entry there begins.
fn line_starts(
    alloc: Global,
    table: &[LineAt],
    count: usize,
) -> Result<Vec<Option<u32>>, AllocError>
    requires { All (IsLine count) table.now }
    ensures { IfOk result (λ starts. starts.items ≡ with_lines table.now (replicate count None)) }
{
    let mut starts = vec![in alloc; None; count]?;
    'starting: for line in table {
        starts[line.at as usize] = Some(u32::from(line.line));
    }
    Ok(starts)
}

/// Puts the number at the end, if there is one.
fn put_number(numbers: &mut Vec<u32>, number: Option<u32>) -> Result<(), AllocError>
    ensures { OnOk result (numbers.new.items ≡ numbers.old.items ++ option_to_list number) }
{
    if let Some(number) = number {
        numbers.push(number)?;
    }
    Ok(())
}

/// The line of an instruction: that which starts there, if one does, else that of the instruction before.
fn carried(start: Option<u32>, line: Option<u32>) -> Option<u32>
    ensures { result ≡ first_of start line }
{
    match start {
        Some(_) => start,
        None => line,
    }
}

/// The line, if the instruction is covered.
fn line_if(covered: bool, line: Option<u32>) -> Option<u32>
    ensures { result ≡ (if covered then line else None) }
{
    if covered { line } else { None }
}

/// Puts the lines of a method's instructions at the end. An instruction has the line of the entry
/// with the greatest start not past it, and of the last one among those of equal starts.
pub fn put_lines(
    alloc: Global,
    lines: &mut Lines,
    table: &[LineAt],
    insns: &[List<bool>],
) -> Result<(), Memory>
    requires few { insns_weight insns.now < 2 ^ 32 }
    requires table { All (IsLine (length insns.now)) table.now }
    ensures all { OnOk result (lines.new.all.items ≡ lines.old.all.items ++ insn_lines table.now insns.now) }
    ensures covered { OnOk result (lines.new.covered.items ≡ lines.old.covered.items ++ covered_insn_lines table.now insns.now) }
{
    let starts = line_starts(alloc, table, insns.len())?;
    let mut line = None;
    'lining: for (at, values) in insns.iter().enumerate() {
        line = carried(starts[at], line);
        let covered = branch_count(values).covered > 0;
        put_number(&mut lines.all, line)?;
        put_number(&mut lines.covered, line_if(covered, line))?;
    }
    Ok(())
}

/// How many of the different lines are missed, and how many are covered.
pub fn line_count(alloc: Global, lines: &Lines) -> Result<Count, Memory>
    requires within { length (first_seen lines.now.covered.items) ≤ length (first_seen lines.now.all.items) }
    requires few { length (first_seen lines.now.all.items) < 2 ^ 32 }
    ensures { IfOk result (λ count. count ≡ counted_lines lines.now.all.items lines.now.covered.items) }
{
    let all = first_seen(alloc, &lines.all)?.len();
    let covered = first_seen(alloc, &lines.covered)?.len();
    Ok(Count {
        missed: (all - covered) as u32,
        covered: covered as u32,
    })
}
