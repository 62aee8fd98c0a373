//! The lines that call.
ghost use Rattle.std.specs.Prelude.{◌≡◌, All, map, length, IfOk};
ghost use Rattle.jc_bytes.specs.PlainLists.{places, numbers_from};
ghost use Rattle.jc_methods.specs.WellMade.{IsLine};
ghost use Rattle.jc_plan.specs.Entries.{is_call, is_line_start, is_line_that_calls};

use jc_bytes::Memory;
use jc_methods::{Insn, LineAt, opcode};
use std::alloc::Global;

/// Whether the instruction calls a method (JVM Specification 6.5, `invokevirtual` to
/// `invokedynamic`).
fn is_call(insn: &Insn) -> bool
    ensures { result ≡ is_call insn.now }
{
    match insn {
        Insn::Member { op, .. } => *op > opcode::PUTFIELD && *op <= opcode::INVOKESTATIC,
        Insn::Interface { .. } | Insn::Dynamic { .. } => true,
        _ => false,
    }
}

/// For each of so many instructions, whether a line starts there.
fn line_starts(alloc: Global, lines: &[LineAt], count: usize) -> Result<Vec<bool>, Memory>
    requires { All (IsLine count) lines.now }
    ensures { IfOk result (λ marks. marks.items ≡ map (is_line_start lines.now) (numbers_from 0 count)) }
{
    let mut marks = vec![in alloc; false; count]?;
    'marking: for line in lines {
        marks[line.at as usize] = true;
    }
    Ok(marks)
}

/// For each instruction, whether a line starts there that calls: a call stands at it, or behind it
/// and before the next line starts. One pass from the end finds that.
pub fn lines_that_call(alloc: Global, code: &[Insn], lines: &[LineAt]) -> Result<Vec<bool>, Memory>
    requires { All (IsLine (length code.now)) lines.now }
    ensures { IfOk result (λ marks. marks.items ≡ map (is_line_that_calls lines.now code.now) (places code.now)) }
{
    let mut marks = line_starts(alloc, lines, code.len())?;
    let mut at = code.len();
    // A call stands from here on, before the next line starts.
    let mut calls = false;
    'marking: while at > 0 {
        at -= 1;
        if is_call(&code[at]) {
            calls = true;
        }
        if marks[at] {
            marks[at] = calls;
            calls = false;
        }
    }
    Ok(marks)
}
