//! The lines of the instructions of a class, each with the status that the instruction alone gives it.
ghost use Rattle.std.specs.Prelude.{◌≡◌, ◌++◌, All, None, length, replicate, option_map, option_to_list, OnOk, IfOk};
ghost use Rattle.jc_methods.specs.WellMade.{IsLine};
ghost use Rattle.jc_plan.specs.Analysed.{IsAnalysed};
ghost use Rattle.jc_cover.specs.Covered.{HasShape};
ghost use Rattle.jc_cover.specs.Counters.{is_counted, counted_methods};
ghost use Rattle.jc_cover.specs.Lines.{with_lines, first_of};
ghost use Rattle.jc_cover.specs.Sums.{one_counted};
ghost use Rattle.jc_rules.specs.Placed.{placed_at, insns_placed, methods_placed};

use crate::status::{LineStatus, state_of};
use jc_bytes::{List, Memory};
use jc_cover::Coverage;
use jc_methods::{Analysed, Body, LineAt};
use std::alloc::{AllocError, Global};

/// The flag of what no source file has (JVM Specification 4.6, ACC_SYNTHETIC).
const SYNTHETIC: u16 = 0x1000;

/// Whether a method counts: it isn't synthetic, or its name begins with `lambda$`.
fn is_counted(body: &Body) -> bool
    ensures { result ≡ is_counted body.now }
{
    body.flags & SYNTHETIC == 0 || body.name.starts_with(b"lambda$")
}

/// For each of so many instructions, the line that the last entry there begins.
fn line_starts(
    alloc: Global,
    table: &[LineAt],
    count: usize,
) -> Result<Vec<Option<u32>>, AllocError>
    requires { All (IsLine count) table.now }
    ensures { IfOk result (λ starts. starts.items ≡ with_lines table.now (replicate count None)) }
{
    let mut starts = vec![in alloc; None; count]?;
    'starting: for line in table {
        starts[line.at as usize] = Some(u32::from(line.line));
    }
    Ok(starts)
}

/// The line of an instruction: that which starts there, if one does, else that of the instruction before.
fn carried(start: Option<u32>, line: Option<u32>) -> Option<u32>
    ensures { result ≡ first_of start line }
{
    match start {
        Some(_) => start,
        None => line,
    }
}

/// Puts the line of an instruction at the end, if it has one.
fn put_insn(
    placed: &mut Vec<LineStatus>,
    line: Option<u32>,
    values: &[bool],
) -> Result<(), AllocError>
    ensures { OnOk result (placed.new.items ≡ placed.old.items ++ option_to_list (option_map (placed_at values.now) line)) }
{
    if let Some(line) = line {
        placed.push(LineStatus {
            line,
            status: state_of(values),
        })?;
    }
    Ok(())
}

/// Puts the lines of a method's instructions at the end. An instruction has the line of the entry
/// with the greatest start not past it, and of the last one among those of equal starts.
fn put_insns(
    alloc: Global,
    placed: &mut Vec<LineStatus>,
    table: &[LineAt],
    insns: &[List<bool>],
) -> Result<(), AllocError>
    requires { All (IsLine (length insns.now)) table.now }
    ensures { OnOk result (placed.new.items ≡ placed.old.items ++ insns_placed table.now insns.now) }
{
    let starts = line_starts(alloc, table, insns.len())?;
    let mut line = None;
    'placing: for (at, values) in insns.iter().enumerate() {
        line = carried(starts[at], line);
        put_insn(placed, line, values)?;
    }
    Ok(())
}

/// Puts the lines of a method's instructions at the end, if the method counts.
fn put_method(
    alloc: Global,
    placed: &mut Vec<LineStatus>,
    body: &Body,
    insns: &[List<bool>],
) -> Result<(), AllocError>
    requires { All (IsLine (length insns.now)) body.now.lines }
    ensures { OnOk result (placed.new.items ≡ placed.old.items ++ methods_placed (one_counted body.now insns.now)) }
{
    if is_counted(body) {
        put_insns(alloc, placed, &body.lines, insns)?;
    }
    Ok(())
}

/// The line of each instruction that counts and has one, with the status that it gives the line.
pub fn placed(
    alloc: Global,
    class: &Analysed,
    coverage: &Coverage,
) -> Result<Vec<LineStatus>, Memory>
    requires analysed { IsAnalysed class.now }
    requires shape { HasShape class.now.bodies coverage.now }
    ensures { IfOk result (λ placed. placed.items ≡ methods_placed (counted_methods class.now.bodies coverage.now)) }
{
    let mut placed = Vec::new(alloc);
    'placing: for (number, body) in class.bodies.iter().enumerate() {
        put_method(alloc, &mut placed, body, &coverage.edges[number])?;
    }
    Ok(placed)
}
