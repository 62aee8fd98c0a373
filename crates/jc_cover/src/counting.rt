//! The counters of a class.
ghost use Rattle.std.specs.Prelude.{◌≡◌, ◌++◌, ◌<◌, ◌^◌, All, length, IfOk, OnOk};
ghost use Rattle.jc_methods.specs.WellMade.{IsLine};
ghost use Rattle.jc_plan.specs.Analysed.{IsAnalysed};
ghost use Rattle.jc_cover.specs.Covered.{HasShape};
ghost use Rattle.jc_cover.specs.Counters.{is_counted, counters_of};
ghost use Rattle.jc_cover.specs.Lines.{methods_lines, covered_methods_lines};
ghost use Rattle.jc_cover.specs.Sums.{plus, AreSmall, methods_sums, one_counted, insns_weight};

use crate::coverage::{Counters, Coverage};
use crate::lines::{Lines, line_count, put_lines};
use crate::sums::{Sums, method_sums, no_sums, plus};
use jc_bytes::{List, Memory};
use jc_methods::{Analysed, Body};
use std::alloc::Global;

/// The flag of what no source file has (JVM Specification 4.6, ACC_SYNTHETIC).
const SYNTHETIC: u16 = 0x1000;

/// Whether a method counts: it isn't synthetic, or its name begins with `lambda$`.
fn is_counted(body: &Body) -> bool
    ensures { result ≡ is_counted body.now }
{
    body.flags & SYNTHETIC == 0 || body.name.starts_with(b"lambda$")
}

/// Counts a method, if it counts.
pub fn count_method(
    alloc: Global,
    sums: &mut Sums,
    lines: &mut Lines,
    body: &Body,
    insns: &[List<bool>],
) -> Result<(), Memory>
    requires few { insns_weight insns.now < 2 ^ 32 }
    requires small { AreSmall (plus sums.old (methods_sums (one_counted body.now insns.now))) }
    requires lines { All (IsLine (length insns.now)) body.now.lines }
    ensures sums { OnOk result (sums.new ≡ plus sums.old (methods_sums (one_counted body.now insns.now))) }
    ensures all { OnOk result (lines.new.all.items ≡ lines.old.all.items ++ methods_lines (one_counted body.now insns.now)) }
    ensures covered { OnOk result (lines.new.covered.items
        ≡ lines.old.covered.items ++ covered_methods_lines (one_counted body.now insns.now)) }
{
    if !is_counted(body) {
        return Ok(());
    }
    *sums = plus(*sums, method_sums(insns));
    put_lines(alloc, lines, &body.lines, insns)?;
    Ok(())
}

/// The counters of a class with its coverage (JaCoCo's documentation on coverage counters).
///
/// The methods with code count, but not the synthetic ones unless their name begins with `lambda$`. Each
/// instruction counts 1. With B branches, of which C are covered, an instruction with two or more adds C
/// covered and B - C missed ones, and to complexity C - 1 covered ones, or none where C is 0, of
/// B - 1. Each method adds 1 to complexity and 1 to methods, covered where one of its instructions is. A
/// line counts once in its class, covered where one of its instructions is.
///
/// # Errors
///
/// `Memory` where memory was refused.
pub fn counters(alloc: Global, class: &Analysed, coverage: &Coverage) -> Result<Counters, Memory>
    requires analysed { IsAnalysed class.now }
    requires shape { HasShape class.now.bodies coverage.now }
    ensures { IfOk result (λ counters. counters ≡ counters_of class.now.bodies coverage.now) }
{
    let mut sums = no_sums();
    let mut lines = Lines {
        all: Vec::new(alloc),
        covered: Vec::new(alloc),
    };
    'counting: for (number, body) in class.bodies.iter().enumerate() {
        count_method(alloc, &mut sums, &mut lines, body, &coverage.edges[number])?;
    }
    let line = line_count(alloc, &lines)?;
    Ok(Counters {
        instruction: sums.instruction,
        branch: sums.branch,
        line,
        complexity: sums.complexity,
        method: sums.method,
    })
}
