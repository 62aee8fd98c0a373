//! The laws of runs.
ghost use Rattle.jc_twin_simulation.specs.Mid.{BeginsInMid, OneTurn};
ghost use Rattle.jc_twin.specs.Runs.{EachSchedule, FewerProbeTurns, FewProbeTurns, PrintTheSame, SameRun, SameText};

use jc_programs::{Case, Program};

/// Instrumentation changes no run. Where `after` is the twin of `before`, and the threads of the case have entries: under each
/// list of turns, a run of the twin leaves what the run of the original under the kept ones of these turns leaves. A turn is kept
/// where its thread stands at an instruction of the original; the others are probe turns.
pub fn same_run(before: &Program, after: &Program, case: &Case)
    ensures { SameRun before.now after.now case.now }
{}

/// Nor does it change what is printed. Where `after` is the twin of `before`, and the threads of the case have entries: under each
/// list of turns, the text of the case that the twin prints, whatever the case's number, is the text that the original prints under
/// the kept ones of these turns [`text`]: the case's own output, a line for each thread, and a line for each static field of an integral
/// type; the field that keeps a probe array has none. The same holds of all worlds that look the same [`worlds`].
pub fn same_text(before: &Program, after: &Program, case: &Case)
    ensures worlds { PrintTheSame before.now after.now }
    ensures text { SameText before.now after.now case.now }
{}

/// No schedule of the original is lost. With probe turns put in front of its turns it is one of the twin, whose kept turns give
/// the very run of the original. It is at most 18 times as long.
pub fn each_schedule(before: &Program, after: &Program, case: &Case)
    ensures { EachSchedule before.now after.now case.now }
{}

/// A thread of the twin takes at most 17 probe turns in a row: before its first kept turn, between two of them, and behind its
/// last one. Where each class that has probes gets its array by a constant, it takes at most 9.
pub fn few_probe_turns(before: &Program, after: &Program, case: &Case)
    ensures most { FewProbeTurns before.now after.now case.now }
    ensures by_constant { FewerProbeTurns before.now after.now case.now }
{}

/// One turn of a thread, of which runs are made. Two worlds are in the relation where they look the same, each field of a probe array
/// holds null or the array of its class, and each frame of the twin has what the prelude, a probe or `$jacocoInit` has made so far:
/// what these pushed, and the array in its local variable behind the prelude. Where `after` is the twin of `before` and the two worlds
/// fit, a turn that is kept, of both worlds, and a probe turn, of the twin's world alone, leave them in it. The worlds in which a
/// case begins are in it.
pub fn one_turn(before: &Program, after: &Program)
    ensures begin { BeginsInMid before.now after.now }
    ensures turn { OneTurn before.now after.now }
{}
