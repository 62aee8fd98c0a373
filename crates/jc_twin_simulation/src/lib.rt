//! Instrumented programs run as their originals.
//!
//! A program's twin is the same program with its probes. Its turns are the turns of the original, which are kept, and probe
//! turns. [`each_run_is_the_same`] is the promise of this crate.
#![tactic(auto)]

ghost use Rattle.jc_twin_simulation.specs.Laws.{BesideIsSame, CasesBeginBeside, HaveMarks, HaveOneMarks, HaveSides, TurnsStayBeside};
ghost use Rattle.jc_twin_simulation.specs.Laws.{ProbeTurnsAreFew, ProbeTurnsAreFewer, RunsAreSame, SchedulesAreKept};
ghost use Rattle.jc_twin_simulation.specs.Mid.{EachBeginsInMid, EachTurnKeeps};

/// A run of a twin leaves the same output, heap, static fields and ends of threads as the run of the original under the kept
/// turns, and the frames of running threads are the same up to the instruction that is next, the local variable of the probe
/// array and what a probe has pushed. This holds for every schedule, every number of threads, both ways in which classes get their
/// array and every set of wide jumps, and for ids that are Integers of the pool.
pub fn each_run_is_the_same()
    ensures { RunsAreSame }
{}

/// Each schedule of the original is the kept part of a schedule of its twin, which is at most 18 times as long.
pub fn no_schedule_is_lost()
    ensures { SchedulesAreKept }
{}

/// A thread of a twin takes at most 17 probe turns in a row, and at most 9 where each class that has probes gets its array by a
/// constant.
pub fn probe_turns_are_few()
    ensures most { ProbeTurnsAreFew }
    ensures by_constant { ProbeTurnsAreFewer }
{}

/// What is said of the instructions of a twin is told by the two programs.
pub fn each_twin_program_has_marks()
    ensures there { HaveMarks }
    ensures one { HaveOneMarks }
{}

/// Each method of a program stands beside that of its twin: what each instruction of the twin is, and where it goes on.
pub fn each_method_has_its_side()
    ensures { HaveSides }
{}

/// One turn of a thread of the twin: a kept one is a turn of the original too, and another one is a turn of the twin alone. The
/// worlds stand beside each other before and after it, and from the beginning of each case on, and then they look the same.
pub fn each_turn_keeps_worlds_side_by_side()
    ensures begin { CasesBeginBeside }
    ensures turn { TurnsStayBeside }
    ensures same { BesideIsSame }
{}

/// The same in terms of the two programs. Two worlds are in the relation where they look the same, each field of a probe array holds null
/// or the array of its class, and each frame of the twin has what the prelude, a probe or `$jacocoInit` has made so far.
pub fn each_turn_keeps_what_probes_made()
    ensures begin { EachBeginsInMid }
    ensures turn { EachTurnKeeps }
{}
