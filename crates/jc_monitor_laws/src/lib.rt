//! Instrumented programs whose threads take locks run as their originals.
//!
//! The turns of a program with locks are those of the machine, and those at monitor instructions and at calls of synchronized
//! methods. [`same_monitored`] is the promise of this crate.
#![tactic(auto)]

ghost use Rattle.jc_monitor_laws.specs.SameMonitored.{SameMonitored};

use jc_programs::{Case, Program};

/// Instrumentation changes no run with locks. Where `after` is the twin of `before`, and the threads of the case have entries: under
/// each list of turns, a run of the twin leaves what the run of the original under the kept ones of these turns leaves, with the
/// same locks held by the same threads, and the same frames of synchronized methods. A turn is kept where its thread stands at an
/// instruction of the original; one in which the thread waits for a lock there is kept too, and the thread waits in the original
/// as well. No schedule of the original is lost: with probe turns put in front of its turns it is one of the twin, whose kept
/// turns give the very run of the original, and it is at most 18 times as long. A thread of the twin takes at most 17 probe turns
/// in a row, and at most 9 where each class that has probes gets its array by a constant.
pub fn same_monitored(before: &Program, after: &Program, case: &Case)
    ensures { SameMonitored before.now after.now case.now }
{}
