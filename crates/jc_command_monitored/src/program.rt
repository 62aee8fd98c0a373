//! What the cases of a run plan leave behind whose threads take locks.
ghost use Rattle.std.specs.Prelude.{◌≡◌, ◌<◌, ◌+◌, ℕ, length, None, IfOk};
ghost use Rattle.jc_programs.specs.Turns.{IsRunPlan};
ghost use Rattle.jc_command_run.specs.HitStore.{FitRecords};
ghost use Rattle.jc_command_run.specs.RunStore.{threads_of, first_without, store_of};
ghost use Rattle.jc_machine_model.specs.Programs.{IsProgram};
ghost use Rattle.jc_monitor_runs.specs.MonitorTexts.{monitor_texts, monitor_hits_of};

use crate::cases::{Outcome, run_cases};
use jc_bytes::Memory;
use jc_command_run::{Ran, hit_store, texts_of};
use jc_programs::{Program, RunPlan};
use jc_workers::Gate;
use std::alloc::Global;

/// Runs the cases of a run plan whose threads take locks and give them back: those of `monitorenter` and `monitorexit`, and of
/// synchronized methods (JVM Specification 2.11.10). A turn of a thread that waits for a lock changes nothing. The cases run one
/// after another, each in a world of its own, and each passes the gate when it begins.
///
/// The execution data has no session, and a record for each class of which a probe was hit, in the order of the classes. The text
/// has the text of each case under its number, from 1, in the run plan's order.
///
/// # Errors
///
/// `Memory` where memory was refused.
pub fn run_monitored<G: Gate>(
    alloc: Global,
    gate: &G,
    program: &Program,
    plan: &RunPlan,
) -> Result<Ran, Memory>
    requires program { IsProgram program.now }
    requires fits { FitRecords program.now }
    requires plan { IsRunPlan plan.now }
    requires entries { first_without program.now (threads_of plan.now) ≡ None }
    ensures store { IfOk result (λ ran. ran.store ≡ store_of program.now (monitor_hits_of program.now plan.now)) }
    ensures text { IfOk result (λ ran. ran.text.items ≡ monitor_texts program.now 1 plan.now.cases) }
    ensures passed { IfOk result (λ _. (k : ℕ) → k < length plan.now.cases → G.passed gate.now (k + 1)) }
{
    let Outcome { ends, sink } = run_cases(alloc, gate, program, plan)?;
    let store = hit_store(alloc, program, sink.bits())?;
    let text = texts_of(alloc, program, &ends)?;
    Ok(Ran { store, text })
}
