//! What the cases of a run plan leave behind.
ghost use Rattle.std.specs.Prelude.{◌≡◌, ◌≤◌, None, IfOk};
ghost use Rattle.jc_programs.specs.Turns.{IsRunPlan};
ghost use Rattle.jc_command_run.specs.HitStore.{FitRecords};
ghost use Rattle.jc_command_run.specs.RunStore.{threads_of, first_without, run_store};
ghost use Rattle.jc_machine_model.specs.CaseText.{case_texts};
ghost use Rattle.jc_machine_model.specs.Programs.{IsProgram};

use crate::cases::{Outcome, run_plan};
use crate::records::hit_store;
use crate::texts::texts_of;
use jc_bytes::Memory;
use jc_command_work::Resources;
use jc_exec::ExecStore;
use jc_programs::{Program, RunPlan};
use jc_workers::Gate;
use std::marker::Sync;
use std::thread::Threads;

/// What the cases of a run plan leave behind.
#[derive(Drop)]
pub struct Ran {
    /// The execution data: which probes they hit.
    pub store: ExecStore,
    /// What is printed of them, in the order of the run plan.
    pub text: Vec<u8>,
}

/// Runs the cases of a run plan on so many workers.
///
/// The execution data has no session, and a record for each class of which a probe was hit, in the order of the classes. The text
/// has the text of each case under its number, from 1, in the run plan's order. Neither depends on the number of workers, nor on when a
/// worker runs.
///
/// # Errors
///
/// `Memory` where memory was refused.
pub fn run_program<R: Threads + Sync, G: Gate + Sync>(
    resources: &Resources<'_, '_, R, G>,
    program: &Program,
    plan: &RunPlan,
    workers: u32,
) -> Result<Ran, Memory>
    requires program { IsProgram program.now }
    requires fits { FitRecords program.now }
    requires plan { IsRunPlan plan.now }
    requires entries { first_without program.now (threads_of plan.now) ≡ None }
    requires workers { (1 ≤ workers) × (workers ≤ 16) }
    ensures store { IfOk result (λ ran. ran.store ≡ run_store program.now plan.now) }
    ensures text { IfOk result (λ ran. ran.text.items ≡ case_texts program.now 1 plan.now.cases) }
{
    let Outcome { ends, hits } = run_plan(resources, program, plan, workers)?;
    let store = hit_store(resources.alloc, program, &hits)?;
    let text = texts_of(resources.alloc, program, &ends)?;
    Ok(Ran { store, text })
}
