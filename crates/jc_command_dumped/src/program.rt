//! What the cases of a run plan leave behind, with dumps of what they hit.
ghost use Rattle.std.specs.Prelude.{◌≡◌, ◌≤◌, None, IfOk};
ghost use Rattle.jc_programs.specs.Turns.{IsRunPlan};
ghost use Rattle.jc_command_run.specs.RunStore.{threads_of, first_without};
ghost use Rattle.jc_machine_model.specs.CaseText.{case_texts};
ghost use Rattle.jc_machine_model.specs.Programs.{IsProgram};
ghost use Rattle.jc_command_dumped.specs.DumpedAnswers.{IsTaken};

use jc_bytes::{List, Memory};
use jc_command_run::texts_of;
use jc_command_work::Resources;
use jc_dump::{Dumped, run_dumping};
use jc_programs::{HitSet, Program, RunPlan};
use jc_workers::{Gate, probe_counts};
use std::marker::Sync;
use std::thread::Threads;

/// What the cases of a run plan leave behind, with dumps of what they hit.
#[derive(Drop)]
pub struct DumpedRun {
    /// The hits that were taken while the cases ran, dump by dump.
    pub dumps: List<HitSet>,
    /// The hits that no dump has.
    pub rest: HitSet,
    /// What is printed of the cases, in the order of the run plan.
    pub text: Vec<u8>,
}

/// Runs the cases of a run plan on so many workers. Behind each case whose number, from 1, is a multiple of `every` the worker that
/// has ended it takes the hits that no dump has yet.
///
/// The text has the text of each case under its number, from 1, in the run plan's order. It depends neither on the number of workers
/// nor on when a worker runs; where there are several, which of the dumps has a hit may.
///
/// # Errors
///
/// `Memory` where memory was refused.
pub fn run_dumped<R: Threads + Sync, G: Gate + Sync>(
    resources: &Resources<'_, '_, R, G>,
    program: &Program,
    plan: &RunPlan,
    every: u32,
    workers: u32,
) -> Result<DumpedRun, Memory>
    requires program { IsProgram program.now }
    requires plan { IsRunPlan plan.now }
    requires entries { first_without program.now (threads_of plan.now) ≡ None }
    requires every { (1 ≤ every) × (every ≤ 256) }
    requires workers { (1 ≤ workers) × (workers ≤ 16) }
    ensures taken { IfOk result (λ ran. IsTaken program.now plan.now every workers (record { dumps = ran.dumps; rest = ran.rest })) }
    ensures text { IfOk result (λ ran. ran.text.items ≡ case_texts program.now 1 plan.now.cases) }
{
    let Resources { rt, alloc, gate } = *resources;
    let counts = probe_counts(alloc, program)?;
    let mut rest = HitSet::new(alloc, &counts)?;
    let dumped = run_dumping(rt, alloc, program, plan, workers, every, gate, &mut rest)?;
    let Dumped { ends, dumps } = dumped;
    let text = texts_of(alloc, program, ends.as_slice())?;
    Ok(DumpedRun { dumps, rest, text })
}
