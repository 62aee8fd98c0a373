//! Running the cases of a run plan.
ghost use Rattle.std.specs.Prelude.{◌≡◌, ◌≤◌, ◌↔◌, ℕ, Contains, IfOk};
ghost use Rattle.jc_machine.specs.Hits.{probe_counts};
ghost use Rattle.jc_programs.specs.Probes.{counts_of, IsHit};
ghost use Rattle.jc_programs.specs.Turns.{IsRunPlan};
ghost use Rattle.jc_workers.specs.Cases.{HaveEntries, ends_under};
ghost use Rattle.jc_machine_model.specs.Programs.{IsProgram};
ghost use Rattle.jc_machine_model.specs.Run.{IsHit as IsHitBy};

use jc_board::Board;
use jc_bytes::Memory;
use jc_command_work::Resources;
use jc_programs::{CaseEnd, HitSet, Program, RunPlan};
use jc_workers::{Gate, probe_counts, run_cases};
use std::marker::Sync;
use std::thread::Threads;

/// What the cases of a run plan leave, and which probes they hit.
pub struct Outcome {
    pub ends: Vec<CaseEnd>,
    pub hits: HitSet,
}

/// Runs the cases of a run plan on so many workers.
pub fn run_plan<R: Threads + Sync, G: Gate + Sync>(
    resources: &Resources<'_, '_, R, G>,
    program: &Program,
    plan: &RunPlan,
    workers: u32,
) -> Result<Outcome, Memory>
    requires program { IsProgram program.now }
    requires plan { IsRunPlan plan.now }
    requires entries { HaveEntries program.now plan.now }
    requires workers { (1 ≤ workers) × (workers ≤ 16) }
    ensures ends { IfOk result (λ o. o.ends.items ≡ ends_under program.now plan.now) }
    ensures counts { IfOk result (λ o. counts_of o.hits ≡ probe_counts program.now) }
    ensures hits { IfOk result (λ o. (class id : ℕ) → IsHit o.hits class id ↔ IsHitBy program.now plan.now (record { class = class; id = id })) }
{
    let Resources { rt, alloc, gate } = *resources;
    let counts = probe_counts(alloc, program)?;
    let mut hits = HitSet::new(alloc, &counts)?;
    let (board, seat) = Board::new(alloc, &counts)?;
    let (ends, seat) = run_cases(rt, alloc, program, plan, workers, gate, &board, seat)?;
    board.close(seat, &mut hits);
    Ok(Outcome { ends, hits })
}
