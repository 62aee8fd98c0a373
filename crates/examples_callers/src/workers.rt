//! A caller of jc_board and jc_workers.
ghost use Rattle.std.specs.Prelude.{◌≡◌, ◌≤◌, ◌↔◌, ℕ, IfOk};
ghost use Rattle.jc_programs.specs.Probes.{IsHit};
ghost use Rattle.jc_programs.specs.Turns.{IsRunPlan};
ghost use Rattle.jc_machine_model.specs.Programs.{IsProgram};
ghost use Rattle.jc_machine_model.specs.Run.{IsHit as IsRunHit};
ghost use Rattle.jc_workers.specs.Cases.{HaveEntries, ends_under};

use crate::machine::counts;
use jc_board::Board;
use jc_bytes::Memory;
use jc_programs::{CaseEnd, HitSet, Program, RunPlan};
use jc_workers::{OpenGate, run_cases};
use std::alloc::Global;
use std::marker::Sync;
use std::thread::Threads;

/// What the cases of a run plan leave, which run on so many workers, and which probes they hit.
///
/// # Errors
///
/// `Memory` where memory was refused.
pub fn ends_and_hits<R: Threads + Sync>(
    rt: &R,
    alloc: Global,
    program: &Program,
    plan: &RunPlan,
    workers: u32,
) -> Result<(Vec<CaseEnd>, HitSet), Memory>
    requires program { IsProgram program.now }
    requires plan { IsRunPlan plan.now }
    requires entries { HaveEntries program.now plan.now }
    requires workers { (1 ≤ workers) × (workers ≤ 16) }
    ensures ends { IfOk result (λ r. r.0.items ≡ ends_under program.now plan.now) }
    ensures hits { IfOk result (λ r. (class id : ℕ) → IsHit r.1 class id ↔ IsRunHit program.now plan.now (record { class = class; id = id })) }
{
    let counts = counts(alloc, program)?;
    let (board, seat) = Board::new(alloc, &counts)?;
    let (ends, seat) = run_cases(rt, alloc, program, plan, workers, &OpenGate, &board, seat)?;
    let mut hits = HitSet::new(alloc, &counts)?;
    board.close(seat, &mut hits);
    Ok((ends, hits))
}
