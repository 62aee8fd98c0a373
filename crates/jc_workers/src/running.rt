//! The cases of a run plan on workers.
ghost use Rattle.std.specs.Prelude.{◌≡◌, ℕ, ◌+◌, ◌*◌, ◌<◌, ◌≤◌, [], length, IfOk, vec_len};
ghost use Rattle.jc_programs.specs.Turns.{IsRunPlan};
ghost use Rattle.jc_machine_model.specs.Programs.{IsProgram};
ghost use Rattle.jc_machine.specs.Hits.{probe_counts};
ghost use Rattle.jc_workers.specs.Cases.{HaveEntries, IsRunnable, ends_under, AreHits};
ghost use Rattle.jc_workers.specs.Drawing.{AreTurns, AllRan, IsSeatOf, RanFrom};

use crate::plan_runner::PlanRunner;
use crate::pool::{Drew, Turn, Work, deal, take_turn};
use crate::results::collect;
use crate::{Claims, Gate};
use jc_board::{Board, Seat};
use jc_bytes::Memory;
use jc_programs::{CaseEnd, Program, RunPlan};
use std::alloc::Global;
use std::marker::Sync;
use std::thread;
use std::thread::Threads;

/// The turns of all workers, each in a thread of its own where one can be started.
fn take_turns<R: Threads + Sync, G: Gate + Sync>(
    rt: &R,
    alloc: Global,
    runner: &PlanRunner<'_>,
    gate: &G,
    work: &Work<'_, Board>,
    turns: Vec<Turn<Seat>>,
) -> Result<Vec<Result<Drew<CaseEnd, Seat>, Memory>>, Memory>
    requires turns { AreTurns (IsSeatOf work.now.board.now.table work.now.part) (RanFrom runner.now.program.now runner.now.plan.now)
        work.now.claims.now.table (work.now.cases + 1) turns.items }
    requires runner { IsRunnable runner.now.program.now runner.now.plan.now runner.now.entries.items }
    requires cases { (work.now.cases ≡ length runner.now.plan.now.cases) × (work.now.cases ≤ 256) }
    requires counts { work.now.board.now.counts ≡ probe_counts runner.now.program.now }
    ensures { IfOk result (λ gave. (vec_len gave ≡ vec_len turns)
        × AllRan runner.now.program.now runner.now.plan.now work.now.board.now.table work.now.part work.now.claims.now.table work.now.cases
        (G.passed gate.now) gave.items) }
{
    Ok(thread::map_vec(
        rt,
        turns,
        &|turn| take_turn(alloc, runner, gate, work, turn),
    )?)
}

/// Runs the cases of a run plan on so many workers. Each worker has one world for all its cases, draws the next case where it has
/// ended one, and calls `gate.pass` once when it begins a case, whose number counts from 1. Where a thread can't be started the
/// caller does its work.
///
/// The ends come in the run plan's order, whatever worker ran the case and whenever. The seat that comes back has the whole part
/// and exactly the hits of all cases.
///
/// # Errors
///
/// `Memory` where memory was refused. The seat is gone then.
pub fn run_cases<R: Threads + Sync, G: Gate + Sync>(
    rt: &R,
    alloc: Global,
    program: &Program,
    plan: &RunPlan,
    workers: u32,
    gate: &G,
    board: &Board,
    seat: Seat,
) -> Result<(Vec<CaseEnd>, Seat), Memory>
    requires program { IsProgram program.now }
    requires plan { IsRunPlan plan.now }
    requires entries { HaveEntries program.now plan.now }
    requires workers { (1 ≤ workers) × (workers ≤ 16) }
    requires board { board.now.counts ≡ probe_counts program.now }
    requires seat { (seat.table ≡ board.now.table) × (seat.part ≡ 65536) × (seat.hits ≡ []) }
    ensures ends { IfOk result (λ r. r.0.items ≡ ends_under program.now plan.now) }
    ensures part { IfOk result (λ r. (r.1.table ≡ board.now.table) × (r.1.part ≡ 65536)) }
    ensures hits { IfOk result (λ r. AreHits program.now plan.now r.1.hits) }
    ensures passed { IfOk result (λ _. (k : ℕ) → k < length plan.now.cases → G.passed gate.now (k + 1)) }
{
    let workers = workers as usize;
    let cases = plan.cases.len();
    let runner = PlanRunner::new(alloc, program, plan)?;
    let (claims, drawer) = Claims::new(alloc, workers as u64 * (cases as u64 + 1))?;
    let work = Work {
        cases,
        part: 2048,
        board,
        claims: &claims,
    };
    let mut whole = Turn { seat, drawer };
    let turns = deal(alloc, &runner, &work, &mut whole, workers)?;
    let gave = take_turns(rt, alloc, &runner, gate, &work, turns)?;
    collect(alloc, &runner, gate, board, claims, whole, gave)
}
