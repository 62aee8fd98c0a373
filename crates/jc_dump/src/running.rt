//! The cases of a run plan on workers, with dumps of their hits.
ghost use Rattle.std.specs.Prelude.{◌≡◌, ℕ, ◌+◌, ◌*◌, ◌<◌, ◌≤◌, [], length, true, IfOk, IfErr, vec_len};
ghost use Rattle.jc_programs.specs.Turns.{IsRunPlan};
ghost use Rattle.jc_programs.specs.Probes.{no_hits};
ghost use Rattle.jc_machine_model.specs.Programs.{IsProgram};
ghost use Rattle.jc_machine.specs.Hits.{probe_counts};
ghost use Rattle.jc_workers.specs.Cases.{HaveEntries, IsRunnable, case_at, end_under, ends_under};
ghost use Rattle.jc_workers.specs.Drawing.{AreTurns, HavePassed, RanAll};
ghost use Rattle.jc_workers.specs.Ran.{AreEnds};
ghost use Rattle.jc_dump.specs.Dumps.{AreDumps, AreInOrder};
ghost use Rattle.jc_dump.specs.OnBoard.{AllRan, IsSeatOf, RanFrom, RanInTurn};

use crate::in_order::in_order;
use crate::seat::{Dumping, DumpingSeat};
use jc_bytes::{List, Memory};
use jc_dump_board::DumpBoard;
use jc_programs::{CaseEnd, HitSet, Program, RunPlan};
use jc_workers::{
    Claims, Drew, Gate, PlanRunner, Turn, Work, collect, deal, probe_counts, run_alone, take_turn,
};
use std::alloc::Global;
use std::marker::Sync;
use std::thread;
use std::thread::Threads;

/// What the cases of a run plan leave, and the hits that were taken while they ran.
#[derive(Drop)]
pub struct Dumped {
    /// What each case leaves, in the run plan's order.
    pub ends: List<CaseEnd>,
    /// The dumps, in the order of the cases behind which they were taken.
    pub dumps: List<HitSet>,
}

/// The turns of all workers, each in a thread of its own where one can be started.
fn take_turns<R: Threads + Sync, G: Gate + Sync>(
    rt: &R,
    alloc: Global,
    runner: &PlanRunner<'_>,
    gate: &G,
    work: &Work<'_, Dumping>,
    turns: Vec<Turn<DumpingSeat>>,
) -> Result<Vec<Result<Drew<CaseEnd, DumpingSeat>, Memory>>, Memory>
    requires turns { AreTurns (IsSeatOf work.now.board.now work.now.part) (RanFrom work.now.board.now runner.now.program.now runner.now.plan.now)
        work.now.claims.now.table (work.now.cases + 1) turns.items }
    requires runner { IsRunnable runner.now.program.now runner.now.plan.now runner.now.entries.items }
    requires cases { (work.now.cases ≡ length runner.now.plan.now.cases) × (work.now.cases ≤ 256) }
    requires counts { work.now.board.now.board.counts ≡ probe_counts runner.now.program.now }
    ensures { IfOk result (λ gave. (vec_len gave ≡ vec_len turns)
        × AllRan runner.now.program.now runner.now.plan.now work.now.board.now work.now.part work.now.claims.now.table work.now.cases
        (G.passed gate.now) gave.items) }
{
    Ok(thread::map_vec(
        rt,
        turns,
        &|turn| take_turn(alloc, runner, gate, work, turn),
    )?)
}

// Several workers, each in a thread of its own where one can be started.
fn run_beside<R: Threads + Sync, G: Gate + Sync>(
    rt: &R,
    alloc: Global,
    runner: &PlanRunner<'_>,
    workers: usize,
    gate: &G,
    board: &Dumping,
    seat: DumpingSeat,
) -> Result<(Vec<CaseEnd>, DumpingSeat), Memory>
    requires runner { IsRunnable runner.now.program.now runner.now.plan.now runner.now.entries.items }
    requires workers { (1 ≤ workers) × (workers ≤ 16) }
    requires counts { board.now.board.counts ≡ probe_counts runner.now.program.now }
    requires seat { IsSeatOf board.now 65536 seat × RanFrom board.now runner.now.program.now runner.now.plan.now seat [] }
    ensures ends { IfOk result (λ r. AreEnds (length runner.now.plan.now.cases)
        (λ k. end_under runner.now.program.now (case_at runner.now.plan.now k)) r.0.items) }
    ensures seat { IfOk result (λ r. IsSeatOf board.now 65536 r.1) }
    ensures ran { IfOk result (λ r. RanAll (length runner.now.plan.now.cases) (RanFrom board.now runner.now.program.now runner.now.plan.now) r.1) }
    ensures passed { IfOk result (λ _. HavePassed (length runner.now.plan.now.cases) (G.passed gate.now) (λ _. Unit {0})) }
{
    let cases = runner.plan.cases.len();
    let (claims, drawer) = Claims::new(alloc, workers as u64 * (cases as u64 + 1))?;
    let work = Work {
        cases,
        part: 2048,
        board,
        claims: &claims,
    };
    let mut whole = Turn { seat, drawer };
    let turns = deal(alloc, runner, &work, &mut whole, workers)?;
    let gave = take_turns(rt, alloc, runner, gate, &work, turns)?;
    collect(alloc, runner, gate, board, claims, whole, gave)
}

// The cases on so many workers. One worker runs them in their order, and its seat stays alone.
fn run_on<R: Threads + Sync, G: Gate + Sync>(
    rt: &R,
    alloc: Global,
    runner: &PlanRunner<'_>,
    workers: usize,
    gate: &G,
    board: &Dumping,
    seat: DumpingSeat,
) -> Result<(Vec<CaseEnd>, DumpingSeat), Memory>
    requires runner { IsRunnable runner.now.program.now runner.now.plan.now runner.now.entries.items }
    requires workers { (1 ≤ workers) × (workers ≤ 16) }
    requires counts { board.now.board.counts ≡ probe_counts runner.now.program.now }
    requires seat { IsSeatOf board.now 65536 seat × RanFrom board.now runner.now.program.now runner.now.plan.now seat [] }
    requires alone { seat.seat.alone ≡ true }
    ensures ends { IfOk result (λ r. AreEnds (length runner.now.plan.now.cases)
        (λ k. end_under runner.now.program.now (case_at runner.now.plan.now k)) r.0.items) }
    ensures seat { IfOk result (λ r. IsSeatOf board.now 65536 r.1) }
    ensures ran { IfOk result (λ r. RanInTurn (length runner.now.plan.now.cases)
        (RanFrom board.now runner.now.program.now runner.now.plan.now) (workers ≡ 1) r.1) }
    ensures passed { IfOk result (λ _. HavePassed (length runner.now.plan.now.cases) (G.passed gate.now) (λ _. Unit {0})) }
{
    if workers == 1 {
        return run_alone(alloc, runner, gate, board, seat);
    }
    run_beside(rt, alloc, runner, workers, gate, board, seat)
}

/// Runs the cases of a run plan on so many workers, as `jc_workers::run_cases` does. The worker that has ended a case whose number,
/// from 1, is a multiple of `every` takes the hits that no dump has yet, and leaves none of them set. What is left behind all cases
/// goes into `rest`.
///
/// The dumps and `rest` are together exactly the hits of all cases. What a case hits behind which a dump is taken is in some dump.
/// With one worker each dump has exactly the hits of the cases since the one in front of it, and `rest` those of the cases behind
/// the last dump.
///
/// # Errors
///
/// `Memory` where memory was refused. `rest` holds no hit then.
pub fn run_dumping<R: Threads + Sync, G: Gate + Sync>(
    rt: &R,
    alloc: Global,
    program: &Program,
    plan: &RunPlan,
    workers: u32,
    every: u32,
    gate: &G,
    rest: &mut HitSet,
) -> Result<Dumped, Memory>
    requires program { IsProgram program.now }
    requires plan { IsRunPlan plan.now }
    requires entries { HaveEntries program.now plan.now }
    requires workers { (1 ≤ workers) × (workers ≤ 16) }
    requires every { (1 ≤ every) × (every ≤ 256) }
    requires rest { rest.old ≡ no_hits (probe_counts program.now) }
    ensures ends { IfOk result (λ d. d.ends ≡ ends_under program.now plan.now) }
    ensures dumps { IfOk result (λ d. AreDumps program.now plan.now every d.dumps rest.new) }
    ensures one { IfOk result (λ d. workers ≡ 1 → AreInOrder program.now plan.now every d.dumps rest.new) }
    ensures passed { IfOk result (λ _. (k : ℕ) → k < length plan.now.cases → G.passed gate.now (k + 1)) }
    ensures memory { IfErr result (λ _. rest.new ≡ rest.old) }
{
    let counts = probe_counts(alloc, program)?;
    let runner = PlanRunner::new(alloc, program, plan)?;
    let (board, seat) = DumpBoard::new(alloc, &counts)?;
    let dumping = Dumping {
        board,
        counts,
        every,
    };
    let seat = DumpingSeat {
        seat,
        dumps: Vec::new(alloc),
    };
    let (ends, seat) = run_on(rt, alloc, &runner, workers as usize, gate, &dumping, seat)?;
    let Dumping {
        board,
        counts: _,
        every: _,
    } = dumping;
    let DumpingSeat { seat, dumps } = seat;
    let dumps = in_order(alloc, plan.cases.len() / every as usize, dumps)?;
    board.close(seat, rest);
    Ok(Dumped {
        ends: List::from_vec(ends),
        dumps: List::from_vec(dumps),
    })
}
