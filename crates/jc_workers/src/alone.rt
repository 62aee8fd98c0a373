//! One worker, which runs all cases from the only seat.
ghost use Rattle.std.specs.Prelude.{◌≡◌, ℕ, ◌≤◌, List, [], IfOk};
ghost use Rattle.jc_workers.specs.Claims.{AreThoseBelow};
ghost use Rattle.jc_workers.specs.Drawing.{AreInTurn, HavePassed};
ghost use Rattle.jc_workers.specs.Ran.{AreEnds};

use crate::case_seat::CaseSeat;
use crate::pool::{Turn, Work, take_turn};
use crate::results::collect_one;
use crate::runner::CaseRunner;
use crate::{Claims, Gate};
use jc_bytes::Memory;
use std::alloc::Global;

/// Runs all cases, in their order, on one worker, which is this thread. Its seat has the whole part and gives none away.
pub fn run_alone<S: CaseSeat<C>, C: CaseRunner, G: Gate>(
    alloc: Global,
    runner: &C,
    gate: &G,
    board: &S::Board,
    seat: S,
) -> Result<(Vec<C::End>, S), Memory>
where
    C::World: Drop,
    C::End: Drop,
    requires runner { C.runnable runner.now × (C.cases runner.now ≤ 256) }
    requires counts { S.counts board.now ≡ C.counts runner.now }
    requires seat { S.at seat board.now × (S.part seat ≡ 65536) × S.ran seat board.now runner.now [] }
    ensures ends { IfOk result (λ r. AreEnds (C.cases runner.now) (C.end_of runner.now) r.0.items) }
    ensures seat { IfOk result (λ r. S.at r.1 board.now × (S.part r.1 ≡ 65536) × (S.alone seat → S.alone r.1)) }
    ensures ran { IfOk result (λ r. (cases : List ℕ) × AreThoseBelow (C.cases runner.now) cases × S.ran r.1 board.now runner.now cases × AreInTurn cases) }
    ensures passed { IfOk result (λ _. HavePassed (C.cases runner.now) (G.passed gate.now) (λ _. Unit {0})) }
{
    let cases = runner.case_count();
    let (claims, drawer) = Claims::new(alloc, cases as u64 + 1)?;
    let work = Work {
        cases,
        part: 65536,
        board,
        claims: &claims,
    };
    let only = take_turn(alloc, runner, gate, &work, Turn { seat, drawer })?;
    collect_one(alloc, runner, gate, board, claims, only)
}
