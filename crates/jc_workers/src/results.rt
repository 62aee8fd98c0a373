//! The results of the workers, put together.
ghost use Rattle.std.specs.Prelude.{◌≡◌, ℕ, ◌+◌, ◌*◌, ◌<◌, List, [], Contains, IfOk, Some, None, replicate, slice_get, vec_len};
ghost use Rattle.std.specs.List.{filter_map};
ghost use Rattle.jc_workers.specs.Ran.{AreEnds};
ghost use Rattle.jc_workers.specs.Claims.{AreThoseBelow};
ghost use Rattle.jc_workers.specs.Drawing.{AllDrew, DidDraw, HavePassed, RanAll, AreInTurn};

use crate::case_seat::CaseSeat;
use crate::pool::{Drew, Turn};
use crate::runner::CaseRunner;
use crate::{Claims, Gate};
use jc_bytes::Memory;
use std::alloc::Global;

/// So many ends, of which none is there.
pub fn no_ends<E: Drop>(alloc: Global, cases: usize) -> Result<Vec<Option<E>>, Memory>
    ensures { IfOk result (λ v. v.items ≡ replicate cases None) }
{
    let mut ends = Vec::with_capacity(alloc, cases)?;
    'making: for _ in 0..cases {
        ends.push(None)?;
    }
    Ok(ends)
}

// Puts the ends of a worker at their places.
fn place<C: CaseRunner>(_runner: &C, ends: &mut Vec<Option<C::End>>, mut done: Vec<(usize, C::End)>)
where
    C::End: Drop,
    requires { (k : ℕ) (e : C.End) → Contains done.items (k, e) → (k < vec_len ends.old) × (e ≡ C.end_of _runner.now k) }
    ensures len { vec_len ends.new ≡ vec_len ends.old }
    ensures kept { (k : ℕ) → slice_get ends.old.items k ≡ Some (Some (C.end_of _runner.now k))
        → slice_get ends.new.items k ≡ Some (Some (C.end_of _runner.now k)) }
    ensures placed { (k : ℕ) (e : C.End) → Contains done.items (k, e) → slice_get ends.new.items k ≡ Some (Some (C.end_of _runner.now k)) }
{
    'placing: while let Some((case, end)) = done.pop() {
        ends[case] = Some(end);
    }
}

/// The ends that are there.
pub fn all_ends<E: Drop>(alloc: Global, ends: Vec<Option<E>>) -> Result<Vec<E>, Memory>
    ensures { IfOk result (λ v. v.items ≡ filter_map (λ end. end) ends.items) }
{
    let mut all = Vec::with_capacity(alloc, ends.len())?;
    'taking: for end in ends {
        if let Some(end) = end {
            all.push(end)?;
        }
    }
    Ok(all)
}

/// Joins the seats and the drawers with what the workers gave back, and puts the ends in the order of the cases.
pub fn collect<S: CaseSeat<C>, C: CaseRunner, G: Gate>(
    alloc: Global,
    runner: &C,
    _gate: &G,
    board: &S::Board,
    claims: Claims,
    own: Turn<S>,
    mut gave: Vec<Result<Drew<C::End, S>, Memory>>,
) -> Result<(Vec<C::End>, S), Memory>
where
    C::End: Drop,
    requires gave { (0 < vec_len gave) × AllDrew (λ s. S.at s board.now × (S.part s ≡ 2048)) (λ s cases. S.ran s board.now runner.now cases)
        claims.table (C.cases runner.now) (C.end_of runner.now) (G.passed _gate.now) gave.items }
    requires seat { S.at own.seat board.now × S.ran own.seat board.now runner.now [] × (S.part own.seat + 2048 * vec_len gave ≡ 65536) }
    requires drawer { (own.drawer.table ≡ claims.table) × (own.drawer.numbers ≡ []) × (own.drawer.budget ≡ 0)
        × (claims.budget ≡ vec_len gave * (C.cases runner.now + 1)) }
    ensures ends { IfOk result (λ r. AreEnds (C.cases runner.now) (C.end_of runner.now) r.0.items) }
    ensures seat { IfOk result (λ r. S.at r.1 board.now × (S.part r.1 ≡ 65536)) }
    ensures ran { IfOk result (λ r. RanAll (C.cases runner.now) (λ s cases. S.ran s board.now runner.now cases) r.1) }
    ensures passed { IfOk result (λ _. HavePassed (C.cases runner.now) (G.passed _gate.now) (λ _. Unit {0})) }
{
    let Turn {
        mut seat,
        mut drawer,
    } = own;
    let mut ends = no_ends(alloc, runner.case_count())?;
    'joining: while let Some(result) = gave.pop() {
        let Drew {
            ends: done,
            seat: other,
            drawer: drew,
        } = result?;
        seat.join(board, other)?;
        drawer.join(&claims, drew);
        place(runner, &mut ends, done);
    }
    claims.close(drawer);
    Ok((all_ends(alloc, ends)?, seat))
}

/// The seat of the only worker, and the ends in the order of the cases, which it has run in their order.
pub fn collect_one<S: CaseSeat<C>, C: CaseRunner, G: Gate>(
    alloc: Global,
    runner: &C,
    _gate: &G,
    _board: &S::Board,
    claims: Claims,
    only: Drew<C::End, S>,
) -> Result<(Vec<C::End>, S), Memory>
where
    C::End: Drop,
    requires only { DidDraw (λ s. S.at s _board.now × (S.part s ≡ 65536)) (λ s cases. S.ran s _board.now runner.now cases)
        claims.table (C.cases runner.now) (C.end_of runner.now) (G.passed _gate.now) only }
    requires budget { claims.budget ≡ C.cases runner.now + 1 }
    ensures ends { IfOk result (λ r. AreEnds (C.cases runner.now) (C.end_of runner.now) r.0.items) }
    ensures seat { IfOk result (λ r. r.1 ≡ only.seat) }
    ensures ran { IfOk result (λ r. (cases : List ℕ) × AreThoseBelow (C.cases runner.now) cases × S.ran r.1 _board.now runner.now cases × AreInTurn cases) }
    ensures passed { IfOk result (λ _. HavePassed (C.cases runner.now) (G.passed _gate.now) (λ _. Unit {0})) }
{
    let Drew {
        ends: done,
        seat,
        drawer,
    } = only;
    claims.close(drawer);
    let mut ends = no_ends(alloc, runner.case_count())?;
    place(runner, &mut ends, done);
    Ok((all_ends(alloc, ends)?, seat))
}
