//! Workers that draw cases and run them.
ghost use Rattle.std.specs.Prelude.{◌≡◌, ◌+◌, ◌*◌, ◌≤◌, [], IfOk, vec_len};
ghost use Rattle.jc_workers.specs.Drawing.{IsTurn, AreTurns, DidDraw};

use crate::case_seat::CaseSeat;
use crate::runner::CaseRunner;
use crate::{Claims, Drawer, Gate};
use jc_bytes::Memory;
use std::alloc::Global;

/// What the workers share: so many cases, whose numbers they draw from the claims, the part of the board that the seat of each
/// has, and the board on which the cases hit.
#[derive(Drop)]
pub struct Work<'a, B> {
    pub cases: usize,
    pub part: u32,
    pub board: &'a B,
    pub claims: &'a Claims,
}

/// What a worker begins with.
#[derive(Drop)]
pub struct Turn<S: Drop> {
    pub seat: S,
    pub drawer: Drawer,
}

/// What a worker gives back: the ends of its cases, by their numbers from 0.
#[derive(Drop)]
pub struct Drew<E: Drop, S: Drop> {
    pub ends: Vec<(usize, E)>,
    pub seat: S,
    pub drawer: Drawer,
}

/// Draws cases and runs them, until there is none. The worker has one world for all its cases, and one set of known hits.
pub fn take_turn<S: CaseSeat<C>, C: CaseRunner, G: Gate>(
    alloc: Global,
    runner: &C,
    gate: &G,
    work: &Work<'_, S::Board>,
    turn: Turn<S>,
) -> Result<Drew<C::End, S>, Memory>
where
    C::World: Drop,
    C::End: Drop,
    requires turn { IsTurn (λ s. S.at s work.now.board.now × (S.part s ≡ work.now.part)) (λ s cases. S.ran s work.now.board.now runner.now cases)
        work.now.claims.now.table (work.now.cases + 1) turn }
    requires runner { C.runnable runner.now }
    requires cases { (work.now.cases ≡ C.cases runner.now) × (work.now.cases ≤ 256) }
    requires counts { S.counts work.now.board.now ≡ C.counts runner.now }
    ensures drew { IfOk result (DidDraw (λ s. S.at s work.now.board.now × (S.part s ≡ work.now.part))
        (λ s cases. S.ran s work.now.board.now runner.now cases) work.now.claims.now.table work.now.cases (C.end_of runner.now) (G.passed gate.now)) }
    ensures alone { IfOk result (λ d. S.alone turn.seat → S.alone d.seat) }
{
    let Turn {
        mut seat,
        mut drawer,
    } = turn;
    let cases = work.cases;
    let mut ends = Vec::new(alloc);
    let mut world = runner.begin(alloc)?;
    let mut known = seat.begin(alloc, work.board)?;
    'drawing: for _ in 0..cases + 1 {
        let number = drawer.draw(work.claims);
        if number >= cases as u64 {
            break;
        }
        let case = number as usize;
        gate.pass(case as u32 + 1);
        let (end, next, kept) = seat.run_case(
            alloc, work.board, runner, &mut world, gate, case, known,
        )?;
        seat = next;
        known = kept;
        ends.push((case, end))?;
    }
    Ok(Drew { ends, seat, drawer })
}

/// A seat and a drawer for each worker. The rest of the part and of the budget stays.
pub fn deal<S: CaseSeat<C>, C: CaseRunner>(
    alloc: Global,
    _runner: &C,
    work: &Work<'_, S::Board>,
    whole: &mut Turn<S>,
    workers: usize,
) -> Result<Vec<Turn<S>>, Memory>
    requires seat { S.at whole.old.seat work.now.board.now × S.ran whole.old.seat work.now.board.now _runner.now [] }
    requires part { (S.part whole.old.seat ≡ 65536) × (work.now.part ≡ 2048) × (workers ≤ 16) }
    requires drawer { (whole.old.drawer.table ≡ work.now.claims.now.table) × (work.now.cases ≤ 256) }
    requires budget { whole.old.drawer.budget ≡ workers * (work.now.cases + 1) }
    ensures seat { IfOk result (λ _. S.at whole.new.seat work.now.board.now × S.ran whole.new.seat work.now.board.now _runner.now []
        × (S.part whole.new.seat + 2048 * workers ≡ 65536)) }
    ensures drawer { IfOk result (λ _. (whole.new.drawer.table ≡ whole.old.drawer.table)
        × (whole.new.drawer.numbers ≡ whole.old.drawer.numbers) × (whole.new.drawer.budget ≡ 0)) }
    ensures turns { IfOk result (λ turns. AreTurns (λ s. S.at s work.now.board.now × (S.part s ≡ work.now.part))
        (λ s cases. S.ran s work.now.board.now _runner.now cases) work.now.claims.now.table (work.now.cases + 1) turns.items
        × (vec_len turns ≡ workers)) }
{
    let mut turns = Vec::new(alloc);
    'dealing: for _ in 0..workers {
        let seat = whole.seat.split(alloc, work.board, work.part);
        let drawer = whole.drawer.split(work.claims, work.cases as u64 + 1);
        turns.push(Turn { seat, drawer })?;
    }
    Ok(turns)
}
