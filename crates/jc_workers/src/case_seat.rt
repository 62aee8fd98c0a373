//! Seats from which workers run cases.
ghost use Rattle.std.specs.Prelude.{◌≡◌, ℕ, ◌+◌, ◌<◌, List, ◌∷◌, ◌++◌, [], Contains, IfOk};
ghost use Rattle.jc_board.specs.Known.{Remembers};
ghost use Rattle.jc_workers.specs.Ran.{HitsOf};

use crate::runner::CaseRunner;
use crate::{Gate, Place, SeatSink};
use jc_board::{Board, KnownHits, Seat};
use jc_bytes::Memory;
use std::alloc::Global;
use std::marker::Brand;

/// A seat at a board, from which cases hit probes, and which does what has to be done behind each case.
pub trait CaseSeat<C: CaseRunner>: Drop {
    ghost use Rattle.std.specs.Prelude.{◌≡◌, ℕ, ◌+◌, ◌<◌, List, [], ◌∷◌, ◌++◌, IfOk};
    ghost use Rattle.jc_board.specs.Known.{KnownSeen};

    /// What the seats of all workers share.
    type Board;

    /// How many probes each class has.
    ghost counts: { Self.Board → List ℕ };

    /// The seat is of the board.
    ghost at: { Self → Self.Board → Type 0 };

    /// Its part of the board.
    ghost part: { Self → ℕ };

    /// No other seat of the board ever had a part.
    ghost alone: { Self → Type 0 };

    /// The cases of the list ran from it, in this order, or from seats that it has taken in, and it knows what they hit.
    ghost ran: { Self → Self.Board → C → List ℕ → Type 0 };

    /// A worker may keep the set of known hits from one case to the next.
    ghost keeps: { Self → Self.Board → KnownSeen → Type 0 };

    /// The set of known hits with which a worker begins. It is the only memory that the sinks of its cases take.
    fn begin(&self, alloc: Global, board: &Self::Board) -> Result<KnownHits, Memory>
        requires { at self.now board.now }
        ensures { IfOk result (λ known. keeps self.now board.now known) };

    /// Runs a case, and does what has to be done behind it.
    fn run_case<G: Gate>(
        self,
        alloc: Global,
        board: &Self::Board,
        runner: &C,
        world: &mut C::World,
        gate: &G,
        case: usize,
        known: KnownHits,
    ) -> Result<(C::End, Self, KnownHits), Memory>
        requires known { keeps self board.now known }
        requires board { at self board.now × (counts board.now ≡ C.counts runner.now) }
        requires case { C.runnable runner.now × (case < C.cases runner.now) }
        requires gate { G.passed gate.now (case + 1) }
        requires world { C.fits runner.now world.old }
        ensures world { C.fits runner.now world.new }
        ensures end { IfOk result (λ r. r.0 ≡ C.end_of runner.now case) }
        ensures seat { IfOk result (λ r. at r.1 board.now × (part r.1 ≡ part self) × (alone self → alone r.1)) }
        ensures known { IfOk result (λ r. keeps r.1 board.now r.2) }
        ensures ran { IfOk result (λ r. (cases : List ℕ) → ran self board.now runner.now cases → ran r.1 board.now runner.now (cases ++ case ∷ [])) };

    /// A new seat of the board, from which no case ran. `amount` goes to it from the part of this seat.
    fn split(&mut self, alloc: Global, board: &Self::Board, amount: u32) -> Self
        requires board { at self.old board.now }
        requires part { (0 < amount) × (amount < part self.old) }
        ensures boards { at self.new board.now × at result board.now }
        ensures parts { (part self.new + amount ≡ part self.old) × (part result ≡ amount) }
        ensures ran { (runner : C) (cases : List ℕ) → ran self.old board.now runner cases → ran self.new board.now runner cases }
        ensures new { (runner : C) → ran result board.now runner [] };

    /// Takes in another seat of the board, with its part and the cases that ran from it.
    fn join(&mut self, board: &Self::Board, other: Self) -> Result<(), Memory>
        requires board { at self.old board.now × at other board.now }
        ensures seat { IfOk result (λ _. at self.new board.now × (part self.new ≡ part self.old + part other)) }
        ensures ran { IfOk result (λ _. (runner : C) (cases others : List ℕ) → ran self.old board.now runner cases → ran other board.now runner others
            → ran self.new board.now runner (cases ++ others)) };
}

// Runs a case whose probes are hit from the seat.
fn run_from<P: Place, C: CaseRunner, G: Gate>(
    alloc: Global,
    seat: Seat,
    board: &Board,
    runner: &C,
    world: &mut C::World,
    gate: &G,
    case: usize,
    known: KnownHits,
) -> Result<(C::End, Seat, KnownHits), Memory>
    requires known { Remembers board.now.counts seat.hits known }
    requires place { (board.now.table ≡ P.table) × (seat.table ≡ P.table) × (seat.part ≡ P.part) }
    requires counts { board.now.counts ≡ C.counts runner.now }
    requires case { C.runnable runner.now × (case < C.cases runner.now) }
    requires gate { G.passed gate.now (case + 1) }
    requires world { C.fits runner.now world.old }
    ensures world { C.fits runner.now world.new }
    ensures end { IfOk result (λ r. r.0 ≡ C.end_of runner.now case) }
    ensures place { IfOk result (λ r. (r.1.table ≡ P.table) × (r.1.part ≡ P.part)) }
    ensures hits { IfOk result (λ r. (cases : List ℕ) → HitsOf (C.cases runner.now) (C.hits runner.now) (Contains cases) seat.hits
        → HitsOf (C.cases runner.now) (C.hits runner.now) (Contains (cases ++ case ∷ [])) r.1.hits) }
    ensures known { IfOk result (λ r. Remembers board.now.counts r.1.hits r.2) }
{
    let mut sink: SeatSink<P> = SeatSink::new(seat, board, known);
    let end = runner.run(alloc, world, gate, case, &mut sink)?;
    let (seat, known) = sink.into_parts();
    Ok((end, seat, known))
}

impl<C: CaseRunner> CaseSeat<C> for Seat {
    ghost use Rattle.std.specs.Prelude.{◌≡◌, Contains};
    ghost use Rattle.jc_board.specs.Known.{Remembers};
    ghost use Rattle.jc_workers.specs.Ran.{HitsOf};

    type Board = Board;

    ghost counts = { λ board. board.counts };

    ghost at = { λ seat board. seat.table ≡ board.table };

    ghost part = { λ seat. seat.part };

    ghost alone = { λ seat. Unit {0} };

    ghost ran = { λ seat board runner cases. HitsOf (C.cases runner) (C.hits runner) (Contains cases) seat.hits };

    ghost keeps = { λ seat board known. Remembers board.counts seat.hits known };

    fn begin(&self, alloc: Global, board: &Board) -> Result<KnownHits, Memory> {
        KnownHits::new(alloc, board.counts())
    }

    fn run_case<G: Gate>(
        self,
        alloc: Global,
        board: &Board,
        runner: &C,
        world: &mut C::World,
        gate: &G,
        case: usize,
        known: KnownHits,
    ) -> Result<(C::End, Seat, KnownHits), Memory> {
        run_from::<Brand, C, G>(alloc, self, board, runner, world, gate, case, known)
    }

    fn split(&mut self, _alloc: Global, board: &Board, amount: u32) -> Seat {
        Seat::split(self, board, amount)
    }

    fn join(&mut self, board: &Board, other: Seat) -> Result<(), Memory> {
        Seat::join(self, board, other);
        Ok(())
    }
}
