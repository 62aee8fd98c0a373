//! A sink of hits that are set in the words of a board.
ghost use Rattle.std.specs.Prelude.{◌≡◌};
ghost use Rattle.jc_board.specs.Known.{Remembers};

use jc_board::{Board, KnownHits, Seat};
use jc_programs::ProbeSink;
use std::marker::{Brand, PhantomData};

/// Names a board, and the part that a seat of it has.
pub trait Place {
    ghost use Rattle.std.specs.Prelude.{ℕ};
    ghost use Rattle.atomic_table.specs.Seated.{TableId};

    /// Which board it is.
    ghost table: { TableId };

    /// The part of the seat.
    ghost part: { ℕ };
}

impl Place for Brand {
    ghost use Rattle.jc_workers.specs.Nowhere.{no_table};

    ghost table = { no_table };

    ghost part = { 0 };
}

/// Hits probes from a seat at its board. It remembers what it has hit, and goes to the board for the first hit of a probe alone.
/// Code that knows only that it is a sink may not change the board or the part, so its type names both.
#[derive(Drop)]
pub struct SeatSink<'a, P: Place> {
    /// The seat from which probes are hit.
    pub seat: Seat,
    /// Its board.
    pub board: &'a Board,
    /// Probes that the seat has hit.
    pub known: KnownHits,
    place: PhantomData<P>,
    pub ghost placed: { (board.now.table ≡ P.table) × (seat.table ≡ P.table) × (seat.part ≡ P.part) },
    pub ghost remembers: { Remembers board.now.counts seat.hits known },
}

impl<'a, P: Place> SeatSink<'a, P> {
    /// The sink of a seat at its board, with probes that the seat has hit.
    pub fn new(seat: Seat, board: &'a Board, known: KnownHits) -> SeatSink<'a, P>
        requires place { (board.now.table ≡ P.table) × (seat.table ≡ P.table) × (seat.part ≡ P.part) }
        requires known { Remembers board.now.counts seat.hits known }
        ensures seat { result.seat ≡ seat }
        ensures board { result.board.now ≡ board.now }
    {
        SeatSink {
            seat,
            board,
            known,
            place: PhantomData,
        }
    }

    /// The seat, with what it had and what was hit, and what the sink remembers of that.
    pub fn into_parts(self) -> (Seat, KnownHits)
        ensures seat { result.0 ≡ self.entry.seat }
        ensures place { (result.0.table ≡ P.table) × (result.0.part ≡ P.part) }
        ensures known { Remembers self.entry.board.now.counts result.0.hits result.1 }
    {
        let SeatSink {
            seat,
            board: _,
            known,
            place: _,
        } = self;
        (seat, known)
    }
}

impl<'a, P: Place> ProbeSink for SeatSink<'a, P> {
    ghost use Rattle.std.specs.Prelude.{Contains};

    ghost counts = { λ sink. sink.board.now.counts };

    ghost hits = { λ sink class id. Contains sink.seat.hits (class, id) };

    #[tactic(auto, using(crate::proofs::KnownLaws::known_hits))]
    fn hit(&mut self, class: u32, id: u32) {
        if self.known.has(class, id) {
            return;
        }
        self.seat.hit(self.board, class, id);
        self.known.add(class, id);
    }
}
