//! A sink of hits that are set in the words of a dump board.
ghost use Rattle.std.specs.Prelude.{◌≡◌};
ghost use Rattle.jc_board.specs.Known.{Remembers};
ghost use Rattle.jc_dump.specs.Since.{HitsSince};

use jc_board::KnownHits;
use jc_dump_board::{DumpBoard, DumpSeat};
use jc_programs::ProbeSink;
use std::marker::{Brand, PhantomData};

/// Names a seat as it was when its sink was made.
pub trait Origin {
    ghost use Rattle.jc_dump_board.specs.Seen.{DumpSeatSeen};

    /// The seat.
    ghost was: { DumpSeatSeen };
}

impl Origin for Brand {
    ghost use Rattle.jc_dump.specs.Nowhere.{no_seat};

    ghost was = { no_seat };
}

/// Hits probes from a seat at its board. It remembers which probes are pending since it has hit them, and goes to the board for the
/// first hit of a probe alone. Code that knows only that it is a sink may do nothing else with the seat, so its type names the
/// seat as it was before.
#[derive(Drop)]
pub struct DumpSink<'a, O: Origin> {
    /// The seat from which probes are hit.
    pub seat: DumpSeat,
    /// Its board.
    pub board: &'a DumpBoard,
    /// Pending probes.
    pub known: KnownHits,
    origin: PhantomData<O>,
    pub ghost placed: { board.now.table ≡ O.was.table },
    pub ghost since: { HitsSince O.was seat },
    pub ghost remembers: { Remembers board.now.counts seat.pending known },
}

impl<'a, O: Origin> DumpSink<'a, O> {
    /// The sink of a seat at its board, with probes that are pending.
    #[tactic(auto, using(crate::proofs::SinceLaws::since_now))]
    pub fn new(seat: DumpSeat, board: &'a DumpBoard, known: KnownHits) -> DumpSink<'a, O>
        requires seat { (seat ≡ O.was) × (board.now.table ≡ O.was.table) }
        requires known { Remembers board.now.counts seat.pending known }
        ensures seat { result.seat ≡ seat }
        ensures board { result.board.now ≡ board.now }
    {
        DumpSink {
            seat,
            board,
            known,
            origin: PhantomData,
        }
    }

    /// The seat, with what it had and what was hit, and what the sink remembers of that.
    pub fn into_parts(self) -> (DumpSeat, KnownHits)
        ensures seat { result.0 ≡ self.entry.seat }
        ensures since { HitsSince O.was result.0 }
        ensures known { Remembers self.entry.board.now.counts result.0.pending result.1 }
    {
        let DumpSink {
            seat,
            board: _,
            known,
            origin: _,
        } = self;
        (seat, known)
    }
}

impl<'a, O: Origin> ProbeSink for DumpSink<'a, O> {
    ghost use Rattle.std.specs.Prelude.{Contains};

    ghost counts = { λ sink. sink.board.now.counts };

    ghost hits = { λ sink class id. Contains sink.seat.pending (class, id) };

    #[tactic(auto, using(crate::proofs::SinceLaws::since_hit, crate::proofs::KnownLaws::known_hits))]
    fn hit(&mut self, class: u32, id: u32) {
        if self.known.has(class, id) {
            return;
        }
        self.seat.hit(self.board, class, id);
        self.known.add(class, id);
    }
}
