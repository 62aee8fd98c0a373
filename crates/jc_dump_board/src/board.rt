//! A board of probes from which hits can be taken while threads hit, and the seats from which they hit and take.
ghost use Rattle.std.specs.Prelude.{◌≡◌, ℕ, ◌+◌, ◌<◌, ◌^◌, ◌↔◌, ◌⊎◌, [], ◌∷◌, ◌++◌, List, true, false, Contains, IfOk};
ghost use Rattle.jc_programs.specs.Probes.{counts_of, no_hits, InRange, IsHit};
ghost use Rattle.jc_board.specs.Places.{word_at};
ghost use Rattle.jc_board.specs.Views.{whole};
ghost use Rattle.jc_dump_board.specs.Views.{new_view, with_hit, without_part};

use crate::seat::View;
use crate::steps::{DumpRule, GivePart, Hit, Part, Probe, TakeSeat};
use crate::taking::take_all;
use atomic_table::{Shared, Table};
use jc_board::{copy, lay};
use jc_bytes::Memory;
use jc_programs::HitSet;
use std::alloc::Global;
use std::marker::{Brand, Model};

type Words = Shared<(), View, Vec<u32>, DumpRule>;

/// A bit for each probe of each class, in words that threads share. They lie as those of a `jc_board::Board`.
#[derive(Drop)]
pub struct DumpBoard {
    table: Table<(), View, Vec<u32>, DumpRule, Global>,
    // How many probes each class has.
    counts: Vec<u32>,
    // The first word of each class.
    starts: Vec<usize>,
}

impl Model for DumpBoard {
    ghost use Rattle.jc_board.specs.Layout.{IsLaidOut};
    ghost use Rattle.jc_board.specs.Seen.{BoardSeen};

    ghost Value = { BoardSeen };

    ghost view = { λ board. record { counts = board.counts.items; table = board.table.shared.table_id } };

    ghost invariant = { λ board. IsLaidOut board.counts.items board.starts.items board.table.shared.key.items board.table.shared.table_id };
}

/// The place from which a thread hits probes of a board and takes hits. It knows what it has hit and taken, and has a part of
/// the board. The parts of all seats of a board add up to 65,536.
#[derive(Drop)]
pub struct DumpSeat {
    seat: atomic_table::Seat<(), View>,
}

impl Model for DumpSeat {
    ghost use Rattle.std.specs.Prelude.{◌≡◌, ◌<◌, []};
    ghost use Rattle.jc_dump_board.specs.Seen.{DumpSeatSeen};

    ghost Value = { DumpSeatSeen };

    ghost view = { λ seat. record {
      table = seat.seat.table_id;
      hits = seat.seat.me.0.hits;
      taken = seat.seat.me.0.taken;
      pending = seat.seat.me.0.pending;
      settled = seat.seat.me.0.settled;
      part = seat.seat.me.0.part;
      alone = seat.seat.me.0.alone;
    } };

    ghost invariant = { λ seat. (0 < seat.seat.me.0.part) × (seat.seat.me.1 ≡ []) };
}

// Sets the bit of a probe, by one atomic step.
fn set_bit<P: Probe>(
    words: &Words,
    seat: &mut atomic_table::Seat<(), View>,
    word: usize,
    class: u32,
    id: u32,
)
    requires probe { (class ≡ P.class) × (id ≡ P.id) }
    requires table { seat.old.table_id ≡ words.now.table_id }
    requires part { 0 < seat.old.me.0.part }
    requires range { InRange words.now.key.items class id }
    requires word { (word ≡ word_at words.now.key.items class id) × (word < words.now.table_id.words) }
    ensures table { seat.new.table_id ≡ seat.old.table_id }
    ensures view { seat.new.me ≡ (with_hit seat.old.me.0 class id, seat.old.me.1) }
{
    words.fetch_or::<Hit<P>>(seat, word, 1 << (id % 64));
}

// A new seat, to which a part goes.
fn give_part<P: Part>(
    words: &Words,
    seat: &mut atomic_table::Seat<(), View>,
    part: u32,
) -> atomic_table::Seat<(), View>
    requires amount { part ≡ P.amount }
    requires table { (seat.old.table_id ≡ words.now.table_id) × (0 < words.now.table_id.words) }
    requires part { (0 < part) × (part < seat.old.me.0.part) }
    ensures tables { (seat.new.table_id ≡ seat.old.table_id) × (result.table_id ≡ seat.old.table_id) }
    ensures left { seat.new.me ≡ (without_part part seat.old.me.0, seat.old.me.1) }
    ensures right { result.me ≡ (new_view part, []) }
{
    words.split_seat::<GivePart<P>>(seat)
}

impl DumpBoard {
    /// A board of classes with so many probes each, none of them hit, and its only seat.
    ///
    /// # Errors
    ///
    /// `Memory` where memory was refused.
    #[tactic(auto, using(crate::proofs::OpeningLaws::opening_keeps))]
    pub fn new(alloc: Global, counts: &[u32]) -> Result<(DumpBoard, DumpSeat), Memory>
        ensures board { IfOk result (λ t. (t.0.counts ≡ counts.now) × (t.1.table ≡ t.0.table)) }
        ensures seat { IfOk result (λ t. (t.1.hits ≡ []) × (t.1.taken ≡ []) × (t.1.pending ≡ []) × (t.1.settled ≡ [])) }
        ensures part { IfOk result (λ t. (t.1.part ≡ whole) × (t.1.alone ≡ true)) }
    {
        let (starts, words) = lay(alloc, counts)?;
        let counts = counts.to_vec(alloc)?;
        let (table, seat) = Table::of_words(alloc, &words, &counts)?;
        let board = DumpBoard {
            table,
            counts,
            starts,
        };
        Ok((board, DumpSeat { seat }))
    }

    /// Puts what no seat has taken into a set that holds no hit. Where the seat's part is the whole, what it has taken and what is
    /// put into the set are together exactly its hits. Where it is alone, exactly its pending hits are put there. Takes no memory.
    pub fn close(self, seat: DumpSeat, into: &mut HitSet)
        requires board { seat.table ≡ self.table }
        requires into { into.old ≡ no_hits self.counts }
        ensures counts { counts_of into.new ≡ self.counts }
        ensures settled { seat.part ≡ whole → (c i : ℕ) → Contains seat.settled (c, i) → Contains seat.taken (c, i) }
        ensures whole { seat.part ≡ whole → (c i : ℕ) → Contains seat.hits (c, i) ↔ (Contains seat.taken (c, i) ⊎ IsHit into.new c i) }
        ensures alone { seat.alone ≡ true → (c i : ℕ) → IsHit into.new c i ↔ Contains seat.pending (c, i) }
    {
        let DumpBoard {
            table,
            counts,
            starts,
        } = self;
        let DumpSeat { seat } = seat;
        let closed = table.close_with(seat);
        copy(&closed, &starts, &counts, into);
        closed.free();
    }

    // The word of a probe.
    fn word_of(&self, class: u32, id: u32) -> usize
        requires { InRange self.now.counts class id }
        ensures { (result ≡ word_at self.now.counts class id) × (result < self.now.table.words) }
    {
        self.starts[class as usize] + id as usize / 64
    }
}

impl DumpSeat {
    /// Hits the probe of the class with this id, by one `fetch_or` of its word. Takes no memory.
    pub fn hit(&mut self, board: &DumpBoard, class: u32, id: u32)
        requires board { self.old.table ≡ board.now.table }
        requires range { InRange board.now.counts class id }
        ensures board { self.new.table ≡ self.old.table }
        ensures hits { self.new.hits ≡ self.old.hits ++ (class, id) ∷ [] }
        ensures pending { self.new.pending ≡ self.old.pending ++ (class, id) ∷ [] }
        ensures taken { (self.new.taken ≡ self.old.taken) × (self.new.settled ≡ self.old.settled) }
        ensures part { (self.new.part ≡ self.old.part) × (self.new.alone ≡ self.old.alone) }
    {
        let word = board.word_of(class, id);
        set_bit::<Brand>(&board.table.shared, &mut self.seat, word, class, id);
    }

    /// Takes the hits of all words, each by one swap with 0, and puts them into a set. No pending hit is left, and all the seat's
    /// hits are settled. Where its part is the whole, it has then taken exactly its hits. Where it is alone, exactly its pending
    /// hits are put into the set. Takes no memory.
    pub fn take(&mut self, board: &DumpBoard, into: &mut HitSet)
        requires board { self.old.table ≡ board.now.table }
        requires into { counts_of into.old ≡ board.now.counts }
        ensures board { self.new.table ≡ self.old.table }
        ensures hits { self.new.hits ≡ self.old.hits }
        ensures part { (self.new.part ≡ self.old.part) × (self.new.alone ≡ self.old.alone) }
        ensures counts { counts_of into.new ≡ board.now.counts }
        ensures gained { (found : List (ℕ × ℕ)) × (self.new.taken ≡ self.old.taken ++ found)
            × ((c i : ℕ) → IsHit into.new c i ↔ (IsHit into.old c i ⊎ Contains found (c, i))) }
        ensures pending { self.new.pending ≡ [] }
        ensures settled { (c i : ℕ) → Contains self.new.settled (c, i) ↔ (Contains self.old.settled (c, i) ⊎ Contains self.old.hits (c, i)) }
        ensures whole { self.old.part ≡ whole → (c i : ℕ) → Contains self.new.taken (c, i) ↔ Contains self.new.hits (c, i) }
        ensures alone { self.old.alone ≡ true → (c i : ℕ) → IsHit into.new c i ↔ (IsHit into.old c i ⊎ Contains self.old.pending (c, i)) }
    {
        take_all(
            &board.table.shared,
            &mut self.seat,
            &board.starts,
            &board.counts,
            board.table.word_count(),
            into,
        );
    }

    /// A new seat of the board, which has no hit of any kind. `part` goes to it from the part of this seat, and neither is alone.
    /// Takes no memory.
    pub fn split(&mut self, board: &DumpBoard, part: u32) -> DumpSeat
        requires board { self.old.table ≡ board.now.table }
        requires part { (0 < part) × (part < self.old.part) }
        ensures boards { (self.new.table ≡ self.old.table) × (result.table ≡ self.old.table) }
        ensures hits { (self.new.hits ≡ self.old.hits) × (self.new.pending ≡ self.old.pending) }
        ensures taken { (self.new.taken ≡ self.old.taken) × (self.new.settled ≡ self.old.settled) }
        ensures parts { (self.new.part + part ≡ self.old.part) × (result.part ≡ part) }
        ensures alone { (self.new.alone ≡ false) × (result.alone ≡ false) }
        ensures new { (result.hits ≡ []) × (result.taken ≡ []) × (result.pending ≡ []) × (result.settled ≡ []) }
    {
        let seat = give_part::<Brand>(&board.table.shared, &mut self.seat, part);
        DumpSeat { seat }
    }

    /// Takes in what another seat of the board has hit and taken, and its part. The seat isn't alone then. Takes no memory.
    pub fn join(&mut self, board: &DumpBoard, other: DumpSeat)
        requires board { (self.old.table ≡ board.now.table) × (other.table ≡ board.now.table) }
        ensures board { self.new.table ≡ self.old.table }
        ensures hits { (self.new.hits ≡ self.old.hits ++ other.hits) × (self.new.pending ≡ self.old.pending ++ other.pending) }
        ensures taken { (self.new.taken ≡ self.old.taken ++ other.taken) × (self.new.settled ≡ self.old.settled ++ other.settled) }
        ensures part { (self.new.part ≡ self.old.part + other.part) × (self.new.alone ≡ false) }
    {
        let DumpSeat { seat } = other;
        board
            .table
            .shared
            .join_seat::<TakeSeat>(&mut self.seat, seat);
    }
}
