//! A board of probes, and the seats from which threads hit them.
ghost use Rattle.std.specs.Prelude.{◌≡◌, ℕ, ◌+◌, ◌-◌, ◌<◌, ◌^◌, [], ◌∷◌, ◌++◌, true, false, Contains, IfOk};
ghost use Rattle.jc_programs.specs.Probes.{counts_of, no_hits, InRange, IsHit};
ghost use Rattle.jc_board.specs.Places.{word_at};
ghost use Rattle.jc_board.specs.Views.{view, whole, with_hit, without_part, Peeks};

use crate::closing::copy;
use crate::layout::lay;
use crate::seat::View;
use crate::steps::{BoardRule, GivePart, Hit, Part, Peek, Probe, TakeSeat};
use atomic_table::{Shared, Table};
use jc_bytes::Memory;
use jc_programs::HitSet;
use std::alloc::Global;
use std::marker::{Brand, Model};

type Words = Shared<(), View, Vec<u32>, BoardRule>;

/// A bit for each probe of each class, in words that threads share. Sixty-four probes of one class lie in a word, and the words of
/// two classes are so far apart that they share no cache line. There is at least one word.
#[derive(Drop)]
pub struct Board {
    table: Table<(), View, Vec<u32>, BoardRule, Global>,
    // How many probes each class has.
    counts: Vec<u32>,
    // The first word of each class.
    starts: Vec<usize>,
}

impl Model for Board {
    ghost use Rattle.jc_board.specs.Layout.{IsLaidOut};
    ghost use Rattle.jc_board.specs.Seen.{BoardSeen};

    ghost Value = { BoardSeen };

    ghost view = { λ board. record { counts = board.counts.items; table = board.table.shared.table_id } };

    ghost invariant = { λ board. IsLaidOut board.counts.items board.starts.items board.table.shared.key.items board.table.shared.table_id };
}

/// The place from which a thread hits probes of a board. It knows what it has hit, and has a part of the board. The parts of
/// all seats of a board add up to 65,536.
#[derive(Drop)]
pub struct Seat {
    seat: atomic_table::Seat<(), View>,
}

impl Model for Seat {
    ghost use Rattle.std.specs.Prelude.{◌≡◌, ◌<◌, []};
    ghost use Rattle.jc_board.specs.Seen.{SeatSeen};

    ghost Value = { SeatSeen };

    ghost view = { λ seat. record { table = seat.seat.table_id; hits = seat.seat.me.0.hits; part = seat.seat.me.0.part } };

    ghost invariant = { λ seat. (0 < seat.seat.me.0.part) × (seat.seat.me.1 ≡ []) };
}

// Sets the bit of a probe, by one atomic step.
fn set_bit<P: Probe>(
    words: &Words,
    seat: &mut atomic_table::Seat<(), View>,
    word: usize,
    class: u32,
    id: u32,
)
    requires probe { (class ≡ P.class) × (id ≡ P.id) }
    requires table { seat.old.table_id ≡ words.now.table_id }
    requires part { 0 < seat.old.me.0.part }
    requires range { InRange words.now.key.items class id }
    requires word { (word ≡ word_at words.now.key.items class id) × (word < words.now.table_id.words) }
    ensures table { seat.new.table_id ≡ seat.old.table_id }
    ensures view { seat.new.me ≡ (with_hit seat.old.me.0 class id, seat.old.me.1) }
{
    words.fetch_or::<Hit<P>>(seat, word, 1 << (id % 64));
}

// The word of a probe, which the seat has looked at by one atomic step.
fn look_at<P: Probe>(
    words: &Words,
    seat: &mut atomic_table::Seat<(), View>,
    word: usize,
    class: u32,
    id: u32,
) -> u64
    requires probe { (class ≡ P.class) × (id ≡ P.id) }
    requires table { seat.old.table_id ≡ words.now.table_id }
    requires part { 0 < seat.old.me.0.part }
    requires range { InRange words.now.key.items class id }
    requires word { (word ≡ word_at words.now.key.items class id) × (word < words.now.table_id.words) }
    ensures table { seat.new.table_id ≡ seat.old.table_id }
    ensures view { Peeks class id seat.old.me result seat.new.me }
{
    words.load::<Peek<P>>(seat, word)
}

// A new seat, to which a part goes.
fn give_part<P: Part>(
    words: &Words,
    seat: &mut atomic_table::Seat<(), View>,
    part: u32,
) -> atomic_table::Seat<(), View>
    requires amount { part ≡ P.amount }
    requires table { (seat.old.table_id ≡ words.now.table_id) × (0 < words.now.table_id.words) }
    requires part { (0 < part) × (part < seat.old.me.0.part) }
    ensures tables { (seat.new.table_id ≡ seat.old.table_id) × (result.table_id ≡ seat.old.table_id) }
    ensures left { seat.new.me ≡ (without_part part seat.old.me.0, seat.old.me.1) }
    ensures right { result.me ≡ (view [] part, []) }
{
    words.split_seat::<GivePart<P>>(seat)
}

impl Board {
    /// A board of classes with so many probes each, none of them hit, and the seat that has the whole part.
    ///
    /// # Errors
    ///
    /// `Memory` where memory was refused.
    pub fn new(alloc: Global, counts: &[u32]) -> Result<(Board, Seat), Memory>
        ensures board { IfOk result (λ t. (t.0.counts ≡ counts.now) × (t.1.table ≡ t.0.table)) }
        ensures seat { IfOk result (λ t. (t.1.hits ≡ []) × (t.1.part ≡ whole)) }
    {
        let (starts, words) = lay(alloc, counts)?;
        let counts = counts.to_vec(alloc)?;
        let (table, seat) = Table::of_words(alloc, &words, &counts)?;
        let board = Board {
            table,
            counts,
            starts,
        };
        Ok((board, Seat { seat }))
    }

    /// Puts the hits of the board's words into a set that holds none. They are exactly those of the seat where its part is the
    /// whole, and else at least those. Takes no memory.
    pub fn close(self, seat: Seat, into: &mut HitSet)
        requires board { seat.table ≡ self.table }
        requires into { into.old ≡ no_hits self.counts }
        ensures counts { counts_of into.new ≡ self.counts }
        ensures hits { (c i : ℕ) → Contains seat.hits (c, i) → IsHit into.new c i }
        ensures whole { seat.part ≡ whole → (c i : ℕ) → IsHit into.new c i → Contains seat.hits (c, i) }
    {
        let Board {
            table,
            counts,
            starts,
        } = self;
        let Seat { seat } = seat;
        let closed = table.close_with(seat);
        copy(&closed, &starts, &counts, into);
        closed.free();
    }

    /// How many probes each class has.
    pub fn counts(&self) -> &[u32]
        ensures { result.now ≡ self.now.counts }
    {
        &self.counts
    }

    // The word of a probe.
    fn word_of(&self, class: u32, id: u32) -> usize
        requires { InRange self.now.counts class id }
        ensures { (result ≡ word_at self.now.counts class id) × (result < self.now.table.words) }
    {
        self.starts[class as usize] + id as usize / 64
    }
}

impl Seat {
    /// Hits the probe of the class with this id, by one `fetch_or` of its word. Takes no memory.
    pub fn hit(&mut self, board: &Board, class: u32, id: u32)
        requires board { self.old.table ≡ board.now.table }
        requires range { InRange board.now.counts class id }
        ensures board { self.new.table ≡ self.old.table }
        ensures hits { self.new.hits ≡ self.old.hits ++ (class, id) ∷ [] }
        ensures part { self.new.part ≡ self.old.part }
    {
        let word = board.word_of(class, id);
        set_bit::<Brand>(&board.table.shared, &mut self.seat, word, class, id);
    }

    /// Whether the probe of the class with this id is hit, by one load of its word. Where it is, this seat has hit it too from
    /// then on. It is where this seat had hit it, and only there where this seat has the whole part. Takes no memory.
    pub fn peek(&mut self, board: &Board, class: u32, id: u32) -> bool
        requires board { self.old.table ≡ board.now.table }
        requires range { InRange board.now.counts class id }
        ensures board { self.new.table ≡ self.old.table }
        ensures part { self.new.part ≡ self.old.part }
        ensures set { result ≡ true → self.new.hits ≡ self.old.hits ++ (class, id) ∷ [] }
        ensures unset { result ≡ false → self.new.hits ≡ self.old.hits }
        ensures had { Contains self.old.hits (class, id) → result ≡ true }
        ensures alone { self.old.part ≡ whole → result ≡ true → Contains self.old.hits (class, id) }
    {
        let word = board.word_of(class, id);
        let found = look_at::<Brand>(&board.table.shared, &mut self.seat, word, class, id);
        found >> (id % 64) & 1 == 1
    }

    /// A new seat of the board, which has hit nothing. `part` goes to it from the part of this seat. Takes no memory.
    pub fn split(&mut self, board: &Board, part: u32) -> Seat
        requires board { self.old.table ≡ board.now.table }
        requires part { (0 < part) × (part < self.old.part) }
        ensures boards { (self.new.table ≡ self.old.table) × (result.table ≡ self.old.table) }
        ensures hits { (self.new.hits ≡ self.old.hits) × (result.hits ≡ []) }
        ensures parts { (self.new.part + part ≡ self.old.part) × (result.part ≡ part) }
    {
        let seat = give_part::<Brand>(&board.table.shared, &mut self.seat, part);
        Seat { seat }
    }

    /// Takes in the hits and the part of another seat of the board. Takes no memory.
    pub fn join(&mut self, board: &Board, other: Seat)
        requires board { (self.old.table ≡ board.now.table) × (other.table ≡ board.now.table) }
        ensures board { self.new.table ≡ self.old.table }
        ensures hits { self.new.hits ≡ self.old.hits ++ other.hits }
        ensures part { self.new.part ≡ self.old.part + other.part }
    {
        let Seat { seat } = other;
        board
            .table
            .shared
            .join_seat::<TakeSeat>(&mut self.seat, seat);
    }
}
