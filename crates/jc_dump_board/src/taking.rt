//! The hits of the words of a board, taken while threads hit.
ghost use Rattle.std.specs.Prelude.{◌≡◌, ◌↔◌, ◌⊎◌, ℕ, ◌+◌, ◌%◌, ◌^◌, ◌<◌, ◌≤◌, [], length, slice_index, slice_index_or, List, Bool};
ghost use Rattle.std.specs.Int.{bit_at};
ghost use Rattle.jc_programs.specs.Probes.{counts_of, IsHit};
ghost use Rattle.jc_board.specs.Places.{room_for, first_word, word_at};
ghost use Rattle.jc_board.specs.Layout.{IsLayout};
ghost use Rattle.jc_board.specs.Rule.{IsProbe};
ghost use Rattle.jc_dump_board.specs.declared.seat.View.{View};
ghost use Rattle.jc_dump_board.specs.Taking.{TakesWord, Taken};

use crate::seat::View;
use crate::steps::{DumpRule, Take, Word};
use atomic_table::{Seat, Shared};
use jc_board::room_for;
use jc_programs::HitSet;
use std::marker::Brand;

type Words = Shared<(), View, Vec<u32>, DumpRule>;

// Takes the hits of a word, by one atomic step. The word is 0 then.
fn take_word<W: Word>(words: &Words, seat: &mut Seat<(), View>, word: usize) -> u64
    requires word { (word ≡ W.word) × (words.now.key.items ≡ W.counts) }
    requires table { (seat.old.table_id ≡ words.now.table_id) × (word < words.now.table_id.words) }
    requires part { 0 < seat.old.me.0.part }
    ensures table { seat.new.table_id ≡ seat.old.table_id }
    ensures taken { TakesWord words.now.key.items word seat.old.me result seat.new.me }
{
    words.swap::<Take<W>>(seat, word, 0)
}

// Hits the probes of the class whose bits are set in the word that begins with probe `first`.
fn put_word(bits: u64, class: u32, first: u32, count: u32, into: &mut HitSet)
    requires first { (first % 64 ≡ 0) × (first < count) }
    requires into { (class < length into.old) × (length (slice_index_or into.old class []) ≡ count) }
    ensures counts { counts_of into.new ≡ counts_of into.old }
    ensures hits { (c i : ℕ) → IsHit into.new c i ↔ (IsHit into.old c i
        ⊎ ((c ≡ class) × (first ≤ i) × (i < first + 64) × (i < count) × (bit_at bits (i % 64) ≡ 1))) }
{
    for offset in 0..(count - first).min(64) {
        if bits >> offset & 1 == 1 {
            into.set(class, first + offset);
        }
    }
}

// Takes the hits of the words of a class, which begin at `start`. Behind those of its probes none lies.
fn take_class(
    words: &Words,
    seat: &mut Seat<(), View>,
    start: usize,
    class: u32,
    count: u32,
    into: &mut HitSet,
)
    requires class { (class < length words.now.key.items) × (slice_index words.now.key.items class ≡ count) }
    requires start { (start ≡ first_word words.now.key.items class) × (start + room_for count ≤ words.now.table_id.words) }
    requires few { words.now.table_id.words < 2 ^ 64 }
    requires table { seat.old.table_id ≡ words.now.table_id }
    requires part { 0 < seat.old.me.0.part }
    requires into { counts_of into.old ≡ words.now.key.items }
    ensures table { seat.new.table_id ≡ seat.old.table_id }
    ensures part { (seat.new.me.1 ≡ seat.old.me.1) × (seat.new.me.0.part ≡ seat.old.me.0.part) }
    ensures counts { counts_of into.new ≡ counts_of into.old }
    ensures taken { (was : View) (into_was : List (List Bool)) → Taken words.now.key.items start was seat.old.me.0 into_was into.old
        → Taken words.now.key.items (start + room_for count) was seat.new.me.0 into_was into.new }
{
    let length = count.div_ceil(64);
    for nth in 0..length {
        let bits = take_word::<Brand>(words, seat, start + nth as usize);
        put_word(bits, class, nth * 64, count, into);
    }
    let behind = start + length as usize;
    let end = start + room_for(count);
    take_rest(words, seat, behind, end);
}

// Takes the hits of words in which no probe lies.
fn take_rest(words: &Words, seat: &mut Seat<(), View>, start: usize, end: usize)
    requires none { (c i : ℕ) → IsProbe words.now.key.items c i → (word_at words.now.key.items c i < start) ⊎ (end ≤ word_at words.now.key.items c i) }
    requires end { (start ≤ end) × (end ≤ words.now.table_id.words) }
    requires table { seat.old.table_id ≡ words.now.table_id }
    requires part { 0 < seat.old.me.0.part }
    ensures table { seat.new.table_id ≡ seat.old.table_id }
    ensures part { (seat.new.me.1 ≡ seat.old.me.1) × (seat.new.me.0.part ≡ seat.old.me.0.part) }
    ensures taken { (was : View) (into_was into : List (List Bool)) → Taken words.now.key.items start was seat.old.me.0 into_was into
        → Taken words.now.key.items end was seat.new.me.0 into_was into }
{
    for word in start..end {
        take_word::<Brand>(words, seat, word);
    }
}

/// Takes the hits of all words, each by one atomic step, and puts them into a set.
pub fn take_all(
    words: &Words,
    seat: &mut Seat<(), View>,
    starts: &[usize],
    counts: &[u32],
    end: usize,
    into: &mut HitSet,
)
    requires counts { words.now.key.items ≡ counts.now }
    requires layout { IsLayout counts.now starts.now words.now.table_id.words × (end ≡ words.now.table_id.words) }
    requires table { seat.old.table_id ≡ words.now.table_id }
    requires part { 0 < seat.old.me.0.part }
    requires into { counts_of into.old ≡ counts.now }
    ensures table { seat.new.table_id ≡ seat.old.table_id }
    ensures slots { seat.new.me.1 ≡ seat.old.me.1 }
    ensures taken { Taken counts.now end seat.old.me.0 seat.new.me.0 into.old into.new }
{
    let mut word = 0;
    for class in 0..counts.len().min(1 << 32) {
        word = starts[class] + room_for(counts[class]);
        take_class(
            words,
            seat,
            starts[class],
            class as u32,
            counts[class],
            into,
        );
    }
    take_rest(words, seat, word, end);
}
