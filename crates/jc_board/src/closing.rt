//! The hits that the words of a closed board stand for.
ghost use Rattle.std.specs.Prelude.{◌≡◌, ℕ, ◌+◌, ◌^◌, ◌<◌, ◌≤◌, [], length, slice_index_or};
ghost use Rattle.std.specs.Slots.{slots_items, slots_len, IsFull};
ghost use Rattle.jc_programs.specs.Probes.{counts_of, no_hits, words_for, InRange, IsHit};
ghost use Rattle.jc_board.specs.Copying.{Copies};
ghost use Rattle.jc_board.specs.Layout.{IsLayout};
ghost use Rattle.jc_board.specs.Rule.{IsSet};

use atomic_table::Closed;
use jc_programs::HitSet;
use std::alloc::Global;

// Hits the probes of the class whose bits are set.
fn copy_class(closed: &Closed<(), Global>, start: usize, class: u32, count: u32, into: &mut HitSet)
    requires words { IsFull closed.now.words × (start + words_for count ≤ slots_len closed.now.words) }
    requires into { (class < length into.old) × (length (slice_index_or into.old class []) ≡ count) }
    ensures { Copies (slots_items closed.now.words) start class count into.old into.new }
{
    for id in 0..count {
        if closed.word(start + id as usize / 64) >> (id % 64) & 1 == 1 {
            into.set(class, id);
        }
    }
}

/// Hits the probes whose bits are set. A class whose number has more than 32 bits has no probe that can be hit.
pub fn copy(closed: &Closed<(), Global>, starts: &[usize], counts: &[u32], into: &mut HitSet)
    requires words { IsFull closed.now.words }
    requires layout { IsLayout counts.now starts.now (slots_len closed.now.words) }
    requires into { into.old ≡ no_hits counts.now }
    ensures counts { counts_of into.new ≡ counts.now }
    ensures hits { (c i : ℕ) → IsHit into.new c i → InRange counts.now c i × IsSet counts.now (slots_items closed.now.words) c i }
    ensures gained { (c i : ℕ) → c < 2 ^ 32 → InRange counts.now c i → IsSet counts.now (slots_items closed.now.words) c i → IsHit into.new c i }
{
    for class in 0..counts.len().min(1 << 32) {
        copy_class(closed, starts[class], class as u32, counts[class], into);
    }
}
