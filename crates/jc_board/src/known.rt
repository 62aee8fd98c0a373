//! Probes that a thread knows to be hit.
ghost use Rattle.std.specs.Prelude.{◌≡◌, ◌<◌, ◌^◌, true, false, length, vec_len, replicate, slice_index, slice_set, bit_or, IfOk};
ghost use Rattle.jc_programs.specs.Probes.{InRange};
ghost use Rattle.jc_board.specs.Places.{word_at};
ghost use Rattle.jc_board.specs.Known.{Knows, IsEmpty, Adds};

use crate::layout::lay;
use jc_bytes::Memory;
use std::alloc::Global;
use std::marker::Model;

/// A set of probes that a thread knows to be hit, in memory of its own. A bit for each probe lies in words as those of a board.
#[derive(Drop)]
pub struct KnownHits {
    // How many probes each class has.
    counts: Vec<u32>,
    // The first word of each class.
    starts: Vec<usize>,
    words: Vec<u64>,
}

impl Model for KnownHits {
    ghost use Rattle.std.specs.Prelude.{length};
    ghost use Rattle.jc_board.specs.Layout.{IsLayout};
    ghost use Rattle.jc_board.specs.Known.{KnownSeen};

    ghost Value = { KnownSeen };

    ghost view = { λ known. record { counts = known.counts.items; words = known.words.items } };

    ghost invariant = { λ known. IsLayout known.counts.items known.starts.items (length known.words.items) };
}

impl KnownHits {
    /// The empty set, for the probes of classes with so many probes each. Its memory is that of the words of a board.
    ///
    /// # Errors
    ///
    /// `Memory` where memory was refused.
    #[tactic(auto, using(crate::proofs::KnownLaws::empty))]
    pub fn new(alloc: Global, counts: &[u32]) -> Result<KnownHits, Memory>
        ensures { IfOk result (IsEmpty counts.now) }
    {
        let (starts, words) = lay(alloc, counts)?;
        let counts = counts.to_vec(alloc)?;
        Ok(KnownHits {
            counts,
            starts,
            words,
        })
    }

    // The word of a probe.
    fn word_of(&self, class: u32, id: u32) -> usize
        requires { InRange self.now.counts class id }
        ensures { (result ≡ word_at self.now.counts class id) × (result < length self.now.words) }
    {
        self.starts[class as usize] + id as usize / 64
    }

    /// Whether the probe with this id is in the set. Takes no memory.
    pub fn has(&self, class: u32, id: u32) -> bool
        requires { InRange self.now.counts class id }
        ensures known { result ≡ true → Knows self.now class id }
        ensures unknown { result ≡ false → Knows self.now class id → ⊥ }
    {
        let place = self.word_of(class, id);
        let word = self.words[place];
        word >> (id % 64) & 1 == 1
    }

    /// Adds the probe with this id, and no other. Takes no memory.
    pub fn add(&mut self, class: u32, id: u32)
        requires { InRange self.old.counts class id }
        ensures { Adds class id self.old self.new }
    {
        let word = self.word_of(class, id);
        mark(&mut self.words, word, id % 64);
    }

    /// Takes all probes out of the set, by clearing its words. Takes no memory.
    pub fn forget(&mut self)
        ensures { IsEmpty self.old.counts self.new }
    {
        clear(&mut self.words);
    }
}

// Sets a bit of a word.
fn mark(words: &mut Vec<u64>, word: usize, bit: u32)
    requires { (word < vec_len words.old) × (bit < 64) }
    ensures { words.new.items ≡ slice_set words.old.items word (bit_or (slice_index words.old.items word) (2 ^ bit)) }
{
    words[word] |= 1 << bit;
}

// Makes all words 0.
fn clear(words: &mut Vec<u64>)
    ensures { words.new.items ≡ replicate (vec_len words.old) 0 }
{
    words.fill(0);
}
