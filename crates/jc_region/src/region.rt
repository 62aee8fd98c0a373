//! Blocks of words.
ghost use Rattle.std.specs.Prelude.{◌≡◌, ◌↔◌, ◌+◌, ◌<◌, ◌≤◌, [], ◌++◌, length, take, drop, replicate, IsNone, slice_index_or, IfOk, IfNone, IfSome, OnSome};
ghost use Rattle.jc_region.specs.Blocks.{IsBlock, IsLive, words_in, words_at, with_word, with_block};

use jc_bytes::Memory;
use std::alloc::Global;
use std::marker::Model;

/// A block of words: how many words the earlier blocks have together, and how many it has.
#[derive(Clone, Copy, Debug, PartialEq, Eq)]
pub struct Block {
    pub at: u32,
    pub len: u32,
}

/// Blocks of words, seen as a list of lists, the most words that they may have together, and the memory in which they lie.
#[derive(Drop)]
pub struct Region {
    words: Vec<u64>,
    ends: Vec<u32>,
    count: u32,
    used: u32,
}

impl Model for Region {
    ghost use Rattle.jc_region.specs.Blocks.{Blocks};

    ghost Value = { Blocks };

    ghost use Rattle.jc_region.specs.Places.{blocks_of, IsSound};

    ghost view = { blocks_of };

    ghost invariant = { IsSound };
}

/// Makes so many words 0, from one on.
fn clear(words: &mut [u64], from: usize, count: usize)
    requires { from + count ≤ length words.old }
    ensures { words.new ≡ take from words.old ++ (replicate count 0 ++ drop (from + count) words.old) }
{
    words[from..from + count].fill(0);
}

impl Region {
    /// No block, and room for `n` words. No later call takes memory: each leaves the region in the memory that it has here.
    ///
    /// # Errors
    ///
    /// `Memory` where memory was refused.
    pub fn with_words(alloc: Global, n: u32) -> Result<Region, Memory>
        ensures { IfOk result (λ region. (region.most ≡ n) × (region.blocks ≡ [])) }
    {
        Ok(Region {
            words: vec![in alloc; 0; n as usize]?,
            ends: vec![in alloc; 0; n as usize]?,
            count: 0,
            used: 0,
        })
    }

    /// How many words the blocks have together.
    pub fn used(&self) -> u32
        ensures { result ≡ words_in self.now.blocks }
    {
        self.used
    }

    /// How many blocks there are.
    pub fn count(&self) -> u32
        ensures { result ≡ length self.now.blocks }
    {
        self.count
    }

    /// The block with a number, counted from 0 in the order in which they were made.
    pub fn block(&self, number: u32) -> Block
        requires { number < length self.now.blocks }
        ensures block { IsBlock self.now.blocks result.at result.len number }
        ensures within { result.at + result.len ≤ self.now.most }
    {
        let end = self.ends[number as usize];
        let at = if number == 0 {
            0
        } else {
            self.ends[number as usize - 1]
        };
        Block { at, len: end - at }
    }

    /// A new block of `len` words, all 0, behind the others, which stay as they are. `None` exactly where no room is
    /// left for so many words, and then nothing changed. Takes no memory.
    pub fn alloc(&mut self, len: u32) -> Option<Block>
        requires { 0 < len }
        ensures room { IsNone result ↔ (self.old.most < words_in self.old.blocks + len) }
        ensures none { IfNone result (self.new ≡ self.old) }
        ensures place { IfSome result (λ block. block ≡ record { at = words_in self.old.blocks; len = len }) }
        ensures block { OnSome result (self.new ≡ with_block self.old len) }
        ensures memory { self.new.memory ≡ self.old.memory }
    {
        if self.words.len() < self.used as usize + len as usize {
            return None;
        }
        let at = self.used;
        clear(&mut self.words, at as usize, len as usize);
        self.used = at + len;
        self.ends[self.count as usize] = at + len;
        self.count += 1;
        Some(Block { at, len })
    }

    /// Word `i` of a block.
    pub fn get(&self, block: Block, i: u32) -> u64
        requires live { IsLive self.now.blocks block.at block.len }
        requires within { i < block.len }
        ensures { result ≡ slice_index_or (words_at self.now.blocks block.at) i 0 }
    {
        self.words[block.at as usize + i as usize]
    }

    /// Writes word `i` of a block. All other words stay as they are, and so does the memory in which they lie.
    pub fn set(&mut self, block: Block, i: u32, word: u64)
        requires live { IsLive self.old.blocks block.at block.len }
        requires within { i < block.len }
        ensures { self.new ≡ with_word self.old block.at i word }
    {
        self.words[block.at as usize + i as usize] = word;
    }

    /// No block is left. The room is as it was, in the same memory.
    pub fn reset(&mut self)
        ensures { self.new ≡ record self.old { blocks = [] } }
    {
        self.count = 0;
        self.used = 0;
    }
}
