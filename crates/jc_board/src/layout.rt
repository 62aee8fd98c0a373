//! Where the words of each class lie.
ghost use Rattle.std.specs.Prelude.{◌≡◌, ℕ, ◌+◌, ◌<◌, ◌≤◌, length, slice_index, IfOk};
ghost use Rattle.jc_programs.specs.Probes.{words_for};
ghost use Rattle.jc_board.specs.Layout.{IsLayout};
ghost use Rattle.jc_board.specs.Places.{room_for};

use jc_bytes::Memory;
use std::alloc::Global;

/// How many words a class of so many probes has: one for 64 probes, and behind them seven in which no probe lies.
pub fn room_for(count: u32) -> usize
    ensures { result ≡ room_for count }
{
    count.div_ceil(64) as usize + 7
}

/// The first word of each class, and the words, all zero. There is at least one word. The words in which probes of two classes lie
/// are at least eight apart, so a cache line of 64 bytes has those of one class alone, wherever it begins.
///
/// # Errors
///
/// `Memory` where memory was refused.
pub fn lay(alloc: Global, counts: &[u32]) -> Result<(Vec<usize>, Vec<u64>), Memory>
    ensures layout { IfOk result (λ t. IsLayout counts.now t.0.items (length t.1.items)) }
    ensures zero { IfOk result (λ t. (k : ℕ) → slice_index t.1.items k ≡ 0) }
    ensures apart { IfOk result (λ t. (c d : ℕ) → c < d → d < length counts.now
        → slice_index t.0.items c + words_for (slice_index counts.now c) + 7 ≤ slice_index t.0.items d) }
{
    let mut starts = Vec::with_capacity(alloc, counts.len())?;
    let mut words = Vec::new(alloc);
    'laying: for count in counts {
        starts.push(words.len())?;
        words.resize(words.len() + room_for(*count), 0)?;
    }
    if words.is_empty() {
        words.push(0)?;
    }
    Ok((starts, words))
}
