//! Lines that stand in one vector, one behind the other.
ghost use Rattle.std.specs.Prelude.{◌≡◌, ◌-◌, ◌<◌, ◌≤◌, ◌++◌, ◌∷◌, [], drop, length, slice_index, slice_index_or, take, OnOk};
ghost use Rattle.jc_command_exec.specs.Lines.{lines_in};

use std::alloc::{AllocError, Global};
use std::marker::Model;

/// Lines, in order. They are at most 4 GiB.
#[derive(Drop)]
pub struct Lines {
    text: Vec<u8>,
    ends: Vec<u32>,
}

impl Model for Lines {
    ghost use Rattle.std.specs.Prelude.{ℕ, List, length};
    ghost use Rattle.jc_command_exec.specs.Lines.{lines_in, EndAt};

    ghost Value = { List (List ℕ) };

    ghost view = { λ a. lines_in a.text.items 0 a.ends.items };

    ghost invariant = { λ a. EndAt (length a.text.items) 0 a.ends.items };
}

/// Where the line at a place begins, by the ends of all.
fn start_at(ends: &[u32], place: usize) -> usize
    requires { place < length ends.now }
    ensures { result ≡ slice_index (0 ∷ ends.now) place }
{
    if place == 0 {
        return 0;
    }
    ends[place - 1] as usize
}

/// What stands in a text from one place up to another.
fn part(text: &[u8], from: usize, end: usize) -> &[u8]
    requires { (from ≤ end) × (end ≤ length text.now) }
    ensures { result.now ≡ take (end - from) (drop from text.now) }
{
    &text[from..end]
}

impl Lines {
    /// No lines.
    pub fn new(alloc: Global) -> Lines
        ensures { result ≡ [] }
    {
        Lines {
            text: Vec::new(alloc),
            ends: Vec::new(alloc),
        }
    }

    /// How many there are.
    pub fn len(&self) -> usize
        ensures { result ≡ length self.now }
    {
        self.ends.len()
    }

    /// The line at a place.
    pub fn at(&self, place: usize) -> &[u8]
        requires { place < length self.now }
        ensures { result.now ≡ slice_index_or self.now place [] }
    {
        part(
            &self.text,
            start_at(&self.ends, place),
            self.ends[place] as usize,
        )
    }

    /// Puts a line last.
    pub fn push(&mut self, line: &[u8]) -> Result<(), AllocError>
        ensures { OnOk result (self.new ≡ self.old ++ line.now ∷ []) }
    {
        let end = self.text.len().saturating_add(line.len());
        if end > 0xffff_ffff {
            return Err(AllocError);
        }
        self.ends.reserve(1)?;
        self.text.extend_from_slice(line)?;
        self.ends.push(end as u32)?;
        Ok(())
    }
}
