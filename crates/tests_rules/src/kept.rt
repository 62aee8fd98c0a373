//! The calls, and what lines keep for the lines behind them.

use crate::lines::ClassBytes;
use crate::{adding, lines, rules};
use jc_rules::Totalled;
use std::alloc::Global;
use tests_lines::{Answer, Calls};

/// What lines keep for the lines behind them.
#[derive(Drop)]
pub struct Kept {
    /// The class file of the calls behind `class`.
    class: ClassBytes,
    /// The classes of `totals`.
    classes: Vec<Totalled>,
}

impl Kept {
    /// No class.
    pub fn new(alloc: Global) -> Kept {
        Kept {
            class: ClassBytes::new(alloc),
            classes: Vec::new(alloc),
        }
    }
}

impl Calls for Kept {
    fn answer(&mut self, alloc: Global, words: &[&str], out: &mut Answer) -> Option<()> {
        match words {
            ["class", text @ ..] => lines::keep(alloc, &mut self.class, text, out),
            ["lines", hits] => lines::answer(alloc, self.class.as_slice(), hits, out),
            ["forget"] => adding::forget(&mut self.classes, out),
            ["counted", counts @ ..] => adding::keep(alloc, &mut self.classes, counts, out),
            ["totals"] => adding::answer(&self.classes, out),
            ["holds", counter, least, of, missed, covered] => rules::answer(
                counter,
                [least, of],
                [missed, covered],
                out,
            ),
            words => out.unknown(words),
        }
    }
}
