//! The calls, and what lines keep for the lines behind them.

use crate::classes::{self, ClassBytes};
use crate::reports;
use jc_report::Counted;
use std::alloc::Global;
use tests_lines::{Answer, Calls};

/// What lines keep for the lines behind them.
#[derive(Drop)]
pub struct Kept {
    /// The class file of the calls behind `class`.
    class: ClassBytes,
    /// The classes of `rows` and `csv`.
    counted: Vec<Counted>,
}

impl Kept {
    /// No class.
    pub fn new(alloc: Global) -> Kept {
        Kept {
            class: ClassBytes::new(alloc),
            counted: Vec::new(alloc),
        }
    }
}

impl Calls for Kept {
    fn answer(&mut self, alloc: Global, words: &[&str], out: &mut Answer) -> Option<()> {
        match words {
            ["class", text @ ..] => classes::keep(alloc, &mut self.class, text, out),
            ["again"] => classes::keep_instrumented(alloc, &mut self.class, out),
            ["forget"] | ["counted", ..] | ["rows", _] | ["csv", _] => {
                reports::answer(alloc, &mut self.counted, words, out)
            }
            words => classes::answer(alloc, self.class.as_slice(), words, out),
        }
    }
}
