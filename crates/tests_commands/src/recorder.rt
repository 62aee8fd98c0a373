//! The writes of a run, in lines.
ghost use Rattle.std.specs.Prelude.{◌≡◌};

use std::alloc::Global;
use tests_lines::{Answer, Writes};

/// A line for each write to the files, whose bytes land as they are.
#[derive(Drop)]
pub struct Recorder {
    /// The lines.
    pub lines: Answer,
}

impl Recorder {
    /// No write.
    pub fn new(alloc: Global) -> Recorder {
        Recorder {
            lines: Answer::new(alloc),
        }
    }
}

impl Writes for Recorder {
    ghost landed = { λ path bytes. bytes };

    fn landed<'a>(&self, _path: &str, bytes: &'a [u8]) -> &'a [u8] {
        bytes
    }

    fn hear(&mut self, path: &str, is_done: bool) {
        let what = if is_done {
            "\nwrote "
        } else {
            "\nfailed to write "
        };
        self.lines.label(what, &path);
    }
}
