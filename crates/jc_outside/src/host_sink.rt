//! A text that goes to a writer, of which nothing is told.
ghost use Rattle.std.specs.Prelude.{None};

use crate::host_files::write_on;
use crate::sink::next_count;
use crate::{Sink, SinkFault};
use std::io::Write;

/// A text that goes to a writer. What it has taken isn't told; this is the trusted edge.
#[derive(Drop)]
pub struct HostSink<W> {
    writer: W,
    faults: u64,
}

impl<W> HostSink<W> {
    /// A text over this writer, with no fault yet.
    pub fn new(writer: W) -> HostSink<W> {
        HostSink { writer, faults: 0 }
    }
}

/// Writes all of the bytes, and has them leave the writer.
fn write_out<W: Write>(writer: &mut W, bytes: &[u8]) -> Result<(), SinkFault> {
    write_on(writer, bytes)?;
    match writer.flush() {
        Ok(()) => Ok(()),
        Err(_) => Err(SinkFault::Failed),
    }
}

impl<W: Write> Sink for HostSink<W> {
    ghost told = { λ sink. None };

    ghost faults = { λ sink. sink.faults };

    fn put(&mut self, piece: &[u8]) -> Result<(), SinkFault> {
        if write_out(&mut self.writer, piece).is_err() {
            self.faults = next_count(self.faults);
            return Err(SinkFault::Failed);
        }
        Ok(())
    }
}
