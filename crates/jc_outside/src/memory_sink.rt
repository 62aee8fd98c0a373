//! A text in memory, whose calls fail where it is planned.
ghost use Rattle.std.specs.Prelude.{◌≡◌, [], true, IfOk, Some, Result, Err};
ghost use Rattle.jc_outside.specs.Outside.{PutLeaves, PutCause};
ghost use Rattle.jc_outside.specs.InMemory.{PutsPlanned};
ghost use Rattle.jc_outside.specs.Planned.{is_planned, next_call};

use crate::planned::{PlannedFaults, front};
use crate::sink::next_count;
use crate::{Sink, SinkFault};
use jc_bytes::Memory;
use std::alloc::Global;
use std::marker::Model;

/// A text in memory. All that it took is told, and the calls that are to fail are known.
#[derive(Drop)]
pub struct MemorySink {
    bytes: Vec<u8>,
    calls: PlannedFaults,
    faults: u64,
}

impl Model for MemorySink {
    ghost use Rattle.jc_outside.specs.InMemory.{SinkState};

    ghost Value = { SinkState };

    ghost view = { λ s. record {
      text = s.bytes.items;
      calls = record { failing = s.calls.failing; made = s.calls.made };
      faults = s.faults;
    } };
}

impl MemorySink {
    /// An empty text. The calls of `Sink` with these numbers, counted from 1, are to fail.
    pub fn new(alloc: Global, failing: &[u32]) -> Result<MemorySink, Memory>
        ensures { IfOk result (λ s. s ≡ record { text = []; calls = record { failing = failing.now; made = 0 }; faults = 0 }) }
    {
        Ok(MemorySink {
            bytes: Vec::new(alloc),
            calls: PlannedFaults::new(alloc, failing)?,
            faults: 0,
        })
    }

    /// What it has taken.
    pub fn bytes(&self) -> &[u8]
        ensures { result.now ≡ self.now.text }
    {
        &self.bytes
    }
}

impl Sink for MemorySink {
    ghost told = { λ s. Some s.text };

    ghost faults = { λ s. s.faults };

    fn put(&mut self, piece: &[u8]) -> Result<(), SinkFault>
        ensures leaves { PutLeaves (Some self.old.text) (Some self.new.text) piece.now result }
        ensures cause { PutCause self.old.faults self.new.faults result }
        // Which calls fail, and what they leave. Any other fails for want of memory alone.
        ensures planned { is_planned self.old.calls ≡ true → result ≡ Err SinkFault.Failed }
        ensures half { PutsPlanned (is_planned self.old.calls) piece.now self.old.text self.new.text result }
        ensures calls { self.new.calls ≡ next_call self.old.calls }
    {
        let fails = self.calls.next_fails();
        let part = front(piece, fails);
        let written = self.bytes.extend_from_slice(part);
        if fails || written.is_err() {
            self.faults = next_count(self.faults);
            return Err(SinkFault::Failed);
        }
        Ok(())
    }
}
