//! A sink of hits in memory.
ghost use Rattle.std.specs.Prelude.{◌≡◌, IfOk};
ghost use Rattle.jc_programs.specs.Probes.{counts_of, no_hits};

use jc_bytes::Memory;
use jc_programs::{HitSet, ProbeSink};
use std::alloc::Global;
use std::marker::Model;

/// Keeps in memory which probes are hit, seen as the truth values of a `HitSet`.
#[derive(Debug, Drop)]
pub struct BitSink {
    hits: HitSet,
}

impl Model for BitSink {
    ghost use Rattle.std.specs.Prelude.{List, Bool};

    ghost Value = { List (List Bool) };

    ghost view = { λ sink. sink.hits };
}

impl BitSink {
    /// A sink of the probes of classes with so many probes each, none of them hit.
    ///
    /// # Errors
    ///
    /// `Memory` where memory was refused.
    pub fn new(alloc: Global, counts: &[u32]) -> Result<BitSink, Memory>
        ensures hits { IfOk result (λ sink. sink ≡ no_hits counts.now) }
        ensures counts { IfOk result (λ sink. counts_of sink ≡ counts.now) }
    {
        Ok(BitSink {
            hits: HitSet::new(alloc, counts)?,
        })
    }

    /// Which probes are hit.
    pub fn bits(&self) -> &HitSet
        ensures { result.now ≡ self.now }
    {
        &self.hits
    }
}

impl ProbeSink for BitSink {
    ghost use Rattle.jc_programs.specs.Probes.{counts_of, IsHit};

    ghost counts = { λ sink. counts_of sink };

    ghost hits = { λ sink class id. IsHit sink class id };

    fn hit(&mut self, class: u32, id: u32) {
        self.hits.set(class, id);
    }
}
