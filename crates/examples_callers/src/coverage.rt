//! A caller of jc_cover.
ghost use Rattle.std.specs.Prelude.{◌≡◌, length, IfOk};
ghost use Rattle.jc_plan.specs.Analysed.{IsAnalysed};
ghost use Rattle.jc_cover.specs.declared.coverage.Coverage.{Coverage};
ghost use Rattle.jc_cover.specs.Counters.{counters_of};
ghost use Rattle.jc_cover.specs.Covered.{TellsCovered};

use jc_bytes::Memory;
use jc_cover::{Counters, counters, covered};
use jc_methods::Analysed;
use std::alloc::Global;

/// The counters of a class by hits of its probes.
///
/// # Errors
///
/// `Memory` where memory was refused.
pub fn counters_by(alloc: Global, class: &Analysed, hits: &[bool]) -> Result<Counters, Memory>
    requires analysed { IsAnalysed class.now }
    requires hits { length hits.now ≡ class.now.probes }
    ensures { IfOk result (λ found. (coverage : Coverage) × TellsCovered class.now.bodies hits.now coverage
        × (found ≡ counters_of class.now.bodies coverage)) }
{
    let coverage = covered(alloc, class, Some(hits))?;
    counters(alloc, class, &coverage)
}
