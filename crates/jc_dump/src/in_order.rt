//! Dumps in the order of their numbers.
ghost use Rattle.std.specs.Prelude.{◌≡◌, ℕ, List, Bool, map, length, Contains, IfOk, Some, slice_get};
ghost use Rattle.jc_workers.specs.Claims.{times, once_below};
ghost use Rattle.jc_dump.specs.HasRun.{number, HasDump};

use jc_bytes::Memory;
use jc_programs::HitSet;
use jc_workers::{all_ends, no_ends};
use std::alloc::Global;

/// So many dumps, each at the place of its number.
pub fn in_order(
    alloc: Global,
    count: usize,
    mut taken: Vec<(usize, HitSet)>,
) -> Result<Vec<HitSet>, Memory>
    requires once { (d : ℕ) → times d (map number taken.items) ≡ once_below d count }
    ensures len { IfOk result (λ dumps. length dumps.items ≡ count) }
    ensures each { IfOk result (λ dumps. (d : ℕ) (dump : List (List Bool)) → HasDump taken.items d dump → slice_get dumps.items d ≡ Some dump) }
{
    let mut places = no_ends(alloc, count)?;
    'placing: while let Some((number, dump)) = taken.pop() {
        places[number] = Some(dump);
    }
    all_ends(alloc, places)
}
