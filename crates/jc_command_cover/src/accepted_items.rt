//! What stands beside the accepted files.
ghost use Rattle.std.specs.Prelude.{IfOk};
ghost use Rattle.jc_command_cover.specs.AcceptedItems.{KeepsAccepted};

use jc_bytes::Memory;
use std::alloc::Global;

/// Of items that stand beside all files, those beside the accepted ones, in order, by the places of these. It fails only where
/// memory is refused.
pub fn accepted_of<T: Drop>(alloc: Global, items: Vec<T>, places: &[u32]) -> Result<Vec<T>, Memory>
    ensures { IfOk result (λ kept. KeepsAccepted items.items places.now kept.items) }
{
    let mut kept = Vec::with_capacity(alloc, places.len())?;
    let mut left = places;
    'keeping: for (index, item) in items.into_iter().enumerate() {
        let Some((place, others)) = left.split_first() else {
            break;
        };
        if *place as usize == index {
            kept.push(item)?;
            left = others;
        }
    }
    Ok(kept)
}
