//! What stands at the places in the pool that a body uses.
ghost use Rattle.std.specs.Prelude.{◌≡◌, ◌++◌, IfOk, OnOk, All};
ghost use Rattle.jc_methods.specs.WellMade.{HasShortTexts};
ghost use Rattle.jc_body.specs.BodyOf.{insn_places, row_places, places_used, AreUsesOf};
ghost use Rattle.jc_body.specs.Used.{uses_of};

use crate::items::Row;
use crate::standing::what_at;
use jc_bytes::{List, Memory};
use jc_methods::{Insn, Use};
use jc_pool::Pool;
use std::alloc::Global;

/// Puts the places that instructions name at the end.
fn put_insn_places(places: &mut Vec<u16>, insns: &[Insn]) -> Result<(), Memory>
    ensures { OnOk result (places.new.items ≡ places.old.items ++ insn_places insns.now) }
{
    'putting: for insn in insns {
        if let Some(place) = insn.pool_place() {
            places.push(place)?;
        }
    }
    Ok(())
}

/// Puts the places of the classes of rows at the end.
fn put_row_places(places: &mut Vec<u16>, rows: &[Row]) -> Result<(), Memory>
    ensures { OnOk result (places.new.items ≡ places.old.items ++ row_places rows.now) }
{
    'putting: for row in rows {
        if row.class != 0 {
            places.push(row.class)?;
        }
    }
    Ok(())
}

/// What stands at each of the places.
fn listed_uses(alloc: Global, pool: &Pool, places: &[u16]) -> Result<List<Use>, Memory>
    ensures uses { IfOk result (λ uses. uses ≡ uses_of pool.now places.now) }
    ensures short { IfOk result (λ uses. All (λ u. HasShortTexts u.what) uses) }
{
    let mut uses = Vec::with_capacity(alloc, places.len())?;
    'listing: for place in places {
        if let Some(what) = what_at(alloc, pool, *place)? {
            uses.push(Use {
                place: *place,
                what,
            })?;
        }
    }
    Ok(List::from_vec(uses))
}

/// What stands at each place that an instruction or a row uses: one entry a place, in rising order.
///
/// # Errors
///
/// `Memory` where memory was refused.
pub fn read_uses(
    alloc: Global,
    pool: &Pool,
    insns: &[Insn],
    rows: &[Row],
) -> Result<List<Use>, Memory>
    ensures uses { IfOk result (AreUsesOf pool.now (places_used insns.now rows.now)) }
    ensures short { IfOk result (λ uses. All (λ u. HasShortTexts u.what) uses) }
{
    let mut places = Vec::new(alloc);
    put_insn_places(&mut places, insns)?;
    put_row_places(&mut places, rows)?;
    places.sort()?;
    places.dedup();
    listed_uses(alloc, pool, &places)
}
