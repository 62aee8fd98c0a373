//! Where entries would stand that are added next. Nothing is added.
ghost use Rattle.std.specs.Prelude.{◌≡◌, ◌+◌, ◌<◌, ◌≤◌, length, pos, IfOk, IfSome, IfNone};
ghost use Rattle.jc_pool.specs.declared.index.Key.TheVariants as key;
ghost use Rattle.jc_pool.specs.Adding.{HasComputed, bootstrap_constant, WouldStand, AreSameInts, WouldHaveInts};
ghost use Rattle.jc_pool.specs.Index.{IsIndexOf, key_place, computed};
ghost use Rattle.jc_pool.specs.Pool.{PoolValue, IsPool};

use crate::Pool;
use crate::add_linked::missing_computed;
use crate::entry::Entry;
use crate::index::{Index, Key};
use crate::linked::{ComputedText, find_computed};
use jc_bytes::{List, Memory};
use std::alloc::Global;

/// Where an entry would stand.
#[derive(Clone, Copy, Debug, PartialEq, Eq)]
pub struct Planned {
    /// Its place.
    pub place: u32,
    /// The count that the pool would have, which may be above 65,535.
    pub count: u32,
}

/// Where ints would stand.
#[derive(Debug, Drop)]
pub struct PlannedInts {
    /// The place of each.
    pub places: List<u32>,
    /// The count that the pool would have, which may be above 65,535.
    pub count: u32,
}

/// Where a computed constant would stand.
fn planned_computed(slots: &[Option<Entry>], index: &Index, c: &ComputedText<'_>) -> Planned
    requires pool { IsPool slots.now }
    requires index { IsIndexOf slots.now index.now }
    ensures place { WouldStand (HasComputed slots.now (computed c.now)) result.place result.count }
    ensures few { result.count ≤ 65539 }
{
    let count = slots.len() as u32;
    match find_computed(slots, index, c) {
        Some(place) => Planned {
            place: u32::from(place),
            count,
        },
        None => {
            let missing = missing_computed(slots, index, c) as u32;
            Planned {
                place: count + missing - 1,
                count: count + missing,
            }
        }
    }
}

/// The key of an int that isn't negative.
fn int_key(value: u32) -> Key
    requires { value < 2147483648 }
    ensures { result ≡ key.Integer (pos value) }
{
    Key::Integer(value as i32)
}

/// Where an int would stand that is added to a pool of this count, and the count that the pool would
/// have then.
fn planned_int(index: &Index, value: u32, count: u32) -> Planned
    requires value { value < 2147483648 }
    requires count { count < 4294967295 }
    ensures found { IfSome (key_place index.now.keys.entries (key.Integer (pos value))) (λ place. (result.place ≡ place) × (result.count ≡ count)) }
    ensures new { IfNone (key_place index.now.keys.entries (key.Integer (pos value))) ((result.place ≡ count) × (result.count ≡ count + 1)) }
    ensures few { result.count ≤ count + 1 }
{
    match index.key_place(int_key(value)) {
        Some(place) => Planned {
            place: u32::from(place),
            count,
        },
        None => Planned {
            place: count,
            count: count + 1,
        },
    }
}

/// Where ints of the values from `first` on would stand that are added to a pool of count `start`.
fn planned_ints(
    alloc: Global,
    slots: &[Option<Entry>],
    index: &Index,
    start: u32,
    first: u16,
    many: u16,
) -> Result<PlannedInts, Memory>
    requires index { IsIndexOf slots.now index.now }
    requires few { start + many < 4294967296 }
    ensures { IfOk result (λ p. (old : PoolValue) → AreSameInts slots.now old → length old ≡ start → WouldHaveInts old first many p.places p.count) }
{
    let _pool = slots;
    let mut places = Vec::with_capacity(alloc, usize::from(many))?;
    let mut count = start;
    'planning: for number in 0..many {
        let planned = planned_int(index, u32::from(first) + u32::from(number), count);
        places.push(planned.place)?;
        count = planned.count;
    }
    Ok(PlannedInts {
        places: List::from_vec(places),
        count,
    })
}

impl Pool {
    /// Where `add_dynamic` would have a Dynamic entry stand (JVM Specification 4.4.10), and the count
    /// that the pool would have then, but for the limit of the count. Nothing is added.
    ///
    /// # Errors
    ///
    /// `Memory` where memory was refused.
    pub fn place_of_dynamic(
        &self,
        alloc: Global,
        bootstrap: u16,
        name: &[u8],
        desc: &[u8],
    ) -> Result<Planned, Memory>
        ensures place { IfOk result (λ p. WouldStand (HasComputed self.now (bootstrap_constant bootstrap name.now desc.now)) p.place p.count) }
        ensures few { IfOk result (λ p. p.count ≤ 65539) }
    {
        let constant = ComputedText {
            bootstrap,
            name,
            desc,
        };
        let slots = self.slots();
        if let Some(index) = self.index() {
            return Ok(planned_computed(slots, index, &constant));
        }
        let index = Index::of(alloc, slots)?;
        Ok(planned_computed(slots, &index, &constant))
    }

    /// Where `many` ints would stand, of the values from `first` on (JVM Specification 4.4.4), each
    /// added in turn as by `add_int`, and the count that the pool would have then, but for the limit of
    /// the count. They are added to a pool of count `start` that has all ints of this one, at the same
    /// places, and no other: to this one, or to one that `add_dynamic` makes of it. Nothing is added.
    ///
    /// # Errors
    ///
    /// `Memory` where memory was refused.
    pub fn places_of_ints(
        &self,
        alloc: Global,
        start: u32,
        first: u16,
        many: u16,
    ) -> Result<PlannedInts, Memory>
        requires { start + many < 4294967296 }
        ensures { IfOk result (λ p. (old : PoolValue) → AreSameInts self.now old → length old ≡ start → WouldHaveInts old first many p.places p.count) }
    {
        let slots = self.slots();
        if let Some(index) = self.index() {
            return planned_ints(alloc, slots, index, start, first, many);
        }
        let index = Index::of(alloc, slots)?;
        planned_ints(alloc, slots, &index, start, first, many)
    }
}
