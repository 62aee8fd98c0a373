//! The constants that the instrumented code of a class loads, at their places before anything is added to the pool.
ghost use Rattle.std.specs.Prelude.{◌≡◌, ◌≤◌, ◌+◌, ◌-◌, [], length, map, IfOk};
ghost use Rattle.jc_methods.specs.ProbeMembers.{fetch_of, most_probes, most_short};
ghost use Rattle.jc_pool.specs.Adding.{AreSameInts};
ghost use Rattle.jc_pool.specs.Pool.{PoolValue};
ghost use Rattle.jc_instrument.specs.Constants.{AreConstants, within};
ghost use Rattle.jc_instrument.specs.Contents.{TakesEach};
ghost use Rattle.jc_instrument.specs.Needed.{GetsBy, constant_needs, early_list, integer_needs};

use jc_bytes::{List, Memory};
use jc_class::ClassFile;
use jc_methods::{CONSTANT_TYPE, DATA_NAME, Fetch, MOST_SHORT, fetch_of};
use jc_pool::{Planned, Pool};
use std::alloc::Global;

/// The last place that a pool can have (JVM Specification 4.1).
const LAST_PLACE: u32 = 65_535;

/// The first id that no shorter instruction pushes than the load of its Integer.
const FIRST_LONG: u16 = 32_768;

/// The constants that the instrumented code of a class loads, and how its methods get the array of probes. What would stand
/// behind the last place of the pool counts as standing there.
#[derive(Debug, Drop)]
pub struct ProbeConstants {
    /// How the methods get the array.
    pub fetch: Fetch,
    /// The place of the constant that gives the array, 0 where there is none.
    pub giver: u16,
    /// The places of the Integers of ids from 32,768 on, in their order.
    pub integers: List<u16>,
}

/// The place, or the last one where it is behind that.
fn within(place: u32) -> u16
    ensures { result ≡ within place }
{
    if place > LAST_PLACE {
        return LAST_PLACE as u16;
    }
    place as u16
}

/// Each of the places, or the last one where it is behind that.
fn all_within(alloc: Global, places: &[u32]) -> Result<List<u16>, Memory>
    ensures { IfOk result (λ cut. cut ≡ map within places.now) }
{
    let mut cut = Vec::with_capacity(alloc, places.len())?;
    'cutting: for place in places {
        cut.push(within(*place))?;
    }
    Ok(List::from_vec(cut))
}

/// Where the pool would have the constant that gives the array of probes, 0 where there is none, and the count that it would
/// have then. Nothing is added.
fn planned_giver(
    alloc: Global,
    pool: &Pool,
    fetch: Fetch,
    bootstrap: u16,
) -> Result<Planned, Memory>
    ensures place { IfOk result (λ p. (new : PoolValue) × AreSameInts pool.now new × (length new ≡ p.count)
        × TakesEach pool.now (constant_needs fetch bootstrap) new (early_list fetch (record { giver = p.place; integers = [] }))) }
    ensures none { fetch ≡ Fetch.Member → IfOk result (λ p. p.place ≡ 0) }
    ensures few { IfOk result (λ p. p.count ≤ 65539) }
{
    match fetch {
        Fetch::Member => Ok(Planned {
            place: 0,
            count: u32::from(pool.count()),
        }),
        Fetch::Constant => pool.place_of_dynamic(alloc, bootstrap, DATA_NAME, CONSTANT_TYPE),
    }
}

/// How many of so many ids no shorter instruction pushes than the load of an Integer.
fn long_count(count: u32) -> u16
    requires { count ≤ most_probes }
    ensures many { result ≡ count - (most_short + 1) }
    ensures few { result ≤ 32767 }
{
    count.saturating_sub(MOST_SHORT + 1) as u16
}

/// Where a pool of this count, which has the Integers of the given one, would have those of so many ids. Nothing is added.
fn planned_integers(alloc: Global, pool: &Pool, start: u32, count: u32) -> Result<List<u32>, Memory>
    requires start { start ≤ 65539 }
    requires count { count ≤ most_probes }
    ensures { IfOk result (λ places. (old : PoolValue) → AreSameInts pool.now old → length old ≡ start
        → (new : PoolValue) × TakesEach old (integer_needs count) new places) }
{
    let many = long_count(count);
    if many == 0 {
        return Ok(List::new(alloc));
    }
    let planned = pool.places_of_ints(alloc, start, FIRST_LONG, many)?;
    Ok(planned.places)
}

/// The constants that the code of the class loads, which has so many probes, and whose added bootstrap method, where there is
/// one, has this number. Nothing is added to the pool.
///
/// # Errors
///
/// `Memory` where memory was refused.
pub fn probe_constants(
    alloc: Global,
    class: &ClassFile,
    bootstrap: u16,
    count: u32,
) -> Result<ProbeConstants, Memory>
    requires count { count ≤ most_probes }
    requires gets { GetsBy class.now (fetch_of class.now.major) bootstrap }
    ensures are { IfOk result (AreConstants class.now count bootstrap) }
    ensures enough { IfOk result (λ constants. count ≤ most_short + 1 + length constants.integers) }
{
    let fetch = fetch_of(class.major);
    let giver = planned_giver(alloc, &class.pool, fetch, bootstrap)?;
    let places = planned_integers(alloc, &class.pool, giver.count, count)?;
    Ok(ProbeConstants {
        fetch,
        giver: within(giver.place),
        integers: all_within(alloc, &places)?,
    })
}
