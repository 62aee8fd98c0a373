//! Whether one more bootstrap method can be put behind those of a class (JVM Specification 4.7.23).
ghost use Rattle.std.specs.Prelude.{◌≡◌, ◌≤◌, ◌<◌, ◌↔◌, ℕ, List as Seq, IsTrue, IfOk, IfErr, MatchOption, length, drop};
ghost use Rattle.std.specs.Option.{option_map};
ghost use Rattle.jc_methods.specs.ProbeMembers.{bootstraps_name, fetch_of};
ghost use Rattle.jc_bytes.specs.Decoder.{number_at};
ghost use Rattle.jc_bytes.specs.Parsing.{Good, item, times_at};
ghost use Rattle.jc_body.specs.First.{FirstItem};
ghost use Rattle.jc_bootstraps.specs.Bootstraps.{Bootstrap, HaveBootstraps, bootstrap_bodies, bootstraps, has_name};
ghost use Rattle.jc_bootstraps.specs.BootstrapsReading.{bootstrap_at};
ghost use Rattle.jc_instrument.specs.Bootstraps.{AreBootstraps, AsksPast, AsksPastAt, IsFirstBody, IsFullBy, NamesNothing, NamesPast};
ghost use Rattle.jc_instrument.specs.Bootstraps.{SomeNamesPast, SomePast, TakesNoBootstrap};
ghost use Rattle.jc_instrument.specs.Causes.{Never};
ghost use Rattle.jc_instrument.specs.Needed.{GetsBy};
ghost use Rattle.jc_instrument.specs.RoomCauses.{HasBadBootstraps};

use crate::found::ONE_TOO_MANY;
use jc_body::has_name;
use jc_bootstraps::class_bootstraps;
use jc_bytes::{Refusal, RefusalKind};
use jc_class::{Attribute, ClassFile};
use jc_methods::{BOOTSTRAPS_NAME, Fetch, fetch_of};
use jc_pool::Pool;

/// The most bootstrap methods, and the most attributes, that a class has (JVM Specification 4.1, 4.7.23).
const MOST_ENTRIES: u16 = 65_535;

/// The number of the first attribute that is named BootstrapMethods.
pub fn bootstraps_number(pool: &Pool, attributes: &[Attribute]) -> Option<usize>
    ensures { FirstItem (λ number a. IsTrue (has_name pool.now bootstraps_name a)) attributes.now result }
{
    attributes
        .iter()
        .position(|attribute| has_name(pool, BOOTSTRAPS_NAME, attribute))
}

/// What the first attribute holds that is named BootstrapMethods.
fn bootstraps_body(class: &ClassFile) -> Option<&[u8]>
    ensures { IsFirstBody (bootstrap_bodies class.now.pool class.now.attributes) (option_map (λ body. body.now) result) }
{
    let number = bootstraps_number(&class.pool, &class.attributes)?;
    let attribute = class.attributes.get(number)?;
    Some(&attribute.body)
}

/// The number of two bytes in front, and what stands behind it.
fn split_number(bytes: &[u8]) -> Option<(u16, &[u8])>
    ensures { option_map (λ read. (read.0, read.1.now)) result ≡ number_at 2 bytes.now }
{
    match bytes {
        [high, low, rest @ ..] => Some((u16::from(*high) * 256 + u16::from(*low), rest)),
        _ => None,
    }
}

/// Whether one of so many places in front is at or above the limit, and what stands behind them.
fn pass_places(limit: u16, count: u16, bytes: &[u8]) -> Option<(bool, &[u8])>
    ensures { (places rest : Seq ℕ) → times_at count (item (number_at 2)) bytes.now ≡ Good places rest
        → MatchOption result ⊥ (λ passed. (passed.1.now ≡ rest) × (IsTrue passed.0 ↔ SomePast limit places)) }
{
    let mut past = false;
    let mut rest = bytes;
    'passing: for _place in 0..count {
        let Some((place, behind)) = split_number(rest) else {
            return None;
        };
        past = past || place >= limit;
        rest = behind;
    }
    Some((past, rest))
}

/// Whether the bootstrap method in front names a place at or above the limit, and what stands behind it.
fn pass_bootstrap(limit: u16, bytes: &[u8]) -> Option<(bool, &[u8])>
    ensures { (b : Bootstrap) (rest : Seq ℕ) → bootstrap_at bytes.now ≡ Good b rest
        → MatchOption result ⊥ (λ passed. (passed.1.now ≡ rest) × (IsTrue passed.0 ↔ NamesPast limit b)) }
{
    let (handle, behind) = split_number(bytes)?;
    let (count, places) = split_number(behind)?;
    let (past, rest) = pass_places(limit, count, places)?;
    Some((handle >= limit || past, rest))
}

/// What stands behind the count.
fn behind_count(body: &[u8]) -> &[u8]
    ensures { result.now ≡ drop 2 body.now }
{
    match body {
        [_, _, rest @ ..] => rest,
        _ => &body[..0],
    }
}

/// Whether one of the bootstrap methods that the body spells, of which there are so many, names a place at or above the limit.
fn some_names_past(limit: u16, count: u16, body: &[u8]) -> bool
    ensures { (entries : Seq Bootstrap) → bootstraps.Text body.now entries → count ≡ length entries
        → (IsTrue result ↔ SomeNamesPast limit entries) }
{
    let mut rest = behind_count(body);
    'passing: for _entry in 0..count {
        let Some((past, behind)) = pass_bootstrap(limit, rest) else {
            return false;
        };
        if past {
            return true;
        }
        rest = behind;
    }
    false
}

/// Whether the entry at this place is of a constant or a call that is linked at run time, by a bootstrap method whose number is at
/// or above the count.
fn asks_past_at(pool: &Pool, count: u16, place: u16) -> bool
    ensures { IsTrue result ↔ AsksPastAt pool.now count place }
{
    match pool.bootstrap_number(place) {
        Some(number) => number >= count,
        None => false,
    }
}

/// Whether one of the entries is.
fn asks_past(pool: &Pool, count: u16) -> bool
    ensures { IsTrue result ↔ AsksPast pool.now count }
{
    'asking: for place in 0..pool.count() {
        if asks_past_at(pool, count, place) {
            return true;
        }
    }
    false
}

/// Whether the class has a bootstrap method that names nothing, or an entry that asks for one that isn't there. It has so many.
fn names_nothing(class: &ClassFile, count: u16) -> bool
    requires { HaveBootstraps (bootstrap_bodies class.now.pool class.now.attributes) count }
    ensures { (entries : Seq Bootstrap) → AreBootstraps (bootstrap_bodies class.now.pool class.now.attributes) entries
        → (IsTrue result ↔ NamesNothing class.now.pool entries) }
{
    if asks_past(&class.pool, count) {
        return true;
    }
    match bootstraps_body(class) {
        Some(body) => some_names_past(class.pool.count(), count, body),
        None => false,
    }
}

/// Whether no number is left for one more bootstrap method behind so many, or for the attribute that would hold it.
fn is_full(class: &ClassFile, count: u16) -> bool
    requires { length class.now.attributes ≤ 65535 }
    ensures { IsTrue result ↔ IsFullBy (length class.now.attributes) (bootstrap_bodies class.now.pool class.now.attributes) count }
{
    match bootstraps_body(class) {
        Some(_) => count == MOST_ENTRIES,
        None => class.attributes.len() == usize::from(MOST_ENTRIES),
    }
}

/// How many bootstrap methods the class has; or, where no other can be put behind them, the place of the refusal.
fn bootstrap_count(class: &ClassFile) -> Result<u16, u32>
    requires { length class.now.attributes ≤ 65535 }
    ensures count { IfOk result (HaveBootstraps (bootstrap_bodies class.now.pool class.now.attributes)) }
    ensures few { IfOk result (λ count. count < 65535) }
    ensures taken { (place : ℕ) → TakesNoBootstrap class.now.pool (length class.now.attributes) (bootstrap_bodies class.now.pool class.now.attributes) place
        → IfOk result (λ _. ⊥) }
    ensures refused { IfErr result
        (TakesNoBootstrap class.now.pool (length class.now.attributes) (bootstrap_bodies class.now.pool class.now.attributes)) }
{
    let Some(count) = class_bootstraps(class) else {
        return Err(0);
    };
    if names_nothing(class, count) {
        return Err(0);
    }
    if is_full(class, count) {
        return Err(ONE_TOO_MANY);
    }
    Ok(count)
}

/// The number of the bootstrap method that is added to the class, 0 where none is added; or the refusal, where none can be added.
pub fn next_bootstrap(class: &ClassFile) -> Result<u16, Refusal>
    requires { length class.now.attributes ≤ 65535 }
    ensures gets { IfOk result (GetsBy class.now (fetch_of class.now.major)) }
    ensures few { IfOk result (λ bootstrap. bootstrap < 65535) }
    ensures taken { IfOk result (λ bootstrap. Never (HasBadBootstraps class.now)) }
    ensures refused { IfErr result (HasBadBootstraps class.now) }
{
    match fetch_of(class.major) {
        Fetch::Member => Ok(0),
        Fetch::Constant => match bootstrap_count(class) {
            Ok(count) => Ok(count),
            Err(place) => Err(Refusal {
                kind: RefusalKind::BadBootstraps,
                method: None,
                place,
            }),
        },
    }
}
