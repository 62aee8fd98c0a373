//! The probes of a class: what its `$jacocoInit` asks for.
ghost use Rattle.std.specs.Prelude.{◌≡◌, ◌↔◌, ℕ, Option as Maybe, IsTrue, Some, IfOk, IfSome, IfNone, MatchOption};
ghost use Rattle.std.specs.Int.{w64, cast_signed};
ghost use Rattle.std.specs.Option.{option_copied};
ghost use Rattle.jc_methods.specs.ProbeMembers.{data_name, data_type, runtime_class, fetch_name, fetch_type};
ghost use Rattle.jc_methods.specs.WellMade.{what_used};
ghost use Rattle.jc_methods.specs.declared.body.What.TheVariants as whats;
ghost use Rattle.jc_pool.specs.Lookup.{string_of};
ghost use Rattle.jc_instrument_reread.specs.Written.{added_type};
ghost use Rattle.jc_link_programs.specs.OwnBootstrap.{HasBootstrap};
ghost use Rattle.jc_link_programs.specs.ProbeInits.{added_code, added_of, int_above, is_added, number_in, places_of, AreProbes, CodeAsks};
ghost use Rattle.jc_link_programs.specs.ProbeInits.{NamesField, NamesMembers};

use crate::asked::{Asked, Counted, added_code, asked_in};
use crate::own_bootstrap::last_number;
use jc_bytes::{List, Memory};
use jc_class::ClassFile;
use jc_methods::{
    BOOTSTRAP_TYPE, Body, DATA_NAME, FETCH_NAME, FETCH_TYPE, Fetch, INIT_NAME, INIT_TYPE, Insn,
    MOST_PROBES, MOST_SHORT, PROBE_ARRAY, RUNTIME_CLASS, Use, What, fetch_of,
};
use jc_pool::Pool;
use jc_programs::ProbeInit;
use std::alloc::Global;

/// What code asks for.
#[derive(Clone, Copy)]
struct Known {
    /// The id of the class.
    id: u64,
    /// The number of probes.
    count: u32,
    /// The place of the class's name.
    name: u16,
}

/// Whether the two are one list of instructions.
fn is_same_code(code: &List<Insn>, other: &List<Insn>) -> bool
    ensures { IsTrue result ↔ (code.now ≡ other.now) }
{
    code == other
}

/// What stands at a place that a body uses.
fn what_used(uses: &[Use], place: u16) -> Option<&What>
    ensures { option_copied result ≡ what_used uses.now place }
{
    let mut rest = uses;
    'uses: while let [one, after @ ..] = rest {
        if one.place == place {
            return Some(&one.what);
        }
        rest = after;
    }
    None
}

/// Whether it is the field of the class that keeps the probe array.
fn is_data_field(what: &What, class: &[u8]) -> bool
    ensures { IsTrue result ↔ (what.now ≡ whats.Field class.now data_name data_type) }
{
    match what {
        What::Field {
            class: owner,
            name,
            desc,
        } => {
            owner.as_slice() == class
                && name.as_slice() == DATA_NAME
                && desc.as_slice() == PROBE_ARRAY
        }
        _ => false,
    }
}

/// Whether it is the method that makes probe arrays.
fn is_fetch(what: &What) -> bool
    ensures { IsTrue result ↔ (what.now ≡ whats.Method runtime_class fetch_name fetch_type) }
{
    match what {
        What::Method { class, name, desc } => {
            class.as_slice() == RUNTIME_CLASS
                && name.as_slice() == FETCH_NAME
                && desc.as_slice() == FETCH_TYPE
        }
        _ => false,
    }
}

/// The id that a Long holds.
fn id_of(what: &What) -> Option<u64>
    ensures { MatchOption result ((id : ℕ) → what.now ≡ whats.Long (cast_signed w64 id) → ⊥) (λ id. what.now ≡ whats.Long (cast_signed w64 id)) }
{
    match what {
        What::Long(value) => Some(value.cast_unsigned()),
        _ => None,
    }
}

/// The Integer of a number that no shorter instruction pushes.
fn int_above(what: &What) -> Option<u32>
    ensures { result ≡ int_above what.now }
{
    match what {
        What::Int(value) => {
            if *value < 0 {
                return None;
            }
            let number = *value as u32;
            if number <= MOST_SHORT {
                None
            } else {
                Some(number)
            }
        }
        _ => None,
    }
}

/// The number of probes, pushed or loaded as instrumentation does it.
fn number_in(uses: &[Use], count: Counted) -> Option<u32>
    ensures { result ≡ number_in uses.now count }
{
    match count {
        Counted::Pushed(number) => {
            if number <= MOST_SHORT {
                Some(number)
            } else {
                None
            }
        }
        Counted::Loaded(place) => int_above(what_used(uses, place)?),
    }
}

/// Whether the field that keeps the array stands at a place, where there is one.
fn names_field(fetch: Fetch, uses: &[Use], class: &[u8], place: u16) -> bool
    ensures { IsTrue result ↔ NamesField fetch uses.now class.now place }
{
    match fetch {
        Fetch::Member => match what_used(uses, place) {
            Some(field) => is_data_field(field, class),
            None => false,
        },
        Fetch::Constant => true,
    }
}

/// Whether the method names the field and the method that it uses.
fn names_members(fetch: Fetch, uses: &[Use], class: &[u8], asked: &Asked) -> bool
    ensures { IsTrue result ↔ NamesMembers fetch uses.now class.now asked.now }
{
    let Some(call) = what_used(uses, asked.fetch) else {
        return false;
    };
    is_fetch(call) && names_field(fetch, uses, class, asked.field)
}

/// The id of the class, at its place.
fn id_at(uses: &[Use], place: u16) -> Option<u64>
    ensures { MatchOption result ((id : ℕ) → what_used uses.now place ≡ Some (whats.Long (cast_signed w64 id)) → ⊥)
        (λ id. what_used uses.now place ≡ Some (whats.Long (cast_signed w64 id))) }
{
    match what_used(uses, place) {
        Some(what) => id_of(what),
        None => None,
    }
}

/// Whether the code is that of the method, with these places and this number.
fn has_added_code(
    alloc: Global,
    fetch: Fetch,
    code: &List<Insn>,
    asked: &Asked,
    count: u32,
) -> Result<bool, Memory>
    ensures { IfOk result (λ same. IsTrue same ↔ (code.now ≡ added_code fetch (places_of asked.now) count)) }
{
    let made = added_code(alloc, fetch, asked, count)?;
    Ok(is_same_code(code, &made))
}

/// The probes that the code asks for, and the place of the class's name.
fn code_asks(
    alloc: Global,
    fetch: Fetch,
    class: &[u8],
    body: &Body,
) -> Result<Option<Known>, Memory>
    ensures asks { IfOk result (λ found. IfSome found (λ k. CodeAsks fetch class.now body.now k.id k.count k.name)) }
    ensures none { IfOk result (λ found. IfNone found ((id count text : ℕ) → CodeAsks fetch class.now body.now id count text → ⊥)) }
{
    let Some(asked) = asked_in(fetch, &body.code) else {
        return Ok(None);
    };
    let Some(count) = number_in(&body.uses, asked.count) else {
        return Ok(None);
    };
    if count > MOST_PROBES || !has_added_code(alloc, fetch, &body.code, &asked, count)? {
        return Ok(None);
    }
    if !names_members(fetch, &body.uses, class, &asked) {
        return Ok(None);
    }
    match id_at(&body.uses, asked.id) {
        Some(id) => Ok(Some(Known {
            id,
            count,
            name: asked.name,
        })),
        None => Ok(None),
    }
}

/// The descriptor of the method that instrumentation adds.
fn added_type(fetch: Fetch) -> &'static [u8]
    ensures { result.now ≡ added_type fetch }
{
    match fetch {
        Fetch::Member => INIT_TYPE,
        Fetch::Constant => BOOTSTRAP_TYPE,
    }
}

/// Whether the method has the name and the descriptor of the added one.
fn is_added(fetch: Fetch, body: &Body) -> bool
    ensures { result ≡ is_added fetch body.now }
{
    body.name.as_slice() == INIT_NAME && body.desc.as_slice() == added_type(fetch)
}

/// The first method with that name and descriptor.
fn added_of(fetch: Fetch, bodies: &[Body]) -> Option<&Body>
    ensures { option_copied result ≡ added_of fetch bodies.now }
{
    let mut rest = bodies;
    'bodies: while let [body, after @ ..] = rest {
        if is_added(fetch, body) {
            return Some(body);
        }
        rest = after;
    }
    None
}

/// Whether the String at a place is this text.
fn is_string(pool: &Pool, place: u16, text: &[u8]) -> bool
    ensures { IsTrue result ↔ (string_of pool.now place ≡ Some text.now) }
{
    match pool.string_at(place) {
        Ok(there) => there == text,
        Err(_) => false,
    }
}

/// What the code asks for, with the number of the bootstrap method, where the class gets its array by a constant and has that method.
fn init_with(fetch: Fetch, class: &ClassFile, name: &[u8], known: Known) -> Option<ProbeInit>
    ensures asked { IfSome result (λ init. (init.id ≡ known.id) × (init.count ≡ known.count)) }
    ensures some { IfSome result (λ init. HasBootstrap fetch class.now name.now init.bootstrap) }
    ensures none { IfNone result ((number : Maybe ℕ) → HasBootstrap fetch class.now name.now number → ⊥) }
{
    let bootstrap = match fetch {
        Fetch::Member => None,
        Fetch::Constant => Some(last_number(class, name)?),
    };
    Some(ProbeInit {
        id: known.id,
        count: known.count,
        bootstrap,
    })
}

/// The id, the number of probes and the bootstrap method that the class asks for, if its method with that name and descriptor is the
/// one that instrumentation adds.
pub fn probes_of(
    alloc: Global,
    class: &ClassFile,
    name: &[u8],
    bodies: &[Body],
) -> Result<Option<ProbeInit>, Memory>
    ensures { IfOk result (AreProbes class.now name.now bodies.now) }
{
    let fetch = fetch_of(class.major);
    let Some(body) = added_of(fetch, bodies) else {
        return Ok(None);
    };
    let Some(known) = code_asks(alloc, fetch, name, body)? else {
        return Ok(None);
    };
    if !is_string(&class.pool, known.name, name) {
        return Ok(None);
    }
    Ok(init_with(fetch, class, name, known))
}
