//! The state of a frame, with numbers of class names.
ghost use Rattle.std.specs.Prelude.{◌≡◌, ◌<◌, ◌≤◌, ◌++◌, ◌-◌, ℕ, length, map, replicate, IfOk, OnOk, Some, All, slice_get};
ghost use Rattle.jc_methods.specs.EntryState.{spread, in_locals};
ghost use Rattle.jc_methods.specs.VerificationTypes.{Names as NameList, class_name, class_names, verification_type, type_state_at, Grows, IsNumbered, IsNumberedState};
ghost use Rattle.jc_methods.specs.declared.kind.Kind.TheVariants as kinds;
ghost use Rattle.jc_bytes.specs.Names.{with_name, met};
ghost use Rattle.jc_frames.specs.Answers.{seen_names};
ghost use Rattle.jc_frames.specs.Building.{AreKnown};
ghost use Rattle.jc_frames.specs.Running.{name_at, held_value, held_values, IsNumberedValue, IsUnnumbered, found_as};

use crate::method::{Method, Value};
use crate::running::{Frame, Running, is_wide};
use jc_bytes::{List, Memory, Names};
use jc_methods::{FrameAt, Kind, State, put_tops};
use jc_pool::Pool;
use std::alloc::Global;
use std::collections::HashMap;

/// The name of the class at a place, or no bytes where none stands there.
fn name_of_class(pool: &Pool, place: u16) -> &[u8]
    ensures { result.now ≡ name_at pool.now place }
{
    match pool.class_at(place) {
        Ok(name) => name,
        Err(_) => &[],
    }
}

/// The number of the class at a place. Each place is looked up once, since its name may be long.
///
/// # Errors
///
/// `Memory` where memory was refused.
fn class_number(
    alloc: Global,
    pool: &Pool,
    place: u16,
    known: &mut HashMap<u16, u32>,
    names: &mut Names,
) -> Result<u32, Memory>
    requires { AreKnown pool.now names.old known.old }
    ensures name { IfOk result (λ number. slice_get names.new number ≡ Some (name_at pool.now place)) }
    ensures met { OnOk result (names.new ≡ with_name names.old (name_at pool.now place)) }
    ensures known { OnOk result (AreKnown pool.now names.new known.new) }
    ensures grows { Grows names.old names.new }
{
    if let Some(number) = known.get(&place) {
        return Ok(*number);
    }
    let number = names.number(alloc, name_of_class(pool, place))?;
    known.insert(place, number)?;
    Ok(number)
}

/// The kind of a value.
///
/// # Errors
///
/// `Memory` where memory was refused.
fn kind_of(
    alloc: Global,
    pool: &Pool,
    value: Value,
    known: &mut HashMap<u16, u32>,
    names: &mut Names,
) -> Result<Kind, Memory>
    requires { AreKnown pool.now names.old known.old }
    ensures kind { (later : NameList) → Grows names.new later → IfOk result (λ kind. verification_type later kind ≡ held_value pool.now later value) }
    ensures numbered { IsNumberedValue (length names.old) value → IfOk result (IsNumbered (length names.new)) }
    ensures met { IsNumberedValue (length names.old) value
        → OnOk result (names.new ≡ met names.old (class_name (held_value pool.now names.new value))) }
    ensures known { OnOk result (AreKnown pool.now names.new known.new) }
    ensures grows { Grows names.old names.new }
{
    match value {
        Value::Of(kind) => Ok(kind),
        Value::ClassAt(place) => {
            let number = class_number(alloc, pool, place, known, names)?;
            Ok(Kind::Object(number))
        }
    }
}

/// The kinds of values.
///
/// # Errors
///
/// `Memory` where memory was refused.
fn kinds_of(
    alloc: Global,
    pool: &Pool,
    values: &[Value],
    known: &mut HashMap<u16, u32>,
    names: &mut Names,
) -> Result<Vec<Kind>, Memory>
    requires { AreKnown pool.now names.old known.old }
    ensures kinds { (later : NameList) → Grows names.new later
        → IfOk result (λ list. map (verification_type later) list.items ≡ held_values pool.now later values.now) }
    ensures numbered { All (IsNumberedValue (length names.old)) values.now
        → IfOk result (λ list. All (IsNumbered (length names.new)) list.items) }
    ensures met { All (IsNumberedValue (length names.old)) values.now
        → OnOk result (names.new ≡ met names.old (class_names (held_values pool.now names.new values.now))) }
    ensures known { OnOk result (AreKnown pool.now names.new known.new) }
    ensures grows { Grows names.old names.new }
{
    let mut kinds = Vec::with_capacity(alloc, values.len())?;
    'numbering: for value in values {
        kinds.push(kind_of(alloc, pool, *value, known, names)?)?;
    }
    Ok(kinds)
}

/// Kinds in their local variables, and `Top` in the rest of so many.
///
/// # Errors
///
/// `Memory` where memory was refused.
fn locals_of(alloc: Global, kinds: &[Kind], max_locals: u32) -> Result<List<Kind>, Memory>
    ensures seen { (names : NameList)
        → IfOk result (λ locals. map (verification_type names) locals ≡ in_locals max_locals (map (verification_type names) kinds.now)) }
    ensures numbered { (count : ℕ) → All (IsNumbered count) kinds.now → IfOk result (λ locals. All (IsNumbered count) locals) }
{
    let mut locals = List::new(alloc);
    'spreading: for kind in kinds {
        locals.push(*kind)?;
        if is_wide(*kind) {
            locals.push(Kind::Top)?;
        }
    }
    put_tops(&mut locals, max_locals as usize)?;
    Ok(locals)
}

/// The frame, with the state there.
///
/// # Errors
///
/// `Memory` where memory was refused.
pub fn built_frame(
    alloc: Global,
    method: &Method<'_>,
    running: &Running,
    frame: &Frame,
    known: &mut HashMap<u16, u32>,
    names: &mut Names,
) -> Result<FrameAt, Memory>
    requires { AreKnown method.now.pool names.old known.old }
    ensures seen { (later : NameList) → Grows names.new later
        → IfOk result (λ built. type_state_at later built ≡ (found_as method.now later running.now frame.now).frame) }
    ensures numbered { All (IsNumberedValue (length names.old)) running.now.values.items → All IsUnnumbered frame.now.stack.items
        → IfOk result (λ built. IsNumberedState (length names.new) built.state) }
    ensures met { All (IsNumberedValue (length names.old)) running.now.values.items → All IsUnnumbered frame.now.stack.items
        → OnOk result (names.new ≡ met names.old (seen_names (found_as method.now names.new running.now frame.now).frame.state)) }
    ensures known { OnOk result (AreKnown method.now.pool names.new known.new) }
    ensures grows { Grows names.old names.new }
{
    let values = kinds_of(alloc, method.pool(), &running.values, known, names)?;
    let locals = locals_of(alloc, &values, method.max_locals())?;
    let stack = kinds_of(alloc, method.pool(), &frame.stack, known, names)?;
    Ok(FrameAt {
        at: frame.at,
        state: State {
            locals,
            stack: List::from_vec(stack),
        },
    })
}
