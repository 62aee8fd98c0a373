//! Loads and stores of local variables. No class is named, so the clauses hold under all names.
ghost use Rattle.std.specs.Prelude.{◌≡◌, ◌<◌, length, map, IfOk, option_map};
ghost use Rattle.jc_methods.specs.VerificationTypes.{Names, verification_type, type_state, is_pair as is_pair_held};
ghost use Rattle.jc_kinds_after.specs.Step.{cleared as cleared_held, clear_before as cleared_before, put_second as with_second};
ghost use Rattle.jc_kinds_after.specs.Step.{put_local as with_local, loaded, stored, counted};

use crate::Want;
use crate::form::Give;
use crate::moves::{is_within, move_state};
use crate::want::accepts;
use jc_bytes::{List, Memory};
use jc_methods::{Kind, State};
use std::alloc::Global;

/// Whether a value takes two slots.
fn is_pair(kind: Kind) -> bool
    ensures { (names : Names) → result ≡ is_pair_held (verification_type names kind) }
{
    matches!(kind, Kind::Long | Kind::Double)
}

/// The type of a local variable once the next one was written: half of a long or a double is no value.
fn cleared(kind: Kind) -> Kind
    ensures { (names : Names) → verification_type names result ≡ cleared_held (verification_type names kind) }
{
    match kind {
        Kind::Long | Kind::Double => Kind::Top,
        Kind::Top => Kind::Top,
        Kind::Int => Kind::Int,
        Kind::Float => Kind::Float,
        Kind::Null => Kind::Null,
        Kind::UninitThis => Kind::UninitThis,
        Kind::Object(number) => Kind::Object(number),
        Kind::Uninit(at) => Kind::Uninit(at),
    }
}

/// Clears a long or a double that began one local variable before.
fn clear_before(locals: &mut Vec<Kind>, slot: usize)
    requires { slot < length locals.old.items }
    ensures locals { (names : Names) → map (verification_type names) locals.new.items ≡ cleared_before slot (map (verification_type names) locals.old.items) }
    ensures count { length locals.new.items ≡ length locals.old.items }
{
    if slot == 0 {
        return;
    }
    let before = cleared(locals[slot - 1]);
    locals[slot - 1] = before;
}

/// Writes the second local variable of a long or a double.
fn put_second(locals: &mut Vec<Kind>, slot: usize, kind: Kind)
    requires { slot < length locals.old.items }
    ensures { (names : Names) → map (verification_type names) locals.new.items ≡ with_second (verification_type names kind) slot (map (verification_type names) locals.old.items) }
{
    if !is_pair(kind) {
        return;
    }
    let second = slot + 1;
    if second >= locals.len() {
        return;
    }
    locals[second] = Kind::Top;
}

/// The local variables after a value was stored in one.
fn put_local(locals: List<Kind>, slot: usize, kind: Kind) -> List<Kind>
    requires { slot < length locals }
    ensures { (names : Names) → map (verification_type names) result ≡ with_local slot (verification_type names kind) (map (verification_type names) locals) }
{
    let mut after = locals.into_vec();
    clear_before(&mut after, slot);
    after[slot] = kind;
    put_second(&mut after, slot, kind);
    List::from_vec(after)
}

/// The state with a local variable pushed.
pub fn load(
    alloc: Global,
    state: State,
    slot: u16,
    want: Want,
    most: u16,
) -> Result<Option<State>, Memory>
    requires { slot < length state.locals }
    ensures { IfOk result (λ o. (names : Names) → option_map (type_state names) o ≡ loaded most slot want (type_state names state)) }
{
    let kind = state.locals[slot as usize];
    if !accepts(want, kind) {
        return Ok(None);
    }
    Ok(move_state(alloc, state, &[], &[Give::Kind(kind)], most)?)
}

/// The state with the value on top stored in a local variable.
pub fn store(state: State, slot: u16, want: Want, most: u16) -> Option<State>
    requires { slot < length state.locals }
    ensures { (names : Names) → option_map (type_state names) result ≡ stored most slot want (type_state names state) }
{
    let stack = state.stack.as_slice();
    if stack.is_empty() {
        return None;
    }
    let base = stack.len() - 1;
    let kind = stack[base];
    if !accepts(want, kind) {
        return None;
    }
    if !is_within(&stack[..base], most) {
        return None;
    }
    let State { locals, stack } = state;
    let mut below = stack.into_vec();
    below.truncate(base);
    Some(State {
        locals: put_local(locals, slot as usize, kind),
        stack: List::from_vec(below),
    })
}

/// The state after a local variable was added to.
pub fn count(state: State, slot: u16, most: u16) -> Option<State>
    requires { slot < length state.locals }
    ensures { (names : Names) → option_map (type_state names) result ≡ counted most slot (type_state names state) }
{
    if !accepts(Want::Int, state.locals[slot as usize]) {
        return None;
    }
    if !is_within(&state.stack, most) {
        return None;
    }
    Some(state)
}
