//! New objects and their constructors.
ghost use Rattle.std.specs.Prelude.{◌≡◌, ◌++◌, ℕ, List as Seq, map, IfOk, option_map};
ghost use Rattle.std.specs.List.{list_any};
ghost use Rattle.jc_methods.specs.VerificationTypes.{Names, verification_type, object, type_state};
ghost use Rattle.jc_kinds_after.specs.Objects.{is_made_by as is_made_kind, left_by as left_kind};
ghost use Rattle.jc_kinds_after.specs.Objects.{is_one_object as is_one_kind, built_in as built_kind};
ghost use Rattle.jc_kinds_after.specs.Shapes.{built_by_name};
ghost use Rattle.jc_kinds_after.specs.Step.{made_at};

use crate::form::Give;
use crate::moves::move_stack;
use jc_bytes::{List, Memory};
use jc_methods::{Kind, State};
use std::alloc::{AllocError, Global};

/// Whether a `new` made the object.
fn is_made_by(place: u32, kind: Kind) -> bool
    ensures { result ≡ is_made_kind place kind }
{
    match kind {
        Kind::Uninit(at) => place == at,
        _ => false,
    }
}

/// What is left of a type when a `new` makes another object.
fn left_by(place: u32, kind: Kind) -> Kind
    ensures { result ≡ left_kind place kind }
{
    if is_made_by(place, kind) {
        Kind::Top
    } else {
        kind
    }
}

/// What is left of the types when a `new` makes another object.
fn all_left_by(alloc: Global, place: u32, kinds: &[Kind]) -> Result<Vec<Kind>, AllocError>
    ensures { IfOk result (λ left. left.items ≡ map (left_kind place) kinds.now) }
{
    kinds
        .iter()
        .map(|kind| left_by(place, *kind))
        .collect(alloc)
}

/// Whether a `new` made one of the objects.
fn has_made(place: u32, kinds: &[Kind]) -> bool
    ensures { result ≡ list_any (is_made_kind place) kinds.now }
{
    kinds.iter().any(|kind| is_made_by(place, *kind))
}

/// The state after the `new` at a place.
pub fn make(alloc: Global, state: State, place: u32, most: u16) -> Result<Option<State>, Memory>
    ensures { IfOk result (λ o. (names : Names) → option_map (type_state names) o ≡ made_at most place (type_state names state)) }
{
    let State { locals, stack } = state;
    if has_made(place, &stack) {
        return Ok(None);
    }
    let made = [Give::Kind(Kind::Uninit(place))];
    match move_stack(alloc, stack, &[], &made, most)? {
        Some(stack) => Ok(Some(State {
            locals: List::from_vec(all_left_by(alloc, place, &locals)?),
            stack,
        })),
        None => Ok(None),
    }
}

/// Whether both are the type of one object before its constructor.
fn is_one_object(old: Kind, kind: Kind) -> bool
    ensures { result ≡ is_one_kind old kind }
{
    match old {
        Kind::Uninit(at) => is_made_by(at, kind),
        Kind::UninitThis => matches!(kind, Kind::UninitThis),
        _ => false,
    }
}

/// What a constructor makes of the type of its object.
#[derive(Clone, Copy)]
pub struct Built {
    /// The type before the constructor is called.
    pub old: Kind,
    /// The type from then on.
    pub class: Kind,
}

/// What is left of a type when the constructor of an object was called.
fn built_in(built: Built, kind: Kind) -> Kind
    ensures { result ≡ built_kind built.old built.class kind }
{
    if is_one_object(built.old, kind) {
        built.class
    } else {
        kind
    }
}

/// What is left of the types when the constructor of an object was called.
fn all_built_in(alloc: Global, built: Built, kinds: &[Kind]) -> Result<Vec<Kind>, AllocError>
    ensures { IfOk result (λ left. left.items ≡ map (built_kind built.old built.class) kinds.now) }
{
    kinds
        .iter()
        .map(|kind| built_in(built, *kind))
        .collect(alloc)
}

/// The state after the constructor of an object was called: the object is of its class from then on.
pub fn build_as(
    alloc: Global,
    state: &State,
    built: Built,
    rest: &[Kind],
    gives: &[Give],
    most: u16,
) -> Result<Option<State>, Memory>
    ensures { IfOk result (λ o. (names : Names) (name : Seq ℕ) → verification_type names built.class ≡ object name
        → option_map (type_state names) o ≡ built_by_name names most built.old rest.now gives.now name state.now) }
{
    let rest = all_built_in(alloc, built, rest)?;
    match move_stack(alloc, List::from_vec(rest), &[], gives, most)? {
        Some(stack) => Ok(Some(State {
            locals: List::from_vec(all_built_in(alloc, built, &state.locals)?),
            stack,
        })),
        None => Ok(None),
    }
}
