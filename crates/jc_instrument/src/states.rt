//! The states of a body, where there is room to keep them.
ghost use Rattle.std.specs.Prelude.{◌≡◌, ◌+◌, ◌≤◌, length, IfOk, IfErr, IfSome, OnErr};
ghost use Rattle.jc_methods.specs.VerificationTypes.{Grows, AreNumberedFrames};
ghost use Rattle.jc_methods.specs.WellMade.{IsWellMade};
ghost use Rattle.jc_bytes.specs.Failing.{Said};
ghost use Rattle.jc_kinds.specs.Answers.{AreStates, IsKindRefusal};
ghost use Rattle.jc_kinds.specs.Checked.{Checked};
ghost use Rattle.jc_instrument.specs.KeptStates.{places_of, places_if_kept};

use jc_bytes::{Fail, List, Names, Refusal};
use jc_kinds::{check_body, states};
use jc_methods::{Body, State, Use, What};
use std::alloc::Global;

/// How many places a state takes beside those of its types.
const STATE_PLACES: usize = 6;

/// How many bytes the texts have of what stands at a place of the pool.
fn text_bytes(what: &What) -> usize {
    match what {
        What::Field { class, name, desc } => class
            .len()
            .saturating_add(name.len())
            .saturating_add(desc.len()),
        What::Method { class, name, desc } => class
            .len()
            .saturating_add(name.len())
            .saturating_add(desc.len()),
        What::Call { name, desc } => name.len().saturating_add(desc.len()),
        What::Class(name) => name.len(),
        What::Computed { name, desc, .. } => name.len().saturating_add(desc.len()),
        _ => 0,
    }
}

/// How many bytes the texts have of what is used.
fn used_bytes(uses: &[Use]) -> usize {
    let mut bytes = 0usize;
    'adding: for one in uses {
        bytes = bytes.saturating_add(text_bytes(&one.what));
    }
    bytes
}

/// How many bytes the texts of a body have.
fn body_bytes(body: &Body) -> usize {
    used_bytes(&body.uses)
        .saturating_add(body.owner.len())
        .saturating_add(body.name.len())
        .saturating_add(body.desc.len())
}

/// How much room is left beside a body with its states, if they fit: for each instruction a state, with a type for each
/// local variable and for each slot of the stack, and a place for each byte of the body's texts.
fn room_beside(body: &Body, room: usize) -> Option<usize>
    ensures { IfSome result (λ left. places_of body.now + left ≤ room) }
{
    let types = usize::from(body.max_locals) + usize::from(body.max_stack);
    let places = body.code.len().checked_mul(types + STATE_PLACES)?;
    room.checked_sub(places.checked_add(body_bytes(body))?)
}

/// The states of a body that passes the kind check, if there is room for them. Then there is less room.
pub fn checked_states(
    alloc: Global,
    body: &Body,
    room: &mut usize,
    names: &mut Names,
) -> Result<Option<List<State>>, Fail<Refusal>>
    requires made { IsWellMade body.now }
    requires frames { AreNumberedFrames (length names.old) body.now.frames }
    ensures passes { IfOk result (λ _. Checked names.new body.now) }
    ensures states { IfOk result (λ kept. IfSome kept (AreStates names.new body.now)) }
    ensures room { IfOk result (λ kept. places_if_kept body.now kept + room.new ≤ room.old) }
    ensures refused { IfErr result (λ e. Said e (IsKindRefusal names.new body.now)) }
    ensures stays { OnErr result (room.new ≡ room.old) }
    ensures grows { Grows names.old names.new }
{
    match room_beside(body, *room) {
        Some(left) => {
            let found = states(alloc, body, names)?;
            *room = left;
            Ok(Some(List::from_vec(found)))
        }
        None => {
            check_body(alloc, body, names)?;
            Ok(None)
        }
    }
}
