//! Whether references suit where control goes on (JVM Specification 4.10.1.4, 4.10.1.6).
ghost use Rattle.std.specs.Prelude.{◌≡◌, ◌<◌, true, length, IfOk, Some, unwrap_or, if◌then◌else◌};
ghost use Rattle.std.specs.List.{list_all};
ghost use Rattle.jc_methods.specs.Flow.{targets_of, falls_through};
ghost use Rattle.jc_methods.specs.VerificationTypes.{IsNumberedState, AreNumberedFrames};
ghost use Rattle.jc_methods.specs.WellMade.{IsWellMade};
ghost use Rattle.jc_kinds.specs.Checking.{branches};
ghost use Rattle.jc_kinds.specs.Frames.{frame_in};
ghost use Rattle.jc_refs_check.specs.Classes.{AreKnown};
ghost use Rattle.jc_refs_check.specs.SuitedFlow.{suits_frame};

use crate::classes::Classes;
use crate::frames::frame_at;
use crate::suits::suits_state;
use jc_bytes::{Memory, TryClone};
use jc_methods::{Body, Insn, State};
use std::alloc::Global;

/// Whether the references of a state suit the frame at an instruction, if one stands there.
pub fn suits_frame(classes: &Classes, body: &Body, state: &State, at: u32) -> bool
    requires made { IsWellMade body.now }
    requires known { AreKnown classes.now }
    requires state { IsNumberedState (length classes.now.names) state.now }
    requires frames { AreNumberedFrames (length classes.now.names) body.now.frames }
    ensures { result ≡ suits_frame classes.now.names body.now.frames state.now at }
{
    match frame_at(body, at) {
        Some(frame) => suits_state(classes, state, frame),
        None => true,
    }
}

/// Whether the references of a state suit the frames at some instructions.
fn suits_frames(classes: &Classes, body: &Body, state: &State, places: &[u32]) -> bool
    requires made { IsWellMade body.now }
    requires known { AreKnown classes.now }
    requires state { IsNumberedState (length classes.now.names) state.now }
    requires frames { AreNumberedFrames (length classes.now.names) body.now.frames }
    ensures { result ≡ list_all (suits_frame classes.now.names body.now.frames state.now) places.now }
{
    'aiming: for place in places {
        if !suits_frame(classes, body, state, *place) {
            return false;
        }
    }
    true
}

/// Whether the references of the state after an instruction suit the frame at the next one, where that may follow.
fn suits_next(classes: &Classes, body: &Body, insn: &Insn, next: u32, state: &State) -> bool
    requires made { IsWellMade body.now }
    requires known { AreKnown classes.now }
    requires state { IsNumberedState (length classes.now.names) state.now }
    requires frames { AreNumberedFrames (length classes.now.names) body.now.frames }
    ensures { result ≡ (if falls_through insn.now then suits_frame classes.now.names body.now.frames state.now next else true) }
{
    if insn.falls_through() {
        suits_frame(classes, body, state, next)
    } else {
        true
    }
}

/// Whether the references of a state suit the frames where an instruction may jump.
fn suits_targets(
    alloc: Global,
    classes: &Classes,
    body: &Body,
    insn: &Insn,
    state: &State,
) -> Result<bool, Memory>
    requires made { IsWellMade body.now }
    requires known { AreKnown classes.now }
    requires state { IsNumberedState (length classes.now.names) state.now }
    requires frames { AreNumberedFrames (length classes.now.names) body.now.frames }
    ensures { IfOk result (λ suits. suits ≡ list_all (suits_frame classes.now.names body.now.frames state.now) (targets_of insn.now)) }
{
    match insn {
        Insn::Jump { to, .. } => Ok(suits_frame(classes, body, state, *to)),
        Insn::Table { .. } | Insn::Lookup { .. } => {
            let places = insn.distinct_targets(alloc)?;
            Ok(suits_frames(classes, body, state, &places))
        }
        _ => Ok(true),
    }
}

/// Whether the references of the state after an instruction suit the frames where its branches lead.
///
/// # Errors
///
/// `Memory` where memory was refused.
pub fn suits_branches(
    alloc: Global,
    classes: &Classes,
    body: &Body,
    insn: &Insn,
    at: u32,
    state: &State,
) -> Result<bool, Memory>
    requires place { at < 65535 }
    requires made { IsWellMade body.now }
    requires known { AreKnown classes.now }
    requires state { IsNumberedState (length classes.now.names) state.now }
    requires frames { AreNumberedFrames (length classes.now.names) body.now.frames }
    ensures { IfOk result (λ suits. suits ≡ list_all (suits_frame classes.now.names body.now.frames state.now) (branches (Some insn.now) at)) }
{
    if !suits_next(classes, body, insn, at + 1, state) {
        return Ok(false);
    }
    Ok(suits_targets(alloc, classes, body, insn, state)?)
}

/// The state before an instruction: its frame, or what falls into it.
///
/// # Errors
///
/// `Memory` where memory was refused.
pub fn state_at(alloc: Global, body: &Body, at: u32, state: State) -> Result<State, Memory>
    requires { IsWellMade body.now }
    ensures { IfOk result (λ before. before ≡ unwrap_or (frame_in body.now.frames at) state) }
{
    match frame_at(body, at) {
        Some(frame) => frame.try_clone(alloc),
        None => Ok(state),
    }
}
