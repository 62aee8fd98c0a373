//! The states before the instructions, one after the other (JVM Specification 4.10.1.6).
ghost use Rattle.std.specs.Prelude.{◌≡◌, ◌<◌, ◌++◌, [], true, length, IfOk, OnOk, Some, unwrap_or, if◌then◌else◌};
ghost use Rattle.std.specs.List.{list_all};
ghost use Rattle.jc_methods.specs.Flow.{targets_of, falls_through};
ghost use Rattle.jc_methods.specs.VerificationTypes.{Grows, IsNumberedState, AreNumberedFrames};
ghost use Rattle.jc_bytes.specs.Least.{IsNowhere};
ghost use Rattle.jc_methods.specs.WellMade.{IsWellMade, IsState};
ghost use Rattle.jc_kinds_after.specs.Effects.{AreEffects, body_of};
ghost use Rattle.jc_kinds.specs.Checked.{IsMissing};
ghost use Rattle.jc_kinds.specs.Checking.{branches};
ghost use Rattle.jc_kinds.specs.Frames.{frame_in, IsNumbered};
ghost use Rattle.jc_kinds.specs.StateSequence.{fits_frame, Begins, Steps, IsKeptEntry, listed, kept_of, IsWalk};

use crate::fits::fits_state;
use crate::frames::{Framed, frame_at};
use jc_bytes::{Memory, Names, TryClone};
use jc_kinds_after::Effects;
use jc_methods::{Insn, State};
use std::alloc::Global;

/// Whether a state fits the frame at an instruction, if one stands there.
fn fits_frame(framed: &Framed<'_>, state: &State, at: u32) -> bool
    requires { IsNumbered framed.now }
    ensures { result ≡ fits_frame framed.now.body.now.frames state.now at }
{
    match frame_at(framed, at) {
        Some(frame) => fits_state(state, frame),
        None => true,
    }
}

/// Whether a state fits the frames at some instructions.
fn fits_frames(framed: &Framed<'_>, state: &State, places: &[u32]) -> bool
    requires { IsNumbered framed.now }
    ensures { result ≡ list_all (fits_frame framed.now.body.now.frames state.now) places.now }
{
    'aiming: for place in places {
        if !fits_frame(framed, state, *place) {
            return false;
        }
    }
    true
}

/// Whether the state after an instruction fits the frame at the next one, where that may follow.
fn fits_next(framed: &Framed<'_>, insn: &Insn, next: u32, state: &State) -> bool
    requires { IsNumbered framed.now }
    ensures { result ≡ (if falls_through insn.now then fits_frame framed.now.body.now.frames state.now next else true) }
{
    if insn.falls_through() {
        fits_frame(framed, state, next)
    } else {
        true
    }
}

/// Whether a state fits the frames where an instruction may jump.
fn fits_targets(
    alloc: Global,
    framed: &Framed<'_>,
    insn: &Insn,
    state: &State,
) -> Result<bool, Memory>
    requires { IsNumbered framed.now }
    ensures { IfOk result (λ fits. fits ≡ list_all (fits_frame framed.now.body.now.frames state.now) (targets_of insn.now)) }
{
    match insn {
        Insn::Jump { to, .. } => Ok(fits_frame(framed, state, *to)),
        Insn::Table { .. } | Insn::Lookup { .. } => {
            let places = insn.distinct_targets(alloc)?;
            Ok(fits_frames(framed, state, &places))
        }
        _ => Ok(true),
    }
}

/// Whether the state after an instruction fits the frames where its branches lead.
fn fits_branches(
    alloc: Global,
    framed: &Framed<'_>,
    insn: &Insn,
    at: u32,
    state: &State,
) -> Result<bool, Memory>
    requires place { at < 65535 }
    requires numbers { IsNumbered framed.now }
    ensures { IfOk result (λ fits. fits ≡ list_all (fits_frame framed.now.body.now.frames state.now) (branches (Some insn.now) at)) }
{
    if !fits_next(framed, insn, at + 1, state) {
        return Ok(false);
    }
    Ok(fits_targets(alloc, framed, insn, state)?)
}

/// The state before the first instruction, where that in which the method begins fits it.
fn begin(alloc: Global, framed: &Framed<'_>, entry: State) -> Result<Option<State>, Memory>
    requires { IsNumbered framed.now }
    ensures { IfOk result (Begins framed.now.body.now.frames entry) }
{
    match frame_at(framed, 0) {
        Some(frame) => {
            if !fits_state(&entry, frame) {
                return Ok(None);
            }
            Ok(Some(frame.try_clone(alloc)?))
        }
        None => Ok(Some(entry)),
    }
}

/// The state before the next instruction: its frame, or what falls into it.
fn next_state(alloc: Global, framed: &Framed<'_>, next: u32, left: State) -> Result<State, Memory>
    requires { IsNumbered framed.now }
    ensures { IfOk result (λ state. state ≡ unwrap_or (frame_in framed.now.body.now.frames next) left) }
{
    match frame_at(framed, next) {
        Some(frame) => frame.try_clone(alloc),
        None => Ok(left),
    }
}

/// The state before the instruction behind this one, made of that before it, or none where this one has no state after
/// it or where that state doesn't fit.
fn step(
    alloc: Global,
    effects: &mut Effects<'_>,
    framed: &Framed<'_>,
    state: State,
    at: u32,
    names: &mut Names,
) -> Result<Option<State>, Memory>
    requires effects { AreEffects names.old effects.old }
    requires body { body_of effects.old ≡ framed.now.body.now }
    requires made { IsWellMade framed.now.body.now }
    requires numbers { IsNumbered framed.now }
    requires place { at < length framed.now.body.now.code }
    requires state { IsState framed.now.body.now.code framed.now.body.now.max_locals framed.now.body.now.max_stack state }
    requires numbered { IsNumberedState (length names.old) state }
    requires frames { AreNumberedFrames (length names.old) framed.now.body.now.frames }
    ensures steps { IfOk result (Steps names.old names.new framed.now.body.now at state) }
    ensures names { Grows names.old names.new }
    ensures effects { AreEffects names.new effects.new }
    ensures body { body_of effects.new ≡ framed.now.body.now }
{
    let Some(left) = effects.advance(alloc, state, at, names)? else {
        return Ok(None);
    };
    let insn = &framed.body.code[at as usize];
    if !fits_branches(alloc, framed, insn, at, &left)? {
        return Ok(None);
    }
    Ok(Some(next_state(alloc, framed, at + 1, left)?))
}

/// A copy of a state, where it is to be kept.
fn kept(alloc: Global, keeps: bool, state: &State) -> Result<Option<State>, Memory>
    ensures { IfOk result (λ copy. listed copy ≡ kept_of keeps state.now) }
{
    if keeps {
        Ok(Some(state.try_clone(alloc)?))
    } else {
        Ok(None)
    }
}

/// Puts a state that is kept last.
fn put(states: &mut Vec<State>, kept: Option<State>) -> Result<(), Memory>
    ensures { OnOk result (states.new.items ≡ states.old.items ++ listed kept) }
{
    match kept {
        Some(state) => {
            states.push(state)?;
            Ok(())
        }
        None => Ok(()),
    }
}

/// No states yet, with room for so many where they are kept.
fn room_for(alloc: Global, keeps: bool, count: usize) -> Result<Vec<State>, Memory>
    ensures { IfOk result (λ states. states.items ≡ []) }
{
    if keeps {
        Ok(Vec::with_capacity(alloc, count)?)
    } else {
        Ok(Vec::new(alloc))
    }
}

/// What a walk over a body found.
#[derive(Drop)]
pub struct Walked {
    /// The first instruction from which control goes on with a state that isn't there or that doesn't fit, or the
    /// number of instructions.
    pub count: usize,
    /// The states before the instructions in front of it, where they are kept.
    pub states: Vec<State>,
}

/// Walks over the states before the instructions, up to the first one from which control goes on with a state that
/// isn't there or that doesn't fit. Where states aren't kept, there is one at a time.
///
/// # Errors
///
/// `Memory` where memory was refused, or where `names` is full.
pub fn walk(
    alloc: Global,
    effects: &mut Effects<'_>,
    framed: &Framed<'_>,
    entry: State,
    keeps: bool,
    names: &mut Names,
) -> Result<Walked, Memory>
    requires effects { AreEffects names.old effects.old }
    requires body { body_of effects.old ≡ framed.now.body.now }
    requires made { IsWellMade framed.now.body.now }
    requires numbers { IsNumbered framed.now }
    requires entry { IsKeptEntry names.old framed.now.body.now entry }
    requires frames { AreNumberedFrames (length names.old) framed.now.body.now.frames }
    requires missing { IsNowhere (IsMissing framed.now.body.now) }
    ensures walk { IfOk result (λ walked. IsWalk names.old names.new framed.now.body.now keeps walked.count walked.states.items) }
    ensures names { Grows names.old names.new }
{
    let count = framed.body.code.len();
    let mut states = room_for(alloc, keeps, count)?;
    let mut state = match begin(alloc, framed, entry)? {
        Some(first) => first,
        None => return Ok(Walked { count: 0, states }),
    };
    'walking: for at in 0..count {
        let copy = kept(alloc, keeps, &state)?;
        state = match step(alloc, effects, framed, state, at as u32, names)? {
            Some(next) => next,
            None => return Ok(Walked { count: at, states }),
        };
        put(&mut states, copy)?;
    }
    Ok(Walked { count, states })
}
