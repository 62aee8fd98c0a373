//! The states before the instructions of a method, one after the other, up to the first whose references don't suit.
ghost use Rattle.std.specs.Prelude.{◌≡◌, ◌<◌, ◌++◌, length, IfOk, OnOk};
ghost use Rattle.jc_methods.specs.VerificationTypes.{Grows, AreNumberedFrames};
ghost use Rattle.jc_methods.specs.WellMade.{IsWellMade};
ghost use Rattle.jc_kinds.specs.StateSequence.{listed, kept_of, IsKeptEntry};
ghost use Rattle.jc_kinds_after.specs.Effects.{AreEffects, body_of};
ghost use Rattle.jc_refs_check.specs.Classes.{AreKnown};
ghost use Rattle.jc_refs_check.specs.KindNeeds.{IsCheckedMethod};
ghost use Rattle.jc_refs_check.specs.SuitedWalk.{IsWholeState, Leaves, SuitedSteps, IsSuitedWalk};

use crate::classes::Classes;
use crate::flow::{state_at, suits_branches, suits_frame};
use crate::operands::CheckedMethod;
use jc_bytes::{Memory, TryClone};
use jc_kinds_after::Effects;
use jc_methods::{Body, State};
use std::alloc::Global;

/// What a walk over a method found.
#[derive(Drop)]
pub struct Walked {
    /// The first instruction at which operands don't suit, or from which control goes on with a reference that doesn't, or the number
    /// of instructions.
    pub count: usize,
    /// The states before the instructions in front of it, where they are kept.
    pub states: Vec<State>,
}

/// The state after an instruction, if there is one.
fn leave(
    alloc: Global,
    effects: &mut Effects<'_>,
    state: State,
    at: u32,
    classes: &mut Classes,
) -> Result<Option<State>, Memory>
    requires known { AreKnown classes.old }
    requires effects { AreEffects classes.old.names effects.old }
    requires place { at < length (body_of effects.old).code }
    requires state { IsWholeState (length classes.old.names) (body_of effects.old) state }
    ensures left { IfOk result (Leaves classes.old.names classes.new.names (body_of effects.old) at state) }
    ensures known { OnOk result (AreKnown classes.new) }
    ensures names { OnOk result (Grows classes.old.names classes.new.names) }
    ensures effects { OnOk result (AreEffects classes.new.names effects.new) }
    ensures body { OnOk result (body_of effects.new ≡ body_of effects.old) }
{
    let left = effects.advance(alloc, state, at, &mut classes.names)?;
    classes.learn()?;
    Ok(left)
}

/// The state before the next instruction, made of that before this one, or none where its references don't suit where a branch leads.
fn step(
    alloc: Global,
    effects: &mut Effects<'_>,
    body: &Body,
    state: State,
    at: u32,
    classes: &mut Classes,
) -> Result<Option<State>, Memory>
    requires made { IsWellMade body.now }
    requires frames { AreNumberedFrames (length classes.old.names) body.now.frames }
    requires known { AreKnown classes.old }
    requires effects { AreEffects classes.old.names effects.old }
    requires body { body_of effects.old ≡ body.now }
    requires place { at < length body.now.code }
    requires state { IsWholeState (length classes.old.names) body.now state }
    ensures steps { IfOk result (SuitedSteps classes.old.names classes.new.names body.now at state) }
    ensures known { OnOk result (AreKnown classes.new) }
    ensures names { OnOk result (Grows classes.old.names classes.new.names) }
    ensures effects { OnOk result (AreEffects classes.new.names effects.new) }
    ensures body { OnOk result (body_of effects.new ≡ body.now) }
{
    let Some(left) = leave(alloc, effects, state, at, classes)? else {
        return Ok(None);
    };
    let insn = &body.code[at as usize];
    if !suits_branches(alloc, classes, body, insn, at, &left)? {
        return Ok(None);
    }
    Ok(Some(state_at(alloc, body, at + 1, left)?))
}

/// A copy of a state, where it is to be kept.
fn kept(alloc: Global, keeps: bool, state: &State) -> Result<Option<State>, Memory>
    ensures { IfOk result (λ copy. listed copy ≡ kept_of keeps state.now) }
{
    if keeps {
        Ok(Some(state.try_clone(alloc)?))
    } else {
        Ok(None)
    }
}

/// Puts a state that is kept last.
fn put(states: &mut Vec<State>, kept: Option<State>) -> Result<(), Memory>
    ensures { OnOk result (states.new.items ≡ states.old.items ++ listed kept) }
{
    match kept {
        Some(state) => {
            states.push(state)?;
            Ok(())
        }
        None => Ok(()),
    }
}

/// Walks over the states before the instructions, up to the first one whose operands don't suit or from which control goes on with
/// references that don't. Where states aren't kept, there is one at a time.
///
/// # Errors
///
/// `Memory` where memory was refused, or where there are 4,294,967,295 names.
pub fn walk(
    alloc: Global,
    effects: &mut Effects<'_>,
    checked: &CheckedMethod<'_>,
    entry: State,
    keeps: bool,
    classes: &mut Classes,
) -> Result<Walked, Memory>
    requires method { IsCheckedMethod classes.old.names checked.now }
    requires known { AreKnown classes.old }
    requires effects { AreEffects classes.old.names effects.old }
    requires body { body_of effects.old ≡ checked.now.body.now }
    requires entry { IsKeptEntry classes.old.names checked.now.body.now entry }
    ensures walk { IfOk result (λ walked. IsSuitedWalk checked.now.program.now checked.now.method checked.now.body.now
        classes.new.names keeps walked.count walked.states.items) }
    ensures known { OnOk result (AreKnown classes.new) }
    ensures names { OnOk result (Grows classes.old.names classes.new.names) }
{
    let body = checked.body;
    let count = body.code.len();
    let mut states = Vec::new(alloc);
    if !suits_frame(classes, body, &entry, 0) {
        return Ok(Walked { count: 0, states });
    }
    let mut state = state_at(alloc, body, 0, entry)?;
    'walking: for at in 0..count {
        if !checked.operands_suit(classes, at as u32, &state) {
            return Ok(Walked { count: at, states });
        }
        let copy = kept(alloc, keeps, &state)?;
        state = match step(alloc, effects, body, state, at as u32, classes)? {
            Some(next) => next,
            None => return Ok(Walked { count: at, states }),
        };
        put(&mut states, copy)?;
    }
    Ok(Walked { count, states })
}
