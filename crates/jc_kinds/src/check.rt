//! The kind check of a body.
ghost use Rattle.std.specs.Prelude.{◌≡◌, ◌≢◌, ◌⊎◌, ⊤, ℕ, [], true, Some, length, IfOk, IfErr, MatchResult};
ghost use Rattle.jc_methods.specs.VerificationTypes.{Grows, AreNumberedFrames};
ghost use Rattle.jc_methods.specs.WellMade.{IsWellMade};
ghost use Rattle.jc_bytes.specs.Least.{IsNowhere};
ghost use Rattle.jc_kinds.specs.Checked.{Checked, IsMissing, FirstMissing, FirstClash};
ghost use Rattle.jc_kinds.specs.Frames.{IsNumbered};
ghost use Rattle.jc_kinds.specs.StateSequence.{IsWalkFrom, IsKeptEntry};
ghost use Rattle.jc_kinds.specs.Answers.{AreStates, IsKindRefusal, IsAnswer, refusal_of, lacks_frame, has_clash};
ghost use Rattle.jc_bytes.specs.Failing.{Said};

use crate::frames::{Framed, frame_numbers};
use crate::guarded::first_unguarded;
use crate::missing::first_missing;
use crate::walk::{Walked, walk};
use jc_bytes::{Fail, Memory, Names, Refusal, RefusalKind};
use jc_kinds_after::Effects;
use jc_methods::{Body, State, entry_state};
use std::alloc::Global;

/// The state in which the method begins. The arguments of a well made body fit, so that only memory may be
/// wanting.
fn entry_of(alloc: Global, body: &Body, names: &mut Names) -> Result<State, Memory>
    requires { IsWellMade body.now }
    ensures state { IfOk result (λ state. IsKeptEntry names.new body.now state) }
    ensures names { Grows names.old names.new }
{
    match entry_state(
        alloc,
        &body.owner,
        &body.name,
        &body.desc,
        body.flags,
        body.max_locals,
        names,
    ) {
        Ok(state) => Ok(state),
        Err(_) => Err(Memory),
    }
}

/// The walk up to the first instruction from which control goes on with no state that fits.
fn walk_body(
    alloc: Global,
    framed: &Framed<'_>,
    keeps: bool,
    names: &mut Names,
) -> Result<Walked, Memory>
    requires body { IsWellMade framed.now.body.now }
    requires frames { AreNumberedFrames (length names.old) framed.now.body.now.frames }
    requires numbers { IsNumbered framed.now }
    requires missing { IsNowhere (IsMissing framed.now.body.now) }
    ensures walk { IfOk result (λ walked. IsWalkFrom names.old names.new framed.now.body.now keeps walked.count walked.states.items) }
    ensures names { Grows names.old names.new }
{
    let entry = entry_of(alloc, framed.body, names)?;
    let mut effects = Effects::of(alloc, framed.body, names)?;
    walk(alloc, &mut effects, framed, entry, keeps, names)
}

/// Whether states are kept: where they are wanted, and where handlers are compared with them.
fn keeps_states(body: &Body, wanted: bool) -> bool
    ensures wanted { wanted ≡ true → result ≡ true }
    ensures rows { body.now.handlers ≢ [] → result ≡ true }
{
    wanted || !body.handlers.is_empty()
}

/// The states where they are wanted, or why the body doesn't pass.
fn answer(
    alloc: Global,
    body: &Body,
    wanted: bool,
    names: &mut Names,
) -> Result<Vec<State>, Fail<Refusal>>
    requires body { IsWellMade body.now }
    requires frames { AreNumberedFrames (length names.old) body.now.frames }
    ensures answer { IsAnswer names.new body.now (λ states. wanted ≡ true → AreStates names.new body.now states.items) result }
    ensures names { Grows names.old names.new }
{
    let numbers = frame_numbers(alloc, &body.frames, body.code.len())?;
    let framed = Framed {
        body,
        numbers: &numbers,
    };
    if let Some(place) = first_missing(alloc, &framed)? {
        return Err(refused(body, RefusalKind::FrameMissing, place));
    }
    let walked = walk_body(alloc, &framed, keeps_states(body, wanted), names)?;
    let place = first_unguarded(alloc, &walked.states, &framed, walked.count)?;
    if place < body.code.len() {
        return Err(refused(body, RefusalKind::FrameClash, place as u32));
    }
    Ok(walked.states)
}

/// A refusal of the method.
fn refused(body: &Body, kind: RefusalKind, place: u32) -> Fail<Refusal>
    ensures { result ≡ Fail.Said (refusal_of body.now kind place) }
{
    Fail::Said(Refusal {
        kind,
        method: Some(body.method),
        place,
    })
}

/// The state before each instruction of a body (JVM Specification 4.10.1.6): the types of its local variables and
/// of the operand stack. Classes aren't compared: an object fits any class.
///
/// # Errors
///
/// `Memory` where memory was refused, or where a class is new and the list has 4,294,967,295 names. Then, and
/// after a refusal, `names` may have more names.
///
/// `Said`, of the body's method, the first of these that applies, at the least instruction:
/// - `FrameMissing` where the target of a jump, of a switch or of an exception row has no frame, or an instruction
///   other than the first into which control can't fall;
/// - `FrameClash` where the first instruction has a frame that the state in which the method begins doesn't fit,
///   where an instruction has no state after it, where that state doesn't fit where a branch leads, or where the
///   local variables before an instruction, with what is caught, don't fit a handler that guards it.
pub fn states(alloc: Global, body: &Body, names: &mut Names) -> Result<Vec<State>, Fail<Refusal>>
    requires body { IsWellMade body.now }
    requires frames { AreNumberedFrames (length names.old) body.now.frames }
    // What is answered is so.
    ensures states { IfOk result (λ states. Checked names.new body.now × AreStates names.new body.now states.items) }
    ensures refused { IfErr result (λ e. Said e (IsKindRefusal names.new body.now)) }
    // What is so is answered, unless memory runs out.
    ensures checked { Checked names.new body.now → MatchResult result (λ _. ⊤) (λ e. e ≡ Fail.Memory) }
    ensures missing { (i : ℕ) → FirstMissing body.now i
        → MatchResult result (λ _. ⊥) (λ e. (e ≡ Fail.Memory) ⊎ (e ≡ Fail.Said (lacks_frame body.now i))) }
    ensures clash { (i : ℕ) → FirstClash names.new body.now i
        → MatchResult result (λ _. ⊥) (λ e. (e ≡ Fail.Memory) ⊎ (e ≡ Fail.Said (has_clash body.now i))) }
    ensures names { Grows names.old names.new }
{
    answer(alloc, body, true, names)
}

/// Whether a body passes the kind check (JVM Specification 4.10.1), as `states` finds out. No list of states is made,
/// but where the body has exception rows.
///
/// # Errors
///
/// As those of `states`.
pub fn check_body(alloc: Global, body: &Body, names: &mut Names) -> Result<(), Fail<Refusal>>
    requires body { IsWellMade body.now }
    requires frames { AreNumberedFrames (length names.old) body.now.frames }
    // What is answered is so.
    ensures passes { IfOk result (λ _. Checked names.new body.now) }
    ensures refused { IfErr result (λ e. Said e (IsKindRefusal names.new body.now)) }
    // What is so is answered, unless memory runs out.
    ensures checked { Checked names.new body.now → MatchResult result (λ _. ⊤) (λ e. e ≡ Fail.Memory) }
    ensures missing { (i : ℕ) → FirstMissing body.now i
        → MatchResult result (λ _. ⊥) (λ e. (e ≡ Fail.Memory) ⊎ (e ≡ Fail.Said (lacks_frame body.now i))) }
    ensures clash { (i : ℕ) → FirstClash names.new body.now i
        → MatchResult result (λ _. ⊥) (λ e. (e ≡ Fail.Memory) ⊎ (e ≡ Fail.Said (has_clash body.now i))) }
    ensures names { Grows names.old names.new }
{
    match answer(alloc, body, false, names) {
        Ok(_) => Ok(()),
        Err(fail) => Err(fail),
    }
}
