//! The instrumented code of a method.
ghost use Rattle.std.specs.Prelude.{◌≡◌, ◌⊎◌, ⊤, ℕ, ◌+◌, ◌≤◌};
ghost use Rattle.std.specs.Prelude.{Some, None, length, IfOk, OnOk, IfErr, IfSome, MatchResult};
ghost use Rattle.std.specs.List.{sum_by};
ghost use Rattle.jc_methods.specs.ProbeMembers.{most_probes, most_short};
ghost use Rattle.jc_methods.specs.VerificationTypes.{Grows, AreNumberedFrames};
ghost use Rattle.jc_methods.specs.Insn.{arm_count};
ghost use Rattle.jc_bytes.specs.Names.{with_name};
ghost use Rattle.jc_methods.specs.WellMade.{IsWellMade, IsCounted};
ghost use Rattle.jc_bytes.specs.declared.refusal.RefusalKind.{RefusalKind as Kind};
ghost use Rattle.jc_kinds.specs.Answers.{AreStates, refusal_of};
ghost use Rattle.jc_bytes.specs.Failing.{Said};
ghost use Rattle.jc_plan.specs.Plan.{plan_of};
ghost use Rattle.jc_emit.specs.Emission.{IsArrayNumber, emission};
ghost use Rattle.jc_emit.specs.Written.{given, integer_in};
ghost use Rattle.jc_emit.specs.Framing.{ArePut};
ghost use Rattle.jc_emit.specs.Placing.{HasPlan, ArePlacesFor};
ghost use Rattle.jc_emit.specs.Refusing.{IsEmitRefusal, IsTaken, HasRoom};
ghost use Rattle.jc_emit.specs.Shift.{probe_array_class};
ghost use Rattle.jc_emit.specs.Straddling.{IsEmitReason};
ghost use Rattle.jc_emit.specs.Twin.{IsEmitted};

use crate::frames::Framing;
use crate::places::Places;
use crate::segments::{CodeSource, write_code};
use crate::straddling::straddles;
use crate::tables::{MovedTables, moved_tables};
use crate::written::Written;
use jc_bytes::{Fail, List, Memory, Names, Refusal, RefusalKind};
use jc_methods::{Body, Emitted, Fetch, PROBE_ARRAY, Plan, State};
use std::alloc::Global;

/// A refusal of the method.
fn refusal(body: &Body, kind: RefusalKind, place: u32) -> Refusal
    ensures { result ≡ refusal_of body.now kind place }
{
    Refusal {
        kind,
        method: Some(body.method),
        place,
    }
}

/// Why a method isn't instrumented, if it isn't.
pub(crate) fn refused(body: &Body) -> Option<Refusal>
    requires { IsCounted body.now.code }
    ensures refusal { IfSome result (IsEmitRefusal body.now) }
    ensures each { (kind : Kind) (place : ℕ) → IsEmitReason body.now kind place → result ≡ Some (refusal_of body.now kind place) }
    ensures room { result ≡ None → HasRoom body.now }
{
    if let Some(place) = straddles(body) {
        return Some(refusal(body, RefusalKind::StraddlingLocal, place));
    }
    if body.max_locals == u16::MAX {
        return Some(refusal(body, RefusalKind::LocalsFull, 65536));
    }
    if body.max_stack > 65532 {
        let slots = u32::from(body.max_stack) + 3;
        return Some(refusal(body, RefusalKind::StackFull, slots));
    }
    None
}

/// The instrumented code of a method that has room for it, where the class of the array of probes has this
/// number.
fn instrumented(
    alloc: Global,
    source: CodeSource<'_>,
    states: &[State],
    array: u32,
) -> Result<Emitted, Memory>
    requires body { IsWellMade source.body.now }
    requires plan { HasPlan source.body.now source.plan.now }
    requires next { source.plan.now.next ≤ most_probes }
    requires enough { source.plan.now.next ≤ most_short + 1 + length source.constants.now }
    requires places { ArePlacesFor source.body.now source.plan.now source.fetch source.places.now }
    requires states { ArePut source.body.now states.now }
    requires room { HasRoom source.body.now }
    ensures { (first : ℕ) → source.entry.plan.now ≡ plan_of source.entry.body.now first → IfOk result
        (λ e. e ≡ emission source.entry.body.now first states.now (given source.entry.fetch array source.entry.constants.now)) }
{
    let Written {
        code,
        at,
        own,
        extra,
    } = write_code(alloc, source)?;
    let CodeSource {
        body,
        plan,
        places,
        ..
    } = source;
    let framing = Framing::of(alloc, body, plan, places, states, array)?;
    let frames = framing.layout_frames(&[])?;
    let wide_frames = framing.wide_frames()?;
    let MovedTables {
        handlers,
        lines,
        vars,
        kind_vars,
        max_stack,
        max_locals,
    } = moved_tables(alloc, body, places)?;
    Ok(Emitted {
        code: List::from_vec(code),
        at: List::from_vec(at),
        own: List::from_vec(own),
        extra: List::from_vec(extra),
        handlers,
        lines,
        vars,
        kind_vars,
        frames: List::from_vec(frames),
        wide_frames: List::from_vec(wide_frames),
        max_stack,
        max_locals,
    })
}

/// The instrumented code of a method without wide jumps: each instruction with the probes of its edges in
/// front of it or behind it, and the tables and frames that belong to it. The places in the pool of what the
/// instructions in front name are 0, until the class has the method or the constant that gives the array of probes.
/// An id above 32,767 is pushed by `ldc` of its Integer: `constants[k]` is the place of the Integer 32,768 + k.
///
/// `wide_frames` has one frame for each conditional jump, in order, for where that jump is wide.
///
/// The local variable behind the arguments, of number v, holds the array of probes, whose class `[Z` gets a
/// number in `names`. A local variable at or above v goes up by one. A probe of a fall-through, of a `goto`, of
/// a return or of `athrow` stands in front of the instruction, one of a conditional jump or of a switch behind
/// it. So a conditional jump with a probe is inverted, and a switch leads to an arm place for each target that
/// has a probe (JVM Specification 4.7.3, 4.7.4, 6.5).
///
/// # Errors
///
/// `Memory` where memory was refused, or where `[Z` is new and the list has 4,294,967,295 names. Then `names`
/// may have `[Z` as one name more.
///
/// `Said`, of the body's method, the first of these that applies; `names` is as it was:
/// - `StraddlingLocal` where an instruction reads or writes a long or a double in the last local variable of
///   the arguments and the next one, or a frame has one there, with the first such instruction;
/// - `LocalsFull`, with 65,536, where there are 65,535 local variables;
/// - `StackFull`, with the slots that would be needed, where the stack has more than 65,532 slots.
pub fn emit(
    alloc: Global,
    body: &Body,
    plan: &Plan,
    states: &[State],
    fetch: Fetch,
    constants: &[u16],
    names: &mut Names,
) -> Result<Emitted, Fail<Refusal>>
    requires body { IsWellMade body.now }
    requires plan { HasPlan body.now plan.now }
    requires next { plan.now.next ≤ most_probes }
    requires enough { plan.now.next ≤ most_short + 1 + length constants.now }
    requires states { AreStates names.old body.now states.now }
    requires frames { AreNumberedFrames (length names.old) body.now.frames }
    // What is given is the emission of the definition, with the number of `[Z` in the names afterwards.
    ensures emitted { (first : ℕ) → plan.now ≡ plan_of body.now first → IfOk result
        (λ e. (array : ℕ) × IsArrayNumber names.new array × (e ≡ emission body.now first states.now (given fetch array constants.now))) }
    // So it is instrumented code of the body.
    ensures twin { (first : ℕ) → plan.now ≡ plan_of body.now first
        → IfOk result (IsEmitted names.new names.new states.now fetch (integer_in constants.now) first body.now) }
    ensures few { IfOk result (λ e. length e.code + sum_by arm_count e.code ≤ 1000000) }
    ensures refused { IfErr result (λ e. Said e (IsEmitRefusal body.now)) }
    // Each refusal comes exactly where its reason holds, unless memory runs out.
    ensures exact { (kind : Kind) (place : ℕ) → IsEmitReason body.now kind place
        → MatchResult result (λ _. ⊥) (λ e. (e ≡ Fail.Memory) ⊎ (e ≡ Fail.Said (refusal_of body.now kind place))) }
    ensures taken { IsTaken body.now → MatchResult result (λ _. ⊤) (λ e. e ≡ Fail.Memory) }
    ensures names { Grows names.old names.new }
    // The class of the array of probes has a number afterwards, and no other name is new.
    ensures added { OnOk result (names.new ≡ with_name names.old probe_array_class) }
    // After a refusal the names are as they were. Where memory runs out they may have this one name more.
    ensures kept { IfErr result (λ e. (names.new ≡ names.old)
        ⊎ ((e ≡ Fail.Memory) × (names.new ≡ with_name names.old probe_array_class))) }
{
    if let Some(refusal) = refused(body) {
        return Err(Fail::Said(refusal));
    }
    let array = names.number(alloc, PROBE_ARRAY)?;
    let places = Places::of(alloc, body, plan, fetch)?;
    let source = CodeSource {
        body,
        plan,
        fetch,
        constants,
        places: &places,
    };
    let emitted = instrumented(alloc, source, states, array)?;
    Ok(emitted)
}
