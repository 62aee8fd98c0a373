//! The instrumented code of a method in stages: its code, and then its tables and the frames of the layout that is chosen.
ghost use Rattle.std.specs.Prelude.{◌≡◌, ℕ, ◌+◌, ◌≤◌, length, IfOk, IfErr};
ghost use Rattle.jc_methods.specs.ProbeMembers.{most_probes, most_short};
ghost use Rattle.jc_methods.specs.VerificationTypes.{Grows, AreNumberedFrames};
ghost use Rattle.jc_methods.specs.WellMade.{IsWellMade};
ghost use Rattle.jc_bytes.specs.Failing.{Said};
ghost use Rattle.jc_kinds.specs.Answers.{AreStates};
ghost use Rattle.jc_plan.specs.Plan.{plan_of};
ghost use Rattle.jc_emit.specs.Placing.{HasPlan, ArePlacesFor};
ghost use Rattle.jc_emit.specs.Refusing.{IsEmitRefusal, HasRoom};
ghost use Rattle.jc_methods.specs.Widened.{listed};
ghost use Rattle.jc_emit.specs.Written.{integer_in};
ghost use Rattle.jc_emit.specs.Stages.{emitted_code, moved_tables, AreLayoutFrames};

use crate::emitting::refused;
use crate::frames::Framing;
use crate::places::Places;
use crate::segments::{CodeSource, write_code};
use crate::tables::{MovedTables, moved_tables};
use crate::written::Written;
use jc_bytes::{Fail, List, Memory, Names, Refusal};
use jc_methods::{Body, Fetch, FrameAt, Insn, PROBE_ARRAY, Plan, State};
use std::alloc::Global;

/// The code of a method's emission, and the places that its other parts are made from.
#[derive(Debug, Drop)]
pub struct EmittedCode {
    /// The instructions.
    pub code: List<Insn>,
    /// Where those of the method stand.
    pub places: Places,
}

/// The code of the emission of a method, for which no states are needed: its length is known before any frame is made.
/// The places of the method's instructions are found for it, and are given with it for `emit_parts`. `fetch` and `constants`
/// are those of `emit`.
///
/// # Errors
///
/// `Memory` where memory was refused, and the refusals of `emit`.
pub fn emit_code(
    alloc: Global,
    body: &Body,
    plan: &Plan,
    fetch: Fetch,
    constants: &[u16],
) -> Result<EmittedCode, Fail<Refusal>>
    requires body { IsWellMade body.now }
    requires plan { HasPlan body.now plan.now }
    requires next { plan.now.next ≤ most_probes }
    requires enough { plan.now.next ≤ most_short + 1 + length constants.now }
    ensures code { (first : ℕ) → plan.now ≡ plan_of body.now first
        → IfOk result (λ emitted. emitted.code ≡ emitted_code body.now first fetch (integer_in constants.now)) }
    ensures places { IfOk result (λ emitted. ArePlacesFor body.now plan.now fetch emitted.places) }
    ensures room { IfOk result (λ _. HasRoom body.now) }
    ensures refused { IfErr result (λ e. Said e (IsEmitRefusal body.now)) }
{
    if let Some(refusal) = refused(body) {
        return Err(Fail::Said(refusal));
    }
    let places = Places::of(alloc, body, plan, fetch)?;
    let source = CodeSource {
        body,
        plan,
        fetch,
        constants,
        places: &places,
    };
    let Written { code, .. } = write_code(alloc, source)?;
    Ok(EmittedCode {
        code: List::from_vec(code),
        places,
    })
}

/// The body of a method with its plan, and where its instructions stand in its emission, which has no wide jumps.
#[derive(Clone, Copy)]
pub struct PlacedBody<'a> {
    /// The body.
    pub body: &'a Body,
    /// Its plan.
    pub plan: &'a Plan,
    /// How it gets the array of probes.
    pub fetch: Fetch,
    /// The places that `emit_code` gives with the code.
    pub places: &'a Places,
}

/// What the Code attribute of a method's emission holds besides its code, in one layout.
#[derive(Debug, Drop)]
pub struct EmittedParts {
    /// The frames of the layout, in rising order.
    pub frames: List<FrameAt>,
    /// The tables, and the sizes.
    pub tables: MovedTables,
}

/// The frames of the emission of a method, in rising order, and its tables with its sizes: the frames of the narrow code, and
/// those behind the jumps that are wide, which `wide` says for each instruction of the narrow code; behind its end
/// none is. One frame stands at each place. The class `[Z` gets a number in `names`.
///
/// # Errors
///
/// `Memory` where memory was refused, or where `[Z` is new and the list has 4,294,967,295 names.
pub fn emit_parts(
    alloc: Global,
    placed: &PlacedBody,
    states: &[State],
    wide: &[bool],
    names: &mut Names,
) -> Result<EmittedParts, Memory>
    requires body { IsWellMade placed.now.body.now }
    requires plan { HasPlan placed.now.body.now placed.now.plan.now }
    requires next { placed.now.plan.now.next ≤ most_probes }
    requires room { HasRoom placed.now.body.now }
    requires places { ArePlacesFor placed.now.body.now placed.now.plan.now placed.now.fetch placed.now.places.now }
    requires states { AreStates names.old placed.now.body.now states.now }
    requires frames { AreNumberedFrames (length names.old) placed.now.body.now.frames }
    ensures frames { (first : ℕ) → placed.now.plan.now ≡ plan_of placed.now.body.now first
        → IfOk result (λ parts. AreLayoutFrames names.new placed.now.body.now first states.now placed.now.fetch (listed wide.now) parts.frames) }
    ensures tables { (first : ℕ) → placed.now.plan.now ≡ plan_of placed.now.body.now first
        → IfOk result (λ parts. parts.tables ≡ moved_tables placed.now.body.now first placed.now.fetch) }
    ensures names { Grows names.old names.new }
{
    let array = names.number(alloc, PROBE_ARRAY)?;
    let framing = Framing::of(
        alloc,
        placed.body,
        placed.plan,
        placed.places,
        states,
        array,
    )?;
    let frames = framing.layout_frames(wide)?;
    let tables = moved_tables(alloc, placed.body, placed.places)?;
    Ok(EmittedParts {
        frames: List::from_vec(frames),
        tables,
    })
}
