//! Instrumented code of bodies, and its layouts.
ghost use Rattle.std.specs.Prelude.{◌≡◌, ◌≤◌, length, IfOk};
ghost use Rattle.jc_methods.specs.FrameOrder.{RiseFrom};
ghost use Rattle.jc_methods.specs.ProbeMembers.{most_probes};
ghost use Rattle.jc_methods.specs.VerificationTypes.{AreNumberedFrames};
ghost use Rattle.jc_methods.specs.WellMade.{IsWellMade};
ghost use Rattle.jc_methods.specs.Widened.{listed};
ghost use Rattle.jc_instrument_code.specs.Given.{AreFrames, IsLaid};
ghost use Rattle.jc_instrument_code.specs.TwinCode.{chosen_frames};
ghost use Rattle.jc_layout.specs.Layable.{IsLayable};
ghost use Rattle.jc_layout.specs.Merged.{merged, used_frames};
ghost use Rattle.tests_classes.specs.Instrumented.{IsInstrumented, FitsInLayout};

use crate::codes::{LaidCode, coded};
use crate::shown::{put_emitted, put_layout};
use crate::ways::{Asked, planned};
use jc_bytes::{Fail, List, Memory, Names, Refusal};
use jc_emit::emit;
use jc_instrument_code::{each_layout_can_be_written, merged_frames, used_frames};
use jc_kinds::states;
use jc_layout::{Laid, layout};
use jc_methods::{Body, Emitted, Fetch, FrameAt};
use jc_pool::Pool;
use std::alloc::Global;
use tests_lines::Answer;

/// The instrumented code of a body, with ids of probes from `first` on.
fn emission(
    alloc: Global,
    body: &Body,
    names: &mut Names,
    fetch: Fetch,
    first: u32,
    constants: &[u16],
) -> Result<Emitted, Fail<Refusal>>
    requires body { IsWellMade body.now }
    requires frames { AreNumberedFrames (length names.old) body.now.frames }
    requires first { first ≤ most_probes }
    ensures instrumented { IfOk result (IsInstrumented names.new body.now fetch first constants.now) }
    ensures locals { IfOk result (λ e. e.max_locals ≤ 65535) }
    ensures stack { IfOk result (λ e. e.max_stack ≤ 65535) }
{
    let states = states(alloc, body, names)?;
    let plan = planned(alloc, body, first, constants)?;
    let emitted = emit(alloc, body, &plan, &states, fetch, constants, names)?;
    Ok(emitted)
}

/// Puts all of the instrumented code but the instructions, whose bytes the layout tells.
pub fn emitted(
    alloc: Global,
    body: &Body,
    names: &mut Names,
    asked: &Asked,
    out: &mut Answer,
) -> Option<()>
    requires body { IsWellMade body.now }
    requires frames { AreNumberedFrames (length names.old) body.now.frames }
    requires first { asked.now.first ≤ most_probes }
{
    let emission = emission(
        alloc,
        body,
        names,
        asked.fetch,
        asked.first,
        &asked.constants,
    );
    let emitted = out.accepted(emission)?;
    put_emitted(&emitted, names, out);
    Some(())
}

/// Puts the layout of the instrumented code.
#[tactic(auto, using(crate::proofs::InstrumentedLaws::layable, crate::proofs::InstrumentedLaws::frames_rise, crate::proofs::InstrumentedLaws::wide_frames_rise))]
pub fn laid(
    alloc: Global,
    body: &Body,
    names: &mut Names,
    asked: &Asked,
    out: &mut Answer,
) -> Option<()>
    requires body { IsWellMade body.now }
    requires frames { AreNumberedFrames (length names.old) body.now.frames }
    requires first { asked.now.first ≤ most_probes }
{
    let emission = emission(
        alloc,
        body,
        names,
        asked.fetch,
        asked.first,
        &asked.constants,
    );
    let emitted = out.accepted(emission)?;
    let laid = out.accepted(laid_out(alloc, &emitted))?;
    let frames = out.got(merged(alloc, &emitted, &laid.wide))?;
    put_layout(&laid, &frames, out)
}

/// Puts the Code attribute in which the method at this place of the pool is called for the array of probes.
#[tactic(auto, using(crate::proofs::InstrumentedLaws::layable, crate::proofs::InstrumentedLaws::frames_rise, crate::proofs::InstrumentedLaws::wide_frames_rise, crate::proofs::InstrumentedLaws::fits_in_layout))]
pub fn attribute(
    alloc: Global,
    body: &Body,
    names: &mut Names,
    pool: &mut Pool,
    method: u16,
    out: &mut Answer,
) -> Option<()>
    requires body { IsWellMade body.now }
    requires frames { AreNumberedFrames (length names.old) body.now.frames }
{
    let emission = emission(alloc, body, names, Fetch::Member, 0, &[]);
    let emitted = out.accepted(emission)?;
    in_layout(alloc, &emitted, names, pool, method, out)
}

/// The layout of instrumented code.
fn laid_out(alloc: Global, emitted: &Emitted) -> Result<Laid, Fail<Refusal>>
    requires { IsLayable emitted.now.code }
    ensures { IfOk result (IsLaid emitted.now) }
{
    let laid = layout(alloc, emitted)?;
    each_layout_can_be_written();
    Ok(laid)
}

/// Puts the Code attribute of instrumented code.
fn in_layout(
    alloc: Global,
    emitted: &Emitted,
    names: &Names,
    pool: &mut Pool,
    method: u16,
    out: &mut Answer,
) -> Option<()>
    requires layable { IsLayable emitted.now.code }
    requires frames { RiseFrom 0 emitted.now.frames }
    requires wide_frames { RiseFrom 0 emitted.now.wide_frames }
    requires fit { FitsInLayout (length names.now) emitted.now }
{
    let laid = out.accepted(laid_out(alloc, emitted))?;
    let code = LaidCode {
        emitted,
        laid: &laid,
        names,
    };
    with_frames(alloc, code, pool, method, out)
}

/// The frames of a layout in which these jumps are wide, in the order of their places.
fn merged(alloc: Global, emitted: &Emitted, wide: &[bool]) -> Result<List<FrameAt>, Memory>
    requires frames { RiseFrom 0 emitted.now.frames }
    requires wide_frames { RiseFrom 0 emitted.now.wide_frames }
    ensures { IfOk result (λ all. all ≡ merged emitted.now.frames (used_frames (listed wide.now) emitted.now.wide_frames)) }
{
    let used = used_frames(alloc, &emitted.wide_frames, wide)?;
    merged_frames(alloc, &emitted.frames, &used)
}

/// Puts the Code attribute of instrumented code in this layout.
fn with_frames(
    alloc: Global,
    code: LaidCode<'_>,
    pool: &mut Pool,
    method: u16,
    out: &mut Answer,
) -> Option<()>
    requires laid { IsLaid code.emitted.now code.laid.now }
    requires frames { RiseFrom 0 code.emitted.now.frames }
    requires wide_frames { RiseFrom 0 code.emitted.now.wide_frames }
    requires fit { AreFrames code.emitted.now (length code.names.now) (chosen_frames code.emitted.now) }
{
    let LaidCode { emitted, laid, .. } = code;
    let frames = out.got(merged(alloc, emitted, &laid.wide))?;
    coded(alloc, code, &frames, method, pool, out)
}
