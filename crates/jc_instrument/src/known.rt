//! What is known of the first methods of a class, whose bodies are handed on one after the other.
ghost use Rattle.std.specs.Prelude.{◌≡◌, ◌<◌, ◌+◌, ◌≤◌, length, List as Seq, All, IfOk, IfErr};
ghost use Rattle.jc_bytes.specs.Failing.{Said};
ghost use Rattle.jc_bytes.specs.Reader.{most_read};
ghost use Rattle.jc_class.specs.Sizes.{BodiesWithin};
ghost use Rattle.jc_class.specs.Writable.{IsClassFile};
ghost use Rattle.jc_methods.specs.VerificationTypes.{AreNumberedFrames, Grows};
ghost use Rattle.jc_methods.specs.WellMade.{IsWellMade};
ghost use Rattle.jc_methods.specs.declared.body.Body.{Body as MethodBody};
ghost use Rattle.jc_instrument.specs.Bodies.{IsReadable};
ghost use Rattle.jc_instrument.specs.Found.{first_of};
ghost use Rattle.jc_instrument.specs.Known.{HandsOn, IsFine, IsKnown, KnowsOn};
ghost use Rattle.jc_instrument.specs.Steps.{IsSubroutineAt};

use crate::checks::check_next;
use crate::found::{FrameRefusals, are_frames_fine, frame_refusal};
use crate::kept::keep_first;
use jc_body::read_body;
use jc_bytes::{Fail, Memory, Names, Refusal, RefusalKind};
use jc_class::ClassFile;
use jc_methods::{Body, Plan};
use jc_plan::plan;
use std::alloc::Global;

/// A body with its plan.
#[derive(Debug, Drop)]
pub struct PlannedMethod {
    /// The body.
    pub body: Body,
    /// Its plan. Its ids begin behind those of the bodies in front of it.
    pub plan: Plan,
}

/// What is known of the first methods of a class.
#[derive(Debug, Drop)]
pub struct Known {
    /// The first fault of their code, none of which is a subroutine instruction.
    pub bad: Option<Refusal>,
    /// The first refusals of the kind check, where no code has a fault.
    pub frames: FrameRefusals,
    /// How many probes there are, where nothing is refused.
    pub probes: u32,
}

/// Of no method.
pub fn nothing_known() -> Known
    ensures bad { result.bad ≡ None }
    ensures frames { result.frames ≡ record { missing = None; clash = None } }
    ensures probes { result.probes ≡ 0 }
{
    Known {
        bad: None,
        frames: FrameRefusals {
            missing: None,
            clash: None,
        },
        probes: 0,
    }
}

/// The first refusal of the code and the frames of methods, if there is one.
pub fn known_refusal(known: &Known) -> Option<Refusal>
    ensures { result ≡ first_of known.now.bad (first_of known.now.frames.missing known.now.frames.clash) }
{
    if let Some(refusal) = known.bad {
        return Some(refusal);
    }
    frame_refusal(&known.frames)
}

/// One body more: it passes the kind check (JVM Specification 4.10.1), or is refused. Where nothing is refused so far, it is
/// handed on with its plan.
fn hand_on(
    alloc: Global,
    body: Body,
    names: &mut Names,
    known: &mut Known,
) -> Result<Option<PlannedMethod>, Memory>
    requires made { IsWellMade body }
    requires frames { AreNumberedFrames (length names.old) body.frames }
    requires probes { IsFine known.old → known.old.probes ≤ 134217728 }
    ensures hands { IfOk result (HandsOn names.new body known.old known.new) }
    ensures grows { Grows names.old names.new }
{
    if let Some(_) = known.bad {
        return Ok(None);
    }
    known.frames = check_next(alloc, &body, false, known.frames, names)?;
    if !are_frames_fine(&known.frames) {
        return Ok(None);
    }
    let plan = plan(alloc, &body, known.probes)?;
    known.probes = plan.next;
    Ok(Some(PlannedMethod { body, plan }))
}

/// Reads one method more. Its body is handed on, unless something was refused so far. A subroutine instruction is refused
/// before anything else.
pub fn know_one_more(
    alloc: Global,
    class: &ClassFile,
    number: u32,
    names: &mut Names,
    known: &mut Known,
) -> Result<Option<PlannedMethod>, Fail<Refusal>>
    requires exists { number < length class.now.methods }
    requires class { IsClassFile class.now }
    requires sizes { All (λ m. BodiesWithin most_read m.attributes) class.now.methods }
    requires text { IsReadable class.now }
    requires before { (handed : Seq MethodBody) × IsKnown names.old class.now number handed known.old }
    ensures knows { (handed : Seq MethodBody) → IsKnown names.old class.now number handed known.old
        → IfOk result (KnowsOn names.new class.now (number + 1) handed known.new) }
    ensures refused { IfErr result (λ e. Said e (IsSubroutineAt class.now number)) }
{
    match read_body(alloc, class, number, names) {
        Ok(Some(body)) => Ok(hand_on(alloc, body, names, known)?),
        Ok(None) => Ok(None),
        Err(fail) => {
            known.bad = keep_first(known.bad, RefusalKind::Subroutine, fail)?;
            Ok(None)
        }
    }
}
