//! The kind check of the bodies of a class.
ghost use Rattle.std.specs.Prelude.{◌≡◌, true, length, All, IfOk, IfErr};
ghost use Rattle.jc_methods.specs.VerificationTypes.{Grows, AreNumberedFrames};
ghost use Rattle.jc_methods.specs.WellMade.{IsWellMade};
ghost use Rattle.jc_bytes.specs.Failing.{Said};
ghost use Rattle.jc_kinds.specs.Answers.{IsKindRefusal};
ghost use Rattle.jc_kinds.specs.Checked.{Checked};
ghost use Rattle.jc_instrument.specs.Found.{AreFramesFine, ChecksOn};
ghost use Rattle.jc_instrument.specs.Steps.{HasStates, IsFrameRefusal};

use crate::found::{FrameRefusals, frame_refusal, noted};
use jc_bytes::{Fail, Memory, Names, Refusal};
use jc_kinds::{check_body, states};
use jc_methods::Body;
use std::alloc::Global;

/// Checks a body. If they are to be numbered, the classes in its states get numbers in `names`.
fn check_one(
    alloc: Global,
    body: &Body,
    numbers: bool,
    names: &mut Names,
) -> Result<(), Fail<Refusal>>
    requires made { IsWellMade body.now }
    requires frames { AreNumberedFrames (length names.old) body.now.frames }
    ensures passes { IfOk result (λ _. Checked names.new body.now) }
    ensures states { numbers ≡ true → IfOk result (λ _. HasStates names.new body.now) }
    ensures refused { IfErr result (λ e. Said e (IsKindRefusal names.new body.now)) }
    ensures grows { Grows names.old names.new }
{
    if !numbers {
        return check_body(alloc, body, names);
    }
    match states(alloc, body, names) {
        Ok(_) => Ok(()),
        Err(fail) => Err(fail),
    }
}

/// The first refusals once one more body is checked. Behind a missing frame nothing more is asked.
pub fn check_next(
    alloc: Global,
    body: &Body,
    numbers: bool,
    first: FrameRefusals,
    names: &mut Names,
) -> Result<FrameRefusals, Memory>
    requires made { IsWellMade body.now }
    requires frames { AreNumberedFrames (length names.old) body.now.frames }
    ensures first { IfOk result (ChecksOn names.new body.now first) }
    ensures states { numbers ≡ true → IfOk result (λ next. AreFramesFine next → HasStates names.new body.now) }
    ensures grows { Grows names.old names.new }
{
    if let Some(_) = first.missing {
        return Ok(first);
    }
    match check_one(alloc, body, numbers, names) {
        Ok(()) => Ok(first),
        Err(Fail::Memory) => Err(Memory),
        Err(Fail::Said(refusal)) => Ok(noted(first, refusal)),
    }
}

/// Whether each body passes the kind check (JVM Specification 4.10.1). A missing frame of any body is refused before a
/// clash of an earlier one. If they are to be numbered, the classes in the states of the bodies get numbers in `names`.
pub fn check_bodies(
    alloc: Global,
    bodies: &[Body],
    numbers: bool,
    names: &mut Names,
) -> Result<(), Fail<Refusal>>
    requires made { All IsWellMade bodies.now }
    requires frames { All (λ b. AreNumberedFrames (length names.old) b.frames) bodies.now }
    ensures checked { IfOk result (λ _. All (Checked names.new) bodies.now) }
    ensures states { numbers ≡ true → IfOk result (λ _. All (HasStates names.new) bodies.now) }
    ensures refused { IfErr result (λ e. Said e (IsFrameRefusal names.new bodies.now)) }
    ensures grows { Grows names.old names.new }
{
    let mut first = FrameRefusals {
        missing: None,
        clash: None,
    };
    'checking: for body in bodies {
        first = check_next(alloc, body, numbers, first, names)?;
    }
    match frame_refusal(&first) {
        Some(refusal) => Err(Fail::Said(refusal)),
        None => Ok(()),
    }
}
