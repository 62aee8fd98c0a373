//! The layouts of the instrumented code of the bodies of a class.
ghost use Rattle.std.specs.Prelude.{◌≡◌, ◌≤◌, ◌+◌, ℕ, List as Seq, length, IfOk, IfErr};
ghost use Rattle.jc_methods.specs.ProbeMembers.{most_short};
ghost use Rattle.jc_methods.specs.VerificationTypes.{Grows, Names as ClassNames};
ghost use Rattle.jc_methods.specs.declared.body.Body.{Body as MethodBody};
ghost use Rattle.jc_bytes.specs.Failing.{Said};
ghost use Rattle.jc_body.specs.BodyOf.{BodyOf};
ghost use Rattle.jc_layout.specs.Layout.{chosen_length};
ghost use Rattle.jc_plan.specs.Analysed.{all_probes};
ghost use Rattle.jc_plan.specs.Plan.{plan_of};
ghost use Rattle.jc_instrument.specs.Bodies.{AreBodies};
ghost use Rattle.jc_instrument.specs.Constants.{probed_code};
ghost use Rattle.jc_instrument.specs.Looked.{AreLookedBodies, HasRoomFrom, IsKeptBody, IsLookedBody};
ghost use Rattle.jc_instrument.specs.Probing.{IsFirstTooLong, IsTooLong};
ghost use Rattle.jc_instrument.specs.Ready.{ArePlanned, HasEnough, IsPlannedBody, IsReady, IsSource};

use crate::again::body_again;
use crate::constants::ProbeConstants;
use crate::looked::{KeptBody, LookedBody};
use crate::ready::{LaidCode, PlannedBody, ReadyBody, laid_body};
use jc_bytes::{Fail, List, Names, Refusal};
use jc_class::ClassFile;
use jc_methods::Body;
use jc_plan::plan;
use std::alloc::Global;

/// A body that was kept, with the layout of its instrumented code.
fn lay_out_kept(
    alloc: Global,
    kept: KeptBody,
    constants: &ProbeConstants,
) -> Result<ReadyBody, Fail<Refusal>>
    requires room { (first : ℕ) × (kept.plan ≡ plan_of kept.body first) × HasRoomFrom kept.body first }
    requires enough { HasEnough constants.now kept.plan.next }
    ensures ready { (names : ClassNames) (first : ℕ) → IsKeptBody names kept.body first kept → IfOk result (IsReady names constants.now) }
    ensures body { IfOk result (λ r. r.body ≡ kept.body) }
    ensures plan { IfOk result (λ r. r.plan ≡ kept.plan) }
    ensures short { (first : ℕ) → kept.plan ≡ plan_of kept.body first
        → IfOk result (λ _. chosen_length (probed_code constants.now kept.body first) ≤ 65535) }
    ensures refused { (first : ℕ) → kept.plan ≡ plan_of kept.body first
        → IfErr result (λ e. Said e (IsTooLong constants.now kept.body first)) }
{
    let KeptBody { body, plan, states } = kept;
    let LaidCode { laid, insn_places } = laid_body(alloc, &body, &plan, constants)?;
    Ok(ReadyBody {
        body,
        plan,
        laid,
        insn_places,
        states,
    })
}

/// Looks whether the instrumented code of a body isn't too large, whose ids begin with this one. Nothing of it is kept.
fn fits(
    alloc: Global,
    body: &Body,
    first: u32,
    constants: &ProbeConstants,
) -> Result<(), Fail<Refusal>>
    requires room { HasRoomFrom body.now first }
    requires enough { HasEnough constants.now (plan_of body.now first).next }
    ensures short { IfOk result (λ _. chosen_length (probed_code constants.now body.now first) ≤ 65535) }
    ensures refused { IfErr result (λ e. Said e (IsTooLong constants.now body.now first)) }
{
    let plan = plan(alloc, body, first)?;
    laid_body(alloc, body, &plan, constants)?;
    Ok(())
}

/// The body, with the layout of its instrumented code where it was kept. Else it is read again, and only the size of its code is
/// looked at. Code that is too large is refused with the method's number.
fn lay_out(
    alloc: Global,
    class: &ClassFile,
    looked: LookedBody,
    constants: &ProbeConstants,
    names: &mut Names,
) -> Result<PlannedBody, Fail<Refusal>>
    requires source { IsSource class.now }
    requires body { (b : MethodBody) × (first : ℕ) × BodyOf names.old class.now b.method b × IsLookedBody names.old b first looked
        × HasEnough constants.now (plan_of b first).next }
    ensures planned { (b : MethodBody) (first : ℕ) → BodyOf names.old class.now b.method b → IsLookedBody names.old b first looked
        → IfOk result (IsPlannedBody names.new constants.now b first) }
    ensures short { (b : MethodBody) (first : ℕ) → BodyOf names.old class.now b.method b → IsLookedBody names.old b first looked
        → IfOk result (λ _. chosen_length (probed_code constants.now b first) ≤ 65535) }
    ensures refused { (b : MethodBody) (first : ℕ) → BodyOf names.old class.now b.method b → IsLookedBody names.old b first looked
        → IfErr result (λ e. Said e (IsTooLong constants.now b first)) }
    ensures grows { Grows names.old names.new }
{
    match looked {
        LookedBody::Kept(kept) => Ok(PlannedBody::Ready(lay_out_kept(alloc, kept, constants)?)),
        LookedBody::Unread(unread) => {
            let body = body_again(alloc, class, unread.method, names)?;
            fits(alloc, &body, unread.first, constants)?;
            Ok(PlannedBody::Unread(unread))
        }
    }
}

/// The bodies of a class, each with the layout of its instrumented code where it was kept, which loads these constants. The first
/// one whose code is too large is refused. Nothing is added to the pool of the class.
pub fn lay_out_bodies(
    alloc: Global,
    class: &ClassFile,
    bodies: List<LookedBody>,
    constants: &ProbeConstants,
    names: &mut Names,
) -> Result<List<PlannedBody>, Fail<Refusal>>
    requires source { IsSource class.now }
    requires bodies { (all : Seq MethodBody) × AreBodies names.old class.now all × AreLookedBodies names.old all bodies
        × (all_probes all ≤ most_short + 1 + length constants.now.integers) }
    ensures planned { (all : Seq MethodBody) → AreBodies names.old class.now all → AreLookedBodies names.old all bodies
        → IfOk result (ArePlanned names.new constants.now all) }
    ensures refused { (all : Seq MethodBody) → AreBodies names.old class.now all → AreLookedBodies names.old all bodies
        → IfErr result (λ e. Said e (IsFirstTooLong constants.now all)) }
    ensures grows { Grows names.old names.new }
{
    let mut planned = List::new(alloc);
    'laying: for looked in bodies.into_vec() {
        let next = lay_out(alloc, class, looked, constants, names)?;
        planned.push(next)?;
    }
    Ok(planned)
}
