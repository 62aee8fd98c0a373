//! The methods of a class that gets probes are looked at, one after the other.
ghost use Rattle.std.specs.Prelude.{◌≡◌, ◌<◌, ◌+◌, ◌≤◌, ◌↔◌, ℕ, length, All, None, IfOk, IfErr, IfSome, IsTrue, OnErr, OnOk};
ghost use Rattle.jc_methods.specs.ProbeMembers.{most_probes};
ghost use Rattle.jc_methods.specs.VerificationTypes.{AreNumberedFrames, Grows, Names as ClassNames};
ghost use Rattle.jc_methods.specs.WellMade.{IsWellMade};
ghost use Rattle.jc_bytes.specs.Failing.{Said};
ghost use Rattle.jc_bytes.specs.Reader.{most_read};
ghost use Rattle.jc_class.specs.Writable.{IsClassFile};
ghost use Rattle.jc_class.specs.Sizes.{BodiesWithin};
ghost use Rattle.jc_kinds.specs.Answers.{AreStates};
ghost use Rattle.jc_emit.specs.Refusing.{IsTaken};
ghost use Rattle.jc_plan.specs.Plan.{plan_of};
ghost use Rattle.jc_instrument.specs.Bodies.{IsReadable};
ghost use Rattle.jc_instrument.specs.Causes.{IsFirstCause};
ghost use Rattle.jc_instrument.specs.Found.{AreFramesFine};
ghost use Rattle.jc_instrument.specs.KeptStates.{places_if_kept, places_kept};
ghost use Rattle.jc_instrument.specs.Looking.{IsLooking, LooksAtBody, LooksOn, PutsLooked};
ghost use Rattle.jc_instrument.specs.Reasons.{method_causes};
ghost use Rattle.jc_instrument.specs.Steps.{IsSubroutineAt};

use crate::found::{FrameRefusals, RoomRefusals, are_frames_fine, has_room_so_far, lacks, noted};
use crate::kept::keep_first;
use crate::looked::{KeptBody, LookedBody};
use crate::ready::UnreadBody;
use crate::states::checked_states;
use jc_body::read_body;
use jc_bytes::{Fail, List, Memory, Names, Refusal, RefusalKind};
use jc_class::ClassFile;
use jc_methods::{Body, MOST_PROBES, Plan, State};
use jc_plan::plan;
use std::alloc::Global;

/// What is known of the first methods of a class.
#[derive(Debug, Drop)]
pub struct Looking {
    /// The first fault of their code, none of which is a subroutine instruction.
    pub bad: Option<Refusal>,
    /// The first refusals of the kind check, where no code has a fault.
    pub frames: FrameRefusals,
    /// The first refusals for want of room, where the kind check refuses no body.
    pub room: RoomRefusals,
    /// The bodies, where none is refused and none lacks room.
    pub bodies: List<LookedBody>,
    /// How many probes there are.
    pub probes: u32,
    /// How many more places the states of bodies that are kept may take.
    pub left: usize,
}

/// One more body that has room for its probes is put last. It is kept with its states where there was room for these.
fn put_looked(
    body: Body,
    plan: Plan,
    first: u32,
    states: Option<List<State>>,
    bodies: &mut List<LookedBody>,
) -> Result<(), Memory>
    requires made { IsWellMade body }
    requires plan { plan ≡ plan_of body first }
    requires next { plan.next ≤ most_probes }
    requires taken { IsTaken body }
    requires rows { length body.handlers ≤ 65535 }
    ensures put { (names : ClassNames) → AreNumberedFrames (length names) body.frames → IfSome states (AreStates names body)
        → OnOk result (PutsLooked names body first bodies.old bodies.new) }
    ensures few { OnOk result (places_kept bodies.new ≤ places_kept bodies.old + places_if_kept body states) }
    ensures stays { OnErr result (bodies.new ≡ bodies.old) }
{
    let looked = match states {
        Some(states) => LookedBody::Kept(KeptBody { body, plan, states }),
        None => LookedBody::Unread(UnreadBody {
            method: body.method,
            first,
        }),
    };
    bodies.push(looked)?;
    Ok(())
}

/// Looks at one more body that passes the kind check: what room it lacks, and its probes. It is put to the others where no body lacks
/// room so far.
fn look_at_passing(
    alloc: Global,
    body: Body,
    states: Option<List<State>>,
    so_far: &mut Looking,
) -> Result<(), Memory>
    requires made { IsWellMade body }
    requires rows { length body.handlers ≤ 65535 }
    requires probes { so_far.old.probes ≤ 134217728 }
    ensures on { (names : ClassNames) → AreNumberedFrames (length names) body.frames → IfSome states (AreStates names body)
        → OnOk result (LooksOn names body so_far.old so_far.new) }
    ensures few { OnOk result (places_kept so_far.new.bodies ≤ places_kept so_far.old.bodies + places_if_kept body states) }
    ensures left { so_far.new.left ≡ so_far.old.left }
    ensures bad { so_far.new.bad ≡ so_far.old.bad }
    ensures frames { so_far.new.frames ≡ so_far.old.frames }
{
    so_far.room = lacks(so_far.room, &body);
    let first = so_far.probes;
    let plan = plan(alloc, &body, first)?;
    so_far.probes = plan.next;
    if !has_room_so_far(&so_far.room) {
        return Ok(());
    }
    if plan.next > MOST_PROBES {
        return Ok(());
    }
    put_looked(body, plan, first, states, &mut so_far.bodies)
}

/// Looks at one more body: whether it passes the kind check (JVM Specification 4.10.1), and, where all bodies do, the rest.
fn look_at_body(
    alloc: Global,
    body: Body,
    names: &mut Names,
    so_far: &mut Looking,
) -> Result<(), Memory>
    requires made { IsWellMade body }
    requires frames { AreNumberedFrames (length names.old) body.frames }
    requires rows { length body.handlers ≤ 65535 }
    requires probes { AreFramesFine so_far.old.frames → so_far.old.probes ≤ 134217728 }
    ensures looks { OnOk result (LooksAtBody names.new body so_far.old so_far.new) }
    ensures few { OnOk result (places_kept so_far.new.bodies + so_far.new.left ≤ places_kept so_far.old.bodies + so_far.old.left) }
    ensures bad { so_far.new.bad ≡ so_far.old.bad }
    ensures grows { Grows names.old names.new }
{
    match checked_states(alloc, &body, &mut so_far.left, names) {
        Ok(states) => {
            if are_frames_fine(&so_far.frames) {
                look_at_passing(alloc, body, states, so_far)?;
            }
            Ok(())
        }
        Err(Fail::Memory) => Err(Memory),
        Err(Fail::Said(refusal)) => {
            so_far.frames = noted(so_far.frames, refusal);
            Ok(())
        }
    }
}

/// Whether more than their code is asked of further methods: no code has a fault, and no frame is missing.
fn is_wanted(so_far: &Looking) -> bool
    ensures { IsTrue result ↔ ((so_far.now.bad ≡ None) × (so_far.now.frames.missing ≡ None)) }
{
    so_far.bad.is_none() && so_far.frames.missing.is_none()
}

/// Looks at one more method. Behind a fault of code, and behind a missing frame, its code is read and no more.
fn look_at(
    alloc: Global,
    class: &ClassFile,
    number: u32,
    names: &mut Names,
    so_far: &mut Looking,
) -> Result<(), Fail<Refusal>>
    requires exists { number < length class.now.methods }
    requires class { IsClassFile class.now }
    requires sizes { All (λ m. BodiesWithin most_read m.attributes) class.now.methods }
    requires text { IsReadable class.now }
    requires before { IsLooking names.old class.now number so_far.old }
    ensures looked { OnOk result (IsLooking names.new class.now (number + 1) so_far.new) }
    ensures few { OnOk result (places_kept so_far.new.bodies + so_far.new.left ≤ places_kept so_far.old.bodies + so_far.old.left) }
    ensures refused { IfErr result (λ e. Said e (IsSubroutineAt class.now number)) }
    ensures grows { Grows names.old names.new }
{
    match read_body(alloc, class, number, names) {
        Ok(Some(body)) => {
            if is_wanted(so_far) {
                look_at_body(alloc, body, names, so_far)?;
            }
            Ok(())
        }
        Ok(None) => Ok(()),
        Err(fail) => {
            so_far.bad = keep_first(so_far.bad, RefusalKind::Subroutine, fail)?;
            Ok(())
        }
    }
}

/// Looks at the methods of a class, one after the other (JVM Specification 4.7.3), with classes in their frames by their
/// numbers in `names`. A body is dropped before the next one is read, unless there is room for its states in the places
/// that are left. A subroutine instruction of any method is refused before anything else.
pub fn look_at_methods(
    alloc: Global,
    class: &ClassFile,
    left: usize,
    names: &mut Names,
) -> Result<Looking, Fail<Refusal>>
    requires class { IsClassFile class.now }
    requires sizes { All (λ m. BodiesWithin most_read m.attributes) class.now.methods }
    requires text { IsReadable class.now }
    ensures looked { IfOk result (IsLooking names.new class.now (length class.now.methods)) }
    ensures few { IfOk result (λ looked. places_kept looked.bodies ≤ left) }
    ensures refused { IfErr result (λ e. Said e (IsFirstCause (method_causes class.now))) }
    ensures grows { Grows names.old names.new }
{
    let mut so_far = Looking {
        bad: None,
        frames: FrameRefusals {
            missing: None,
            clash: None,
        },
        room: RoomRefusals {
            straddling: None,
            locals: None,
            stack: None,
        },
        bodies: List::new(alloc),
        probes: 0,
        left,
    };
    'looking: for number in 0..class.methods.len() {
        look_at(alloc, class, number as u32, names, &mut so_far)?;
    }
    Ok(so_far)
}
