//! The bodies of a class, ready for their instrumented code to be written.
ghost use Rattle.std.specs.Prelude.{◌≡◌, ◌≤◌, ◌<◌, ◌++◌, ◌∷◌, [], false, List as Seq, All, IfOk, IfErr};
ghost use Rattle.jc_methods.specs.VerificationTypes.{Grows};
ghost use Rattle.jc_methods.specs.declared.body.Body.{Body};
ghost use Rattle.jc_bytes.specs.Reader.{most_read};
ghost use Rattle.jc_class.specs.Sizes.{BodiesWithin};
ghost use Rattle.jc_class.specs.Writable.{IsClassFile};
ghost use Rattle.jc_bytes.specs.Failing.{Said};
ghost use Rattle.jc_methods.specs.ProbeMembers.{most_probes};
ghost use Rattle.jc_instrument.specs.Bodies.{IsReadable};
ghost use Rattle.jc_instrument.specs.Causes.{IsFirstCause, NoCause};
ghost use Rattle.jc_instrument.specs.Constants.{AreConstants};
ghost use Rattle.jc_instrument.specs.Looking.{RoomSoFar};
ghost use Rattle.jc_instrument.specs.Ready.{ArePlanned};
ghost use Rattle.jc_instrument.specs.RoomCauses.{HasTooLargeCode, early_room_causes};
ghost use Rattle.jc_instrument.specs.Steps.{AreCheckedUnder};
ghost use Rattle.jc_instrument.specs.Found.{first_of};
ghost use Rattle.jc_instrument.specs.LeftAlone.{is_left_alone};
ghost use Rattle.jc_instrument.specs.ReadyClass.{IsReadyClass, making_causes};

use crate::constants::{ProbeConstants, probe_constants};
use crate::found::frame_refusal;
use crate::layouts::lay_out_bodies;
use crate::looking::{Looking, look_at_methods};
use crate::ready::PlannedBody;
use crate::room::room_for_probes;
use jc_bytes::{Fail, List, Names, Refusal};
use jc_class::ClassFile;
use std::alloc::Global;

/// How many places the states of bodies may take that are kept until their code is written.
const MOST_KEPT_PLACES: usize = 1_048_576;

/// The bodies of a class whose instrumented code is to be written.
#[derive(Debug, Drop)]
pub struct ReadyClass {
    /// The bodies, in the order of their methods.
    pub bodies: List<PlannedBody>,
    /// How many probes there are.
    pub probes: u32,
    /// The number of the bootstrap method that is added, 0 where none is.
    pub bootstrap: u16,
    /// The constants that the code of the bodies loads.
    pub constants: ProbeConstants,
}

/// The first refusal of the code and the frames of methods, if there is one.
fn code_refusal(looked: &Looking) -> Option<Refusal>
    ensures { result ≡ first_of looked.now.bad (first_of looked.now.frames.missing looked.now.frames.clash) }
{
    if let Some(refusal) = looked.bad {
        return Some(refusal);
    }
    frame_refusal(&looked.frames)
}

/// The bodies of a class that were looked at, in whose code and frames nothing is refused, ready for their instrumented code to be
/// written; or the first refusal, in their order, of those for want of room.
fn with_layouts(
    alloc: Global,
    class: &ClassFile,
    looked: Looking,
    names: &mut Names,
) -> Result<ReadyClass, Fail<Refusal>>
    requires class { IsClassFile class.now }
    requires sizes { All (λ m. BodiesWithin most_read m.attributes) class.now.methods }
    requires changes { is_left_alone class.now ≡ false }
    requires bodies { (bodies : Seq Body) × AreCheckedUnder names.old class.now bodies × RoomSoFar names.old bodies looked }
    ensures ready { (bodies : Seq Body) → AreCheckedUnder names.old class.now bodies → RoomSoFar names.old bodies looked
        → IfOk result (λ r. ArePlanned names.new r.constants bodies r.bodies) }
    ensures probes { IfOk result (λ r. r.probes ≡ looked.probes) }
    ensures loads { IfOk result (λ r. AreConstants class.now r.probes r.bootstrap r.constants) }
    ensures few { IfOk result (λ r. r.probes ≤ most_probes) }
    ensures number { IfOk result (λ r. r.bootstrap < 65535) }
    ensures no_cause { IfOk result (λ _. NoCause (early_room_causes class.now ++ HasTooLargeCode class.now ∷ [])) }
    ensures refused { IfErr result (λ e. Said e (IsFirstCause (early_room_causes class.now ++ HasTooLargeCode class.now ∷ []))) }
    ensures grows { Grows names.old names.new }
{
    let Looking {
        room,
        bodies,
        probes,
        ..
    } = looked;
    let bootstrap = match room_for_probes(class, &room, probes) {
        Ok(bootstrap) => bootstrap,
        Err(refusal) => return Err(Fail::Said(refusal)),
    };
    let constants = probe_constants(alloc, class, bootstrap, probes)?;
    let bodies = lay_out_bodies(alloc, class, bodies, &constants, names)?;
    Ok(ReadyClass {
        bodies,
        probes,
        bootstrap,
        constants,
    })
}

/// The bodies of a class that doesn't stay as it is, with classes in their frames by their numbers in `names`; or the
/// first refusal, in their order, of those that are looked for in code and in layouts.
pub fn ready_class(
    alloc: Global,
    class: &ClassFile,
    names: &mut Names,
) -> Result<ReadyClass, Fail<Refusal>>
    requires class { IsClassFile class.now }
    requires sizes { All (λ m. BodiesWithin most_read m.attributes) class.now.methods }
    requires text { IsReadable class.now }
    requires changes { is_left_alone class.now ≡ false }
    ensures ready { IfOk result (IsReadyClass names.new class.now) }
    ensures few { IfOk result (λ r. r.probes ≤ most_probes) }
    ensures number { IfOk result (λ r. r.bootstrap < 65535) }
    ensures refused { IfErr result (λ e. Said e (IsFirstCause (making_causes class.now))) }
{
    let looked = look_at_methods(alloc, class, MOST_KEPT_PLACES, names)?;
    if let Some(refusal) = code_refusal(&looked) {
        return Err(Fail::Said(refusal));
    }
    with_layouts(alloc, class, looked, names)
}
