//! Whether a class has room for its probes, as far as this is known before its code is made.
ghost use Rattle.std.specs.Prelude.{◌≡◌, ◌≤◌, ◌<◌, ◌↔◌, ◌∷◌, [], false, List as Seq, None, IsTrue, IfErr, IfOk, length};
ghost use Rattle.jc_methods.specs.ProbeMembers.{fetch_of, most_probes};
ghost use Rattle.jc_methods.specs.declared.body.Body.{Body};
ghost use Rattle.jc_plan.specs.Analysed.{all_probes};
ghost use Rattle.jc_instrument.specs.Bodies.{AreBodiesOf};
ghost use Rattle.jc_instrument.specs.Causes.{FirstCause, IsFirstCause, NoCause, of_class as class_refusal_of};
ghost use Rattle.jc_instrument.specs.Needed.{GetsBy};
ghost use Rattle.jc_instrument.specs.Found.{HasRoomSoFar};
ghost use Rattle.jc_instrument.specs.LeftAlone.{is_left_alone};
ghost use Rattle.jc_instrument.specs.Room.{AreFirstLacks};
ghost use Rattle.jc_instrument.specs.RoomCauses.{HasTooManyProbes, IsFull, HasFullMembers, early_room_causes};

use crate::bootstraps::next_bootstrap;
use crate::found::{ONE_TOO_MANY, RoomRefusals};
use jc_bytes::{Refusal, RefusalKind};
use jc_class::ClassFile;
use jc_methods::{Fetch, MOST_PROBES, fetch_of};

/// The most fields and the most methods that a class has (JVM Specification 4.1).
const MOST_MEMBERS: usize = 65_535;

/// A refusal of the class as a whole.
fn of_class(kind: RefusalKind, place: u32) -> Refusal
    ensures { result ≡ class_refusal_of kind place }
{
    Refusal {
        kind,
        method: None,
        place,
    }
}

/// Whether no number is left for one more method or, where one is added, for one more field.
fn is_full(class: &ClassFile) -> bool
    requires fields { length class.now.fields ≤ 65535 }
    requires methods { length class.now.methods ≤ 65535 }
    ensures { IsTrue result ↔ IsFull (fetch_of class.now.major) class.now }
{
    let methods = class.methods.len() == MOST_MEMBERS;
    match fetch_of(class.major) {
        Fetch::Member => class.fields.len() == MOST_MEMBERS || methods,
        Fetch::Constant => methods,
    }
}

/// Why the class has too many probes or members, if it has.
fn count_refusal(class: &ClassFile, probes: u32) -> Option<Refusal>
    requires fields { length class.now.fields ≤ 65535 }
    requires methods { length class.now.methods ≤ 65535 }
    ensures first { (bodies : Seq Body) → AreBodiesOf class.now bodies → probes ≡ all_probes bodies
        → FirstCause (HasTooManyProbes class.now ∷ HasFullMembers class.now ∷ []) result }
    ensures few { result ≡ None → probes ≤ most_probes }
{
    if probes > MOST_PROBES {
        return Some(of_class(RefusalKind::TooManyProbes, probes));
    }
    if is_full(class) {
        return Some(of_class(RefusalKind::MembersFull, ONE_TOO_MANY));
    }
    None
}

/// The number of the bootstrap method that is added to the class, 0 where none is added, if the class has room for its probes. Else
/// why there is none, as far as this is known before its code is made: a long or a double at the last argument of any method, too
/// many probes, too many members, no bootstrap method that can be added, no local variable left in any method, or no room on the
/// stack of one.
pub fn room_for_probes(class: &ClassFile, first: &RoomRefusals, probes: u32) -> Result<u16, Refusal>
    requires changes { is_left_alone class.now ≡ false }
    requires fields { length class.now.fields ≤ 65535 }
    requires methods { length class.now.methods ≤ 65535 }
    requires attributes { length class.now.attributes ≤ 65535 }
    ensures none { (bodies : Seq Body) → AreBodiesOf class.now bodies → AreFirstLacks bodies first.now → probes ≡ all_probes bodies
        → IfOk result (λ _. NoCause (early_room_causes class.now)) }
    ensures refused { (bodies : Seq Body) → AreBodiesOf class.now bodies → AreFirstLacks bodies first.now → probes ≡ all_probes bodies
        → IfErr result (IsFirstCause (early_room_causes class.now)) }
    ensures room { IfOk result (λ _. HasRoomSoFar first.now) }
    ensures few { IfOk result (λ _. probes ≤ most_probes) }
    ensures gets { IfOk result (GetsBy class.now (fetch_of class.now.major)) }
    ensures number { IfOk result (λ bootstrap. bootstrap < 65535) }
{
    if let Some(refusal) = first.straddling {
        return Err(refusal);
    }
    if let Some(refusal) = count_refusal(class, probes) {
        return Err(refusal);
    }
    let bootstrap = next_bootstrap(class)?;
    if let Some(refusal) = first.locals {
        return Err(refusal);
    }
    match first.stack {
        Some(refusal) => Err(refusal),
        None => Ok(bootstrap),
    }
}
