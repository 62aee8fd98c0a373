//! The first refusals that are found while the bodies of a class are looked at.
ghost use Rattle.std.specs.Prelude.{◌≡◌, ◌↔◌, IsTrue};
ghost use Rattle.jc_methods.specs.WellMade.{IsWellMade};
ghost use Rattle.jc_instrument.specs.Found.{AreFramesFine, HasRoomSoFar, KeepsLack, first_of, noted};
ghost use Rattle.jc_instrument.specs.Room.{IsWhereItLacks};

use jc_bytes::{Refusal, RefusalKind};
use jc_emit::straddles;
use jc_methods::Body;

/// The most local variables that a method has (JVM Specification 4.7.3).
const MOST_LOCALS: u16 = 65_535;

/// The largest stack on which there is room for the three operands of a probe (JVM Specification 4.7.3).
const MOST_STACK: u16 = 65_532;

/// The place of a refusal for want of a number of two bytes.
pub const ONE_TOO_MANY: u32 = 65_536;

/// The first refusals of the kind check.
#[derive(Clone, Copy, Debug)]
pub struct FrameRefusals {
    /// The first missing frame.
    pub missing: Option<Refusal>,
    /// The first clash.
    pub clash: Option<Refusal>,
}

/// The first refusals for want of room, by their kinds.
#[derive(Clone, Copy, Debug)]
pub struct RoomRefusals {
    /// A long or a double at the last argument.
    pub straddling: Option<Refusal>,
    /// No local variable left.
    pub locals: Option<Refusal>,
    /// No room on the stack.
    pub stack: Option<Refusal>,
}

/// Whether no body was refused by the kind check.
pub fn are_frames_fine(first: &FrameRefusals) -> bool
    ensures { IsTrue result ↔ AreFramesFine first.now }
{
    first.missing.is_none() && first.clash.is_none()
}

/// The first refusal of the kind check, if there is one: a missing frame of any body comes before a clash.
pub fn frame_refusal(first: &FrameRefusals) -> Option<Refusal>
    ensures { result ≡ first_of first.now.missing first.now.clash }
{
    if let Some(refusal) = first.missing {
        return Some(refusal);
    }
    first.clash
}

/// Whether no body lacks room.
pub fn has_room_so_far(first: &RoomRefusals) -> bool
    ensures { IsTrue result ↔ HasRoomSoFar first.now }
{
    first.straddling.is_none() && first.locals.is_none() && first.stack.is_none()
}

/// The first refusals once one more body was refused by the kind check.
pub fn noted(first: FrameRefusals, refusal: Refusal) -> FrameRefusals
    ensures { result ≡ noted refusal.kind refusal first }
{
    match refusal.kind {
        RefusalKind::FrameMissing => FrameRefusals {
            missing: Some(first.missing.unwrap_or(refusal)),
            clash: first.clash,
        },
        _ => FrameRefusals {
            missing: first.missing,
            clash: Some(first.clash.unwrap_or(refusal)),
        },
    }
}

/// Where the body has no number left for one more local variable, if it has none.
fn locals_lack(body: &Body) -> Option<u32>
    ensures { IsWhereItLacks RefusalKind.LocalsFull body.now result }
{
    if body.max_locals == MOST_LOCALS {
        Some(ONE_TOO_MANY)
    } else {
        None
    }
}

/// How many slots the stack would need, if it has no room for the operands of a probe.
fn stack_lack(body: &Body) -> Option<u32>
    ensures { IsWhereItLacks RefusalKind.StackFull body.now result }
{
    if body.max_stack > MOST_STACK {
        Some(u32::from(body.max_stack) + 3)
    } else {
        None
    }
}

/// The first refusal of this kind once one more body is looked at, which lacks room at this place, if it does.
fn first_lack(
    first: Option<Refusal>,
    kind: RefusalKind,
    body: &Body,
    lack: Option<u32>,
) -> Option<Refusal>
    requires { IsWhereItLacks kind body.now lack }
    ensures { KeepsLack kind body.now first result }
{
    if first.is_some() {
        return first;
    }
    let place = lack?;
    Some(Refusal {
        kind,
        method: Some(body.method),
        place,
    })
}

/// The first refusals once one more body is looked at.
pub fn lacks(first: RoomRefusals, body: &Body) -> RoomRefusals
    requires { IsWellMade body.now }
    ensures straddling { KeepsLack RefusalKind.StraddlingLocal body.now first.straddling result.straddling }
    ensures locals { KeepsLack RefusalKind.LocalsFull body.now first.locals result.locals }
    ensures stack { KeepsLack RefusalKind.StackFull body.now first.stack result.stack }
{
    let straddling = straddles(body);
    let locals = locals_lack(body);
    let stack = stack_lack(body);
    RoomRefusals {
        straddling: first_lack(
            first.straddling,
            RefusalKind::StraddlingLocal,
            body,
            straddling,
        ),
        locals: first_lack(first.locals, RefusalKind::LocalsFull, body, locals),
        stack: first_lack(first.stack, RefusalKind::StackFull, body, stack),
    }
}
