//! Longs and doubles that the array of probes would cut apart.
ghost use Rattle.std.specs.Prelude.{◌≡◌, ◌↔◌, ◌∷◌, [], IsTrue};
ghost use Rattle.jc_methods.specs.WellMade.{IsCounted};
ghost use Rattle.jc_kinds_after.specs.Shift.{Straddles};
ghost use Rattle.jc_kinds.specs.StateShift.{FrameStraddles};
ghost use Rattle.jc_emit.specs.Straddling.{InsnStraddles, FramesStraddle, IsFirstOf, IsFirstStraddling, lesser};

use jc_methods::{Body, FrameAt, Insn};

/// Whether an instruction reads or writes a long or a double of which the last argument has the
/// first half: the first of its local variables is among the arguments, and not each of them is.
fn insn_straddles(insn: &Insn, arg_slots: u16) -> bool
    ensures { IsTrue result ↔ Straddles arg_slots insn.now }
{
    match insn.slot() {
        Some(slot) => slot < arg_slots && !insn.locals_within(arg_slots),
        None => false,
    }
}

/// Whether a frame has a long or a double of which the last argument has the first half.
fn frame_straddles(frame: &FrameAt, arg_slots: u16) -> bool
    ensures { IsTrue result ↔ FrameStraddles arg_slots frame.now }
{
    if arg_slots == 0 {
        return false;
    }
    let last = usize::from(arg_slots) - 1;
    let locals = frame.state.locals.as_slice();
    last < locals.len() && locals[last].slots() == 2
}

/// The lesser of two places, where there are two.
fn lesser(one: Option<u32>, other: Option<u32>) -> Option<u32>
    ensures { result ≡ lesser one other }
{
    match (one, other) {
        (Some(a), Some(b)) => Some(if a < b { a } else { b }),
        (Some(a), None) => Some(a),
        (None, other) => other,
    }
}

/// The first instruction that straddles.
fn first_insn(code: &[Insn], arg_slots: u16) -> Option<u32>
    requires { IsCounted code.now }
    ensures { IsFirstOf (InsnStraddles arg_slots code.now) result }
{
    'seeking: for (at, insn) in code.iter().enumerate() {
        if insn_straddles(insn, arg_slots) {
            return Some(at as u32);
        }
    }
    None
}

/// The instruction at which a frame stands, if the frame straddles.
fn frame_place(frame: &FrameAt, arg_slots: u16) -> Option<u32>
    ensures { IsFirstOf (FramesStraddle arg_slots (frame.now ∷ [])) result }
{
    if frame_straddles(frame, arg_slots) {
        Some(frame.at)
    } else {
        None
    }
}

/// The first instruction at which a frame straddles.
fn first_frame(frames: &[FrameAt], arg_slots: u16) -> Option<u32>
    ensures { IsFirstOf (FramesStraddle arg_slots frames.now) result }
{
    let mut first = None;
    'seeking: for frame in frames {
        first = lesser(first, frame_place(frame, arg_slots));
    }
    first
}

/// The first instruction of a method that reads or writes a long or a double in the last local
/// variable of the arguments and the next one, or at which a stack map frame has one there (JVM
/// Specification 2.6.1, 4.10.1.4).
///
/// A method that has one isn't instrumented, since the array of probes would stand between the two
/// local variables.
pub fn straddles(body: &Body) -> Option<u32>
    requires { IsCounted body.now.code }
    ensures { IsFirstStraddling body.now result }
{
    lesser(
        first_insn(&body.code, body.arg_slots),
        first_frame(&body.frames, body.arg_slots),
    )
}
