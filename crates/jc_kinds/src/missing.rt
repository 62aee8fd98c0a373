//! Instructions that need a stack map frame (JVM Specification 4.10.1.6).
ghost use Rattle.std.specs.Prelude.{◌≡◌, ◌<◌, length, All, IfOk, OnOk, MatchOption};
ghost use Rattle.jc_methods.specs.Flow.{targets_of, is_fallen_into};
ghost use Rattle.jc_methods.specs.InsnUse.{LeadsWithin};
ghost use Rattle.jc_bytes.specs.Least.{IsNowhere};
ghost use Rattle.jc_methods.specs.WellMade.{IsWellMade};
ghost use Rattle.jc_kinds.specs.Checked.{IsMissing, FirstMissing};
ghost use Rattle.jc_kinds.specs.Checking.{needs_frame, is_missing};
ghost use Rattle.jc_kinds.specs.Frames.{IsNumbered};
ghost use Rattle.jc_kinds.specs.Marking.{MarksWhere, is_among, leads_to, begins_handler, AreTargets};

use crate::frames::{Framed, frame_at};
use jc_bytes::Memory;
use jc_methods::{Body, Handler, Insn};
use std::alloc::Global;

/// Marks places.
fn mark_each(marks: &mut [bool], places: &[u32])
    requires { All (λ place. place < length marks.old) places.now }
    ensures { MarksWhere marks.old marks.new (is_among places.now) }
{
    'marking: for place in places {
        marks[*place as usize] = true;
    }
}

/// Marks the places to which an instruction may jump.
fn mark_insn(alloc: Global, insn: &Insn, marks: &mut [bool]) -> Result<(), Memory>
    requires { LeadsWithin (length marks.old) insn.now }
    ensures { OnOk result (MarksWhere marks.old marks.new (is_among (targets_of insn.now))) }
{
    match insn {
        Insn::Jump { to, .. } => {
            mark_each(marks, &[*to]);
            Ok(())
        }
        Insn::Table { .. } | Insn::Lookup { .. } => {
            let targets = insn.targets(alloc)?;
            mark_each(marks, &targets);
            Ok(())
        }
        _ => Ok(()),
    }
}

/// Marks the instructions to which others may jump.
fn mark_targets(alloc: Global, code: &[Insn], marks: &mut [bool]) -> Result<(), Memory>
    requires { All (LeadsWithin (length marks.old)) code.now }
    ensures { OnOk result (MarksWhere marks.old marks.new (leads_to code.now)) }
{
    'marking: for insn in code {
        mark_insn(alloc, insn, marks)?;
    }
    Ok(())
}

/// Marks the instructions at which handlers begin.
fn mark_handlers(handlers: &[Handler], marks: &mut [bool])
    requires { All (λ h. h.target < length marks.old) handlers.now }
    ensures { MarksWhere marks.old marks.new (begins_handler handlers.now) }
{
    'marking: for handler in handlers {
        marks[handler.target as usize] = true;
    }
}

/// For each instruction whether it is the target of a jump, of a switch or of an exception row.
fn marks_of(alloc: Global, body: &Body) -> Result<Vec<bool>, Memory>
    requires { IsWellMade body.now }
    ensures { IfOk result (λ marks. AreTargets body.now marks.items) }
{
    let mut marks = vec![in alloc; false; body.code.len()]?;
    mark_targets(alloc, &body.code, &mut marks)?;
    mark_handlers(&body.handlers, &mut marks);
    Ok(marks)
}

/// Whether control may fall into an instruction from the one before it.
fn falls_into(body: &Body, at: usize) -> bool
    requires { at < length body.now.code }
    ensures { result ≡ is_fallen_into body.now.code at }
{
    at != 0 && body.code[at - 1].falls_through()
}

/// Whether an instruction needs a frame.
fn needs_frame(body: &Body, marks: &[bool], at: usize) -> bool
    requires within { at < length body.now.code }
    requires marks { AreTargets body.now marks.now }
    ensures { result ≡ needs_frame body.now at }
{
    marks[at] || (at != 0 && !falls_into(body, at))
}

/// Whether an instruction needs a frame that isn't there.
fn is_missing(framed: &Framed<'_>, marks: &[bool], at: usize) -> bool
    requires within { at < length framed.now.body.now.code }
    requires few { length framed.now.body.now.code < 4294967296 }
    requires marks { AreTargets framed.now.body.now marks.now }
    requires numbers { IsNumbered framed.now }
    ensures { result ≡ is_missing framed.now.body.now at }
{
    needs_frame(framed.body, marks, at) && frame_at(framed, at as u32).is_none()
}

/// The first instruction that needs a frame that isn't there.
///
/// # Errors
///
/// `Memory` where memory was refused.
pub fn first_missing(alloc: Global, framed: &Framed<'_>) -> Result<Option<u32>, Memory>
    requires body { IsWellMade framed.now.body.now }
    requires numbers { IsNumbered framed.now }
    ensures { IfOk result (λ found.
        MatchOption found (IsNowhere (IsMissing framed.now.body.now)) (FirstMissing framed.now.body.now)) }
{
    let marks = marks_of(alloc, framed.body)?;
    'seeking: for at in 0..framed.body.code.len() {
        if is_missing(framed, &marks, at) {
            return Ok(Some(at as u32));
        }
    }
    Ok(None)
}
