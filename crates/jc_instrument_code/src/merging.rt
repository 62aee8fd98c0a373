//! The frames of a layout.
ghost use Rattle.std.specs.Prelude.{◌≡◌, IfOk};
ghost use Rattle.jc_methods.specs.FrameOrder.{RiseFrom};
ghost use Rattle.jc_methods.specs.Widened.{listed};
ghost use Rattle.jc_layout.specs.Merged.{is_used_by, merged as merged_list, used_frames};
ghost use Rattle.jc_instrument_code.specs.Merging.{other_first, same_first};

use jc_bytes::{List, Memory, TryClone};
use jc_methods::{FrameAt, is_listed};
use std::alloc::Global;

/// Whether the first of the other frames comes next.
fn is_other_next(frames: &[FrameAt], others: &[FrameAt]) -> bool
    ensures { result ≡ other_first frames.now others.now }
{
    if others.is_empty() {
        return false;
    }
    if frames.is_empty() {
        return true;
    }
    others[0].at < frames[0].at
}

/// Whether the first of the other frames stands where the first of these does.
fn is_other_there(frames: &[FrameAt], others: &[FrameAt]) -> bool
    ensures { result ≡ same_first frames.now others.now }
{
    !frames.is_empty() && !others.is_empty() && others[0].at == frames[0].at
}

/// The frames of both lists in the order of their places (JVM Specification 4.7.4), one at each place, as for a layout
/// of instrumented code: the first list has the frames of the emitted code, and the second those behind wide jumps. Where both have a frame at a place, that of the first list stays.
///
/// # Errors
///
/// `Memory` where memory was refused.
pub fn merged_frames(
    alloc: Global,
    frames: &[FrameAt],
    others: &[FrameAt],
) -> Result<List<FrameAt>, Memory>
    requires frames { RiseFrom 0 frames.now }
    requires others { RiseFrom 0 others.now }
    ensures { IfOk result (λ all. all ≡ merged_list frames.now others.now) }
{
    let mut all = List::new(alloc);
    let mut at = 0;
    let mut other = 0;
    'merging: while at < frames.len() || other < others.len() {
        if is_other_next(&frames[at..], &others[other..]) {
            let next = others[other].try_clone(alloc)?;
            all.push(next)?;
            other += 1;
        } else if is_other_there(&frames[at..], &others[other..]) {
            other += 1;
        } else {
            let next = frames[at].try_clone(alloc)?;
            all.push(next)?;
            at += 1;
        }
    }
    Ok(all)
}

/// Whether the frame stands directly behind a wide jump.
fn is_used(frame: &FrameAt, wide: &[bool]) -> bool
    ensures { result ≡ is_used_by (listed wide.now) frame.now.at }
{
    frame.at > 0 && is_listed(wide, frame.at as usize - 1)
}

/// Of the frames behind conditional jumps those behind wide ones, which the frames of a layout are
/// merged with.
///
/// # Errors
///
/// `Memory` where memory was refused.
pub fn used_frames(
    alloc: Global,
    frames: &[FrameAt],
    wide: &[bool],
) -> Result<List<FrameAt>, Memory>
    ensures { IfOk result (λ used. used ≡ used_frames (listed wide.now) frames.now) }
{
    let mut used = List::new(alloc);
    'using: for frame in frames {
        if is_used(frame, wide) {
            used.push(frame.try_clone(alloc)?)?;
        }
    }
    Ok(used)
}
