//! The frames of a body by the instructions at which they stand.
ghost use Rattle.std.specs.Prelude.{◌≡◌, ◌≤◌, length, option_copied};
ghost use Rattle.jc_methods.specs.WellMade.{IsWellMade};
ghost use Rattle.jc_kinds.specs.Frames.{frame_in, numbered_frame};
ghost use Rattle.jc_refs_check.specs.FrameNumbers.{StandsBehind};

use jc_methods::{Body, State};

/// The number of the first frame at an instruction or behind it.
pub fn frame_number(body: &Body, at: u32) -> usize
    requires { IsWellMade body.now }
    ensures { StandsBehind body.now.frames at result }
{
    body.frames.partition_point(|frame| frame.at < at)
}

/// What the frame at an instruction says, if one stands there.
pub fn frame_at(body: &Body, at: u32) -> Option<&State>
    requires { IsWellMade body.now }
    ensures { option_copied result ≡ frame_in body.now.frames at }
{
    let frame = body.frames.get(frame_number(body, at))?;
    if frame.at == at {
        Some(&frame.state)
    } else {
        None
    }
}
