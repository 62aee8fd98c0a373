//! The frames of a body by the instructions at which they stand.
ghost use Rattle.std.specs.Prelude.{◌≡◌, ◌<◌, length, All, IfOk, option_copied};
ghost use Rattle.jc_kinds.specs.Frames.{frame_in, AreNumbers, IsNumbered};

use jc_bytes::Memory;
use jc_methods::{Body, FrameAt, State};
use std::alloc::Global;

/// A body whose frames are found by the instructions at which they stand.
#[derive(Clone, Copy)]
pub struct Framed<'a> {
    pub body: &'a Body,
    /// For each instruction the number of the frame that stands there, or the number of frames where none does.
    pub numbers: &'a [u32],
}

/// For each of so many instructions the number of the frame that stands there, or the number of frames where
/// none does.
///
/// # Errors
///
/// `Memory` where memory was refused.
pub fn frame_numbers(alloc: Global, frames: &[FrameAt], count: usize) -> Result<Vec<u32>, Memory>
    requires few { length frames.now < 4294967296 }
    requires within { All (λ f. f.at < count) frames.now }
    ensures { IfOk result (λ numbers. AreNumbers frames.now count numbers.items) }
{
    let mut number = frames.len();
    let mut numbers = vec![in alloc; number as u32; count]?;
    'numbering: while number > 0 {
        number -= 1;
        numbers[frames[number].at as usize] = number as u32;
    }
    Ok(numbers)
}

/// What the frame at an instruction says, if one stands there.
pub fn frame_at<'a>(framed: &Framed<'a>, at: u32) -> Option<&'a State>
    requires { IsNumbered framed.now }
    ensures { option_copied result ≡ frame_in framed.now.body.now.frames at }
{
    let number = framed.numbers.get(at as usize)?;
    let frame = framed.body.frames.get(*number as usize)?;
    Some(&frame.state)
}
