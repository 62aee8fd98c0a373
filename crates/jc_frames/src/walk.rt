//! The frames of a table one after the other.
ghost use Rattle.std.specs.Prelude.{◌≡◌, ◌<◌, ◌^◌, ℕ, IfOk, OnOk, IfSome, OnSome, IfNone, All, option_map};
ghost use Rattle.jc_bytes.specs.Decoder.{number_at};
ghost use Rattle.jc_methods.specs.VerificationTypes.{Names};
ghost use Rattle.jc_bytes.specs.Parsing.{Good, Bad, item};
ghost use Rattle.jc_frames.specs.Running.{IsUnnumbered, IsNumberedValue, IsRunning, before, found_as};
ghost use Rattle.jc_frames.specs.TableReading.{frame_item_at};
ghost use Rattle.jc_frames.specs.NextFrame.{with_rest, read_frame};

use crate::method::Method;
use crate::reading::frame_item;
use crate::running::{Frame, Running};
use jc_bytes::{Fail, Memory, Reader};
use std::alloc::Global;

/// How many frames a table has, by the count in front.
pub fn table_count(reader: &mut Reader<'_>) -> Option<u16>
    ensures count { IfSome result (λ count. item (number_at 2) reader.old.left ≡ Good count reader.new.left) }
    ensures none { IfNone result (item (number_at 2) reader.old.left ≡ Bad reader.old.left) }
{
    reader.u16().ok()
}

/// The next frame, where one stands in front that says something. Then the reader stands behind it, and the
/// next one depends on the new values.
///
/// # Errors
///
/// `Memory` where memory was refused.
pub fn next_frame(
    alloc: Global,
    method: &Method<'_>,
    reader: &mut Reader<'_>,
    running: &mut Running,
) -> Result<Option<Frame>, Memory>
    requires running { IsRunning running.old }
    requires locals { method.now.max_locals < 2 ^ 32 }
    ensures says { (names : Names) → IfOk result (λ frame.
        read_frame method.now (before method.now.pool names running.old) (frame_item_at reader.old.left)
        ≡ option_map (λ f. with_rest reader.new.left (found_as method.now names running.new f)) frame) }
    ensures running { IfOk result (λ frame. OnSome frame (IsRunning running.new)) }
    ensures unnumbered { IfOk result (λ frame. IfSome frame (λ f. All IsUnnumbered f.stack.items)) }
    ensures numbered { (count : ℕ) → All (IsNumberedValue count) running.old.values.items
        → OnOk result (All (IsNumberedValue count) running.new.values.items) }
{
    match frame_item(alloc, reader) {
        Ok(item) => running.follow(alloc, method, &item),
        Err(Fail::Memory) => Err(Memory),
        Err(Fail::Said(_)) => Ok(None),
    }
}
