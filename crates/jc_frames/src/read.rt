//! Reading a StackMapTable (JVM Specification 4.7.4).
ghost use Rattle.std.specs.Prelude.{◌≡◌, ◌<◌, ◌≤◌, ◌^◌, ℕ, List, length, map, IfOk, IfErr, All};
ghost use Rattle.jc_methods.specs.VerificationTypes.{TypeStateAt, type_state, type_state_at, Grows, IsNumberedState, AreNumberedFrames};
ghost use Rattle.jc_bytes.specs.Names.{met};
ghost use Rattle.jc_bytes.specs.Reader.{most_read};
ghost use Rattle.jc_methods.specs.WellMade.{IsKind, AreFramesFrom};
ghost use Rattle.jc_bytes.specs.declared.fail.Fail.TheVariants as fails;
ghost use Rattle.jc_frames.specs.Answers.{bad_frame, FailsAt, IsFrameRefusal, frame_names};
ghost use Rattle.jc_frames.specs.Frames.{ground};
ghost use Rattle.jc_frames.specs.Table.{StandsFor, TableFault, outcome_of, stands_for};
ghost use Rattle.jc_frames.specs.WellMade.{AreOffsets};

use crate::building::built_frame;
use crate::method::Method;
use crate::running::Running;
use crate::walk::{next_frame, table_count};
use jc_bytes::{Fail, Names, Reader, Refusal, RefusalKind};
use jc_methods::{FrameAt, Insn, State};
use jc_pool::Pool;
use std::alloc::Global;
use std::collections::HashMap;

/// The refusal of a table, at the number of a frame.
fn bad_frame(place: u32) -> Refusal
    ensures { result ≡ bad_frame place }
{
    Refusal {
        kind: RefusalKind::BadCode,
        method: None,
        place,
    }
}

/// The frames of a StackMapTable, in their order, with the state of each. Class names are numbered in the order in
/// which they are first met: frame by frame, those of the local variables before those of the stack.
///
/// # Errors
///
/// `Said` exactly where the table stands for no frames: bad code, of no method, at the number of the first frame
/// that is none or says nothing, from 0 on, or at 0 where the count of the frames is cut off or bytes are left
/// behind the last frame. `Memory` where memory was refused, or where `names` is full. Then `names` may have more
/// names.
pub fn read_frames(
    alloc: Global,
    table: &[u8],
    entry: &State,
    max_stack: u16,
    code: &[Insn],
    starts: &[u32],
    pool: &Pool,
    names: &mut Names,
) -> Result<Vec<FrameAt>, Fail<Refusal>>
    requires table { length table.now ≤ most_read }
    requires locals { length entry.now.locals < 2 ^ 32 }
    requires few { length starts.now < 2 ^ 32 }
    requires offsets { AreOffsets (length code.now) starts.now }
    requires numbered { IsNumberedState (length names.old) entry.now }
    // The table stands for the frames, whose class numbers are those of names.
    ensures frames { IfOk result (λ frames. StandsFor (ground pool.now code.now starts.now (length entry.now.locals) max_stack)
        (type_state names.old entry.now) table.now (map (type_state_at names.new) frames.items)) }
    ensures numbered { IfOk result (λ frames. AreNumberedFrames (length names.new) frames.items) }
    ensures well_made { All (IsKind code.now) entry.now.locals
        → IfOk result (λ frames. AreFramesFrom 0 code.now (length entry.now.locals) max_stack frames.items) }
    // A refusal says where the table is wrong.
    ensures refused { IfErr result (IsFrameRefusal (ground pool.now code.now starts.now (length entry.now.locals) max_stack)
        (type_state names.old entry.now) table.now) }
    // A table that stands for frames isn't refused, and one with a fault is, unless memory runs out.
    ensures stands { (frames : List TypeStateAt) → StandsFor (ground pool.now code.now starts.now (length entry.now.locals) max_stack)
        (type_state names.old entry.now) table.now frames → IfErr result (λ e. e ≡ fails.Memory) }
    ensures faulty { (place : ℕ) → TableFault (ground pool.now code.now starts.now (length entry.now.locals) max_stack)
        (type_state names.old entry.now) table.now place → IfOk result (λ frames. ⊥) }
    ensures names { IfOk result (λ frames. names.new ≡ met names.old (frame_names (map (type_state_at names.new) frames.items))) }
    ensures grows { Grows names.old names.new }
{
    let method = Method::new(
        alloc,
        entry.locals.len() as u32,
        max_stack,
        code,
        starts,
        pool,
    )?;
    found_frames(alloc, &method, table, entry, names)
}

/// The frames of a table, as the walk over it finds them out.
fn found_frames(
    alloc: Global,
    method: &Method<'_>,
    table: &[u8],
    entry: &State,
    names: &mut Names,
) -> Result<Vec<FrameAt>, Fail<Refusal>>
    requires table { length table.now ≤ most_read }
    requires locals { length entry.now.locals < 2 ^ 32 }
    requires as_many { method.now.max_locals ≡ length entry.now.locals }
    requires numbered { IsNumberedState (length names.old) entry.now }
    ensures frames { IfOk result (λ frames. outcome_of method.now (type_state names.old entry.now) table.now
        ≡ stands_for (map (type_state_at names.new) frames.items)) }
    ensures numbered { IfOk result (λ frames. AreNumberedFrames (length names.new) frames.items) }
    ensures refused { IfErr result (FailsAt (outcome_of method.now (type_state names.old entry.now) table.now)) }
    ensures names { IfOk result (λ frames. names.new ≡ met names.old (frame_names (map (type_state_at names.new) frames.items))) }
    ensures grows { Grows names.old names.new }
{
    let mut running = Running::first(alloc, entry)?;
    let mut known = HashMap::new(alloc);
    let mut frames = Vec::new(alloc);
    let mut reader = Reader::new(table);
    let Some(count) = table_count(&mut reader) else {
        return Err(Fail::Said(bad_frame(0)));
    };
    'reading: for number in 0..count {
        match next_frame(alloc, method, &mut reader, &mut running)? {
            Some(frame) => {
                frames.push(built_frame(alloc, method, &running, &frame, &mut known, names)?)?;
            }
            None => return Err(Fail::Said(bad_frame(u32::from(number)))),
        }
    }
    if reader.u8().is_ok() {
        return Err(Fail::Said(bad_frame(0)));
    }
    Ok(frames)
}
