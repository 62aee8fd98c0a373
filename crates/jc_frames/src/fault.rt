//! Where a StackMapTable is wrong (JVM Specification 4.7.4).
ghost use Rattle.std.specs.Prelude.{◌≡◌, ◌<◌, ◌≤◌, ◌^◌, ℕ, List, length, IfOk, Some, None};
ghost use Rattle.jc_methods.specs.VerificationTypes.{Names, TypeStateAt, type_state};
ghost use Rattle.jc_bytes.specs.Reader.{most_read};
ghost use Rattle.jc_frames.specs.Frames.{ground};
ghost use Rattle.jc_frames.specs.Table.{StandsFor, TableFault, IsFaultPlace, outcome_of, fault_of};
ghost use Rattle.jc_frames.specs.WellMade.{AreOffsets};

use crate::method::Method;
use crate::running::Running;
use crate::walk::{next_frame, table_count};
use jc_bytes::{Memory, Reader};
use jc_methods::{Insn, State};
use jc_pool::Pool;
use std::alloc::Global;

/// The place at which a StackMapTable is wrong: the number of the first frame that is none or says nothing, from
/// 0 on, or 0 where the count of the frames is cut off or bytes are left behind the last frame. `None` where the
/// table stands for frames. No states are built: this takes as long as the table is, whatever the number of local
/// variables is.
///
/// # Errors
///
/// `Memory` where memory was refused.
pub fn frame_fault(
    alloc: Global,
    table: &[u8],
    entry: &State,
    max_stack: u16,
    code: &[Insn],
    starts: &[u32],
    pool: &Pool,
) -> Result<Option<u32>, Memory>
    requires table { length table.now ≤ most_read }
    requires locals { length entry.now.locals < 2 ^ 32 }
    requires few { length starts.now < 2 ^ 32 }
    requires offsets { AreOffsets (length code.now) starts.now }
    // The table stands for frames, or has its fault at the place that is given.
    ensures answer { (names : Names) → let g = ground pool.now code.now starts.now (length entry.now.locals) max_stack in
        IfOk result (IsFaultPlace g (type_state names entry.now) table.now) }
    // A table that stands for frames has no place, and one with a fault has that of the fault, unless memory runs out.
    ensures stands { (names : Names) (frames : List TypeStateAt)
        → let g = ground pool.now code.now starts.now (length entry.now.locals) max_stack in
        StandsFor g (type_state names entry.now) table.now frames → IfOk result (λ fault. fault ≡ None) }
    ensures faulty { (names : Names) (place : ℕ) → let g = ground pool.now code.now starts.now (length entry.now.locals) max_stack in
        TableFault g (type_state names entry.now) table.now place → IfOk result (λ fault. fault ≡ Some place) }
{
    let method = Method::new(
        alloc,
        entry.locals.len() as u32,
        max_stack,
        code,
        starts,
        pool,
    )?;
    found_fault(alloc, &method, table, entry)
}

/// The same, as reading finds it out.
fn found_fault(
    alloc: Global,
    method: &Method<'_>,
    table: &[u8],
    entry: &State,
) -> Result<Option<u32>, Memory>
    requires table { length table.now ≤ most_read }
    requires locals { length entry.now.locals < 2 ^ 32 }
    requires as_many { method.now.max_locals ≡ length entry.now.locals }
    ensures { (names : Names)
        → IfOk result (λ fault. fault ≡ fault_of (outcome_of method.now (type_state names entry.now) table.now)) }
{
    let mut running = Running::first(alloc, entry)?;
    let mut reader = Reader::new(table);
    let Some(count) = table_count(&mut reader) else {
        return Ok(Some(0));
    };
    'checking: for number in 0..count {
        match next_frame(alloc, method, &mut reader, &mut running)? {
            Some(_) => {}
            None => return Ok(Some(u32::from(number))),
        }
    }
    if reader.u8().is_ok() {
        return Ok(Some(0));
    }
    Ok(None)
}
