//! The first fault of a method's code (JVM Specification 4.9).
ghost use Rattle.std.specs.Prelude.{◌↔◌, ◌≤◌, ◌++◌, length, map, IsTrue};
ghost use Rattle.jc_methods.specs.WellMade.{TakeSlots};
ghost use Rattle.jc_bytes.specs.Descriptor.{IsMethodDescriptor};
ghost use Rattle.jc_bytes.specs.Reader.{most_read};
ghost use Rattle.jc_class.specs.ClassFormat.{HasMethodDescriptor};
ghost use Rattle.jc_methods.specs.Starts.{AreStarts};
ghost use Rattle.jc_body.specs.First.{FirstFault};
ghost use Rattle.jc_body.specs.Faults.{insn_faults, row_faults, TooWide};
ghost use Rattle.jc_body.specs.Numbering.{Numbers};

use crate::checks::{first_astray, first_local_outside, first_wrong_entry};
use crate::coded::Coded;
use crate::places::{Offsets, first_bad_row};
use crate::texts::text_at;
use jc_bytes::argument_slots;
use jc_class::Member;
use jc_pool::Pool;

/// The flag of a method without `this` (JVM Specification 4.6, ACC_STATIC).
const STATIC: u16 = 0x0008;

/// The most instructions times slots that a body may have. This bound is the tool's own.
const MOST_SLOTS: u64 = 33_554_432;

/// How many local variables the arguments of a method with this descriptor take, `this` included.
pub fn slots_of_arguments(flags: u16, desc: &[u8]) -> u32
    requires few { length desc.now ≤ 65535 }
    requires desc { IsMethodDescriptor desc.now }
    ensures slots { TakeSlots flags desc.now result }
{
    let parameters = argument_slots(desc).unwrap_or(0);
    if flags & STATIC != 0 {
        parameters
    } else {
        1 + parameters
    }
}

/// The offset of the first instruction with a fault.
fn insn_fault(major: u16, pool: &Pool, coded: &Coded) -> Option<u32>
    requires starts { AreStarts (length coded.now.insns) (length coded.now.items.code) coded.now.starts }
    requires few { length coded.now.insns ≤ 65535 }
    ensures { FirstFault (map (λ F. F coded.now) (insn_faults major pool.now)) result }
{
    if let Some(number) = first_wrong_entry(major, pool, &coded.insns) {
        return Some(coded.starts[number]);
    }
    if let Some(number) = first_astray(&coded.insns) {
        return Some(coded.starts[number]);
    }
    match first_local_outside(coded.items.max_locals, &coded.insns) {
        Some(number) => Some(coded.starts[number]),
        None => None,
    }
}

/// Whether the arguments need more local variables than there are at 0, or the number of the first row of the
/// exception table with a fault.
fn row_fault(pool: &Pool, method: &Member, coded: &Coded, offsets: &Offsets<'_>) -> Option<u32>
    requires desc { HasMethodDescriptor pool.now method.now.desc }
    requires offsets { Numbers coded.now offsets.now }
    requires few { length coded.now.items.rows ≤ most_read }
    ensures { FirstFault (map (λ F. F coded.now) (row_faults pool.now method.now)) result }
{
    let slots = slots_of_arguments(method.flags, text_at(pool, method.desc));
    if slots > u32::from(coded.items.max_locals) {
        return Some(0);
    }
    match first_bad_row(pool, offsets, &coded.items.rows) {
        Some(row) => Some(row as u32),
        None => None,
    }
}

/// The place of the first fault of the instructions, or else of the arguments and the exception table.
pub fn first_fault(
    major: u16,
    pool: &Pool,
    method: &Member,
    coded: &Coded,
    offsets: &Offsets<'_>,
) -> Option<u32>
    requires desc { HasMethodDescriptor pool.now method.now.desc }
    requires starts { AreStarts (length coded.now.insns) (length coded.now.items.code) coded.now.starts }
    requires offsets { Numbers coded.now offsets.now }
    requires few { length coded.now.insns ≤ 65535 }
    requires rows { length coded.now.items.rows ≤ most_read }
    ensures { FirstFault (map (λ F. F coded.now) (insn_faults major pool.now ++ row_faults pool.now method.now)) result }
{
    match insn_fault(major, pool, coded) {
        Some(place) => Some(place),
        None => row_fault(pool, method, coded, offsets),
    }
}

/// Whether instructions times slots are more than the bound.
pub fn is_too_wide(coded: &Coded) -> bool
    requires { length coded.now.insns ≤ 65535 }
    ensures { IsTrue result ↔ TooWide coded.now 0 }
{
    let slots = u64::from(coded.items.max_locals) + u64::from(coded.items.max_stack);
    coded.insns.len() as u64 * slots > MOST_SLOTS
}
