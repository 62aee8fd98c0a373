//! The jumps of code, and their offsets.
ghost use Rattle.std.specs.Prelude.{◌≡◌, ◌<◌, ◌≤◌, ◌&&◌, All, IfOk, length, map, not};
ghost use Rattle.jc_methods.specs.InsnUse.{LeadsWithin};
ghost use Rattle.jc_methods.specs.Widened.{listed};
ghost use Rattle.jc_layout.specs.Layable.{most_laid};
ghost use Rattle.jc_layout.specs.Layout.{is_near};
ghost use Rattle.jc_layout.specs.Shift.{AreJumpsOf, ends_in, far_in, widening};

use crate::far::is_near;
use jc_bytes::Memory;
use jc_methods::{Insn, is_listed, opcode};
use std::alloc::Global;

/// A jump of code.
#[derive(Clone, Copy)]
pub struct Jump {
    /// The number of its instruction.
    pub number: u32,
    /// The number of the instruction to which it leads.
    pub to: u32,
    /// The number of the first switch behind it, or else how many instructions there are.
    pub switch: u32,
    /// How many bytes more it takes where it is wide.
    pub more: u32,
}

/// The offsets of a jump and of where it leads.
#[derive(Clone, Copy)]
pub struct Ends {
    pub at: u32,
    pub to: u32,
}

/// How many bytes more a wide jump takes.
fn widening(op: u8) -> u32
    ensures { result ≡ widening op }
{
    if op == opcode::GOTO { 2 } else { 5 }
}

/// The jumps of code.
pub fn jumps_of(alloc: Global, code: &[Insn]) -> Result<Vec<Jump>, Memory>
    requires few { length code.now ≤ most_laid }
    requires places { All (LeadsWithin (length code.now)) code.now }
    ensures { IfOk result (λ jumps. AreJumpsOf code.now jumps.items) }
{
    let mut jumps = Vec::new(alloc);
    let mut switch = code.len();
    let mut number = code.len();
    'listing: while number > 0 {
        number -= 1;
        match &code[number] {
            Insn::Jump { op, to } => jumps.push(Jump {
                number: number as u32,
                to: *to,
                switch: switch as u32,
                more: widening(*op),
            })?,
            Insn::Table { .. } | Insn::Lookup { .. } => switch = number,
            _ => {}
        }
    }
    Ok(jumps)
}

/// The offsets of jumps and of where they lead, from those of the instructions.
pub fn ends_of(alloc: Global, jumps: &[Jump], starts: &[u32]) -> Result<Vec<Ends>, Memory>
    requires { All (λ j. (j.number < length starts.now) × (j.to < length starts.now)) jumps.now }
    ensures { IfOk result (λ ends. ends.items ≡ map (ends_in starts.now) jumps.now) }
{
    let mut ends = Vec::new(alloc);
    'listing: for jump in jumps {
        ends.push(Ends {
            at: starts[jump.number as usize],
            to: starts[jump.to as usize],
        })?;
    }
    Ok(ends)
}

/// Whether a jump isn't wide and has no room in two bytes.
fn is_left(jump: Jump, ends: Ends, wide: &[bool]) -> bool
    ensures { result ≡ (not (listed wide.now jump.number) && not (is_near ends.at ends.to)) }
{
    !is_listed(wide, jump.number as usize) && !is_near(ends.at, ends.to)
}

/// The jumps that aren't wide and have no room in two bytes.
pub fn far_jumps(
    alloc: Global,
    jumps: &[Jump],
    ends: &[Ends],
    wide: &[bool],
) -> Result<Vec<Jump>, Memory>
    requires { length ends.now ≡ length jumps.now }
    ensures { IfOk result (λ far. far.items ≡ far_in jumps.now ends.now wide.now) }
{
    let mut far = Vec::new(alloc);
    'seeking: for (place, jump) in jumps.iter().enumerate() {
        if is_left(*jump, ends[place], wide) {
            far.push(*jump)?;
        }
    }
    Ok(far)
}
