//! The images of instructions.
ghost use Rattle.std.specs.Prelude.{◌≡◌, ◌<◌, Some, map, length, slice_index, ℕ, IfOk};
ghost use Rattle.std.specs.List.{AllByRecursion};
ghost use Rattle.jc_methods.specs.Flow.{flow_of, jump_target};
ghost use Rattle.jc_methods.specs.Insn.{IsWellFormed, with_places, arm_with_place};
ghost use Rattle.jc_methods.specs.InsnUse.{LeadsWithin};
ghost use Rattle.jc_methods.specs.Slots.{slot_of as named_slot};
ghost use Rattle.jc_methods.specs.Widened.{inverted};
ghost use Rattle.jc_methods.specs.declared.insn.Flow.TheVariants as flows;
ghost use Rattle.jc_kinds_after.specs.Shift.{slot_of, with_slot};

use jc_bytes::{List, Memory, TryClone};
use jc_methods::{Arm, Insn, inverse};
use std::alloc::Global;

/// The local variable that is in the place of one of the method: one behind the arguments goes up by one.
pub(crate) fn moved_slot(slot: u16, arg_slots: u16) -> u16
    requires { slot < 65535 }
    ensures { result ≡ slot_of arg_slots slot }
{
    if slot < arg_slots { slot } else { slot + 1 }
}

/// The image of an instruction that goes on with the next one: its local variable is moved.
pub(crate) fn moved(alloc: Global, insn: &Insn, arg_slots: u16) -> Result<Insn, Memory>
    requires { (slot : ℕ) → named_slot insn.now ≡ Some slot → slot < 65535 }
    ensures { IfOk result (λ image. image ≡ with_slot arg_slots insn.now) }
{
    match insn {
        Insn::Local { op, slot } => Ok(Insn::Local {
            op: *op,
            slot: moved_slot(*slot, arg_slots),
        }),
        Insn::Inc { slot, by } => Ok(Insn::Inc {
            slot: moved_slot(*slot, arg_slots),
            by: *by,
        }),
        _ => insn.try_clone(alloc),
    }
}

/// Where a jump leads, and 0 where the instruction is no jump.
pub(crate) fn jump_target(insn: &Insn) -> u32
    ensures { result ≡ jump_target insn.now }
{
    match insn {
        Insn::Jump { to, .. } => *to,
        _ => 0,
    }
}

/// The conditional jump that jumps exactly where this one doesn't, to this place.
pub(crate) fn inverted(alloc: Global, insn: &Insn, to: u32) -> Result<Insn, Memory>
    requires test { flow_of insn.now ≡ flows.Branches }
    requires formed { IsWellFormed insn.now }
    ensures { IfOk result (λ image. image ≡ inverted to insn.now) }
{
    match insn {
        Insn::Jump { op, .. } => Ok(Insn::Jump {
            op: inverse(*op),
            to,
        }),
        _ => insn.try_clone(alloc),
    }
}

/// What a table has at each of these places.
fn led_places(alloc: Global, table: &[u32], places: &[u32]) -> Result<List<u32>, Memory>
    requires { AllByRecursion (λ to. to < length table.now) places.now }
    ensures { IfOk result (λ led. led ≡ map (slice_index table.now) places.now) }
{
    let mut led = List::new(alloc);
    'leading: for to in places {
        led.push(table[*to as usize])?;
    }
    Ok(led)
}

/// The arms, each leading to what a table has at its place.
fn led_arms(alloc: Global, table: &[u32], arms: &[Arm]) -> Result<List<Arm>, Memory>
    requires { AllByRecursion (λ to. to < length table.now) (map (λ arm. arm.to) arms.now) }
    ensures { IfOk result (λ led. led ≡ map (arm_with_place (slice_index table.now)) arms.now) }
{
    let mut led = List::new(alloc);
    'leading: for arm in arms {
        led.push(Arm {
            key: arm.key,
            to: table[arm.to as usize],
        })?;
    }
    Ok(led)
}

/// The instruction, leading to what a table has at each place to which it leads.
pub(crate) fn led(alloc: Global, table: &[u32], insn: &Insn) -> Result<Insn, Memory>
    requires { LeadsWithin (length table.now) insn.now }
    ensures { IfOk result (λ image. image ≡ with_places (slice_index table.now) insn.now) }
{
    match insn {
        Insn::Jump { op, to } => Ok(Insn::Jump {
            op: *op,
            to: table[*to as usize],
        }),
        Insn::Table { low, default, arms } => Ok(Insn::Table {
            low: *low,
            default: table[*default as usize],
            arms: led_places(alloc, table, arms)?,
        }),
        Insn::Lookup { default, arms } => Ok(Insn::Lookup {
            default: table[*default as usize],
            arms: led_arms(alloc, table, arms)?,
        }),
        _ => insn.try_clone(alloc),
    }
}
