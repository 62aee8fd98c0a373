//! Numbers of instructions in place of their offsets.
ghost use Rattle.std.specs.Prelude.{◌≡◌, map, slice_index_or, IfOk};
ghost use Rattle.jc_methods.specs.Insn.{with_places, arm_with_place};

use jc_bytes::List;
use jc_methods::{Arm, Insn};
use std::alloc::{AllocError, Global};

/// The number at an offset, or the number of instructions where there is none.
fn number(numbers: &[u32], count: u32, offset: u32) -> u32
    ensures { result ≡ slice_index_or numbers.now offset count }
{
    numbers.get(offset as usize).copied().unwrap_or(count)
}

/// The arms of `tableswitch` with numbers in place of offsets.
fn numbered_offsets(
    alloc: Global,
    numbers: &[u32],
    count: u32,
    arms: &[u32],
) -> Result<List<u32>, AllocError>
    ensures { IfOk result (λ list. list ≡ map (λ offset. slice_index_or numbers.now offset count) arms.now) }
{
    let arms: Vec<u32> = arms
        .iter()
        .map(|offset| number(numbers, count, *offset))
        .collect(alloc)?;
    Ok(List::from_vec(arms))
}

/// An arm of `lookupswitch` with a number in place of its offset.
fn numbered_arm(numbers: &[u32], count: u32, arm: &Arm) -> Arm
    ensures { result ≡ arm_with_place (λ offset. slice_index_or numbers.now offset count) arm.now }
{
    Arm {
        key: arm.key,
        to: number(numbers, count, arm.to),
    }
}

/// The arms of `lookupswitch` with numbers in place of offsets.
fn numbered_arms(
    alloc: Global,
    numbers: &[u32],
    count: u32,
    arms: &[Arm],
) -> Result<List<Arm>, AllocError>
    ensures { IfOk result (λ list. list ≡ map (arm_with_place (λ offset. slice_index_or numbers.now offset count)) arms.now) }
{
    let mut list = Vec::new(alloc);
    'numbering: for arm in arms {
        list.push(numbered_arm(numbers, count, arm))?;
    }
    Ok(List::from_vec(list))
}

/// The instruction with numbers in place of offsets.
fn numbered(alloc: Global, numbers: &[u32], count: u32, insn: Insn) -> Result<Insn, AllocError>
    ensures { IfOk result (λ same. same ≡ with_places (λ offset. slice_index_or numbers.now offset count) insn) }
{
    match insn {
        Insn::Jump { op, to } => Ok(Insn::Jump {
            op,
            to: number(numbers, count, to),
        }),
        Insn::Table { low, default, arms } => Ok(Insn::Table {
            low,
            default: number(numbers, count, default),
            arms: numbered_offsets(alloc, numbers, count, &arms)?,
        }),
        Insn::Lookup { default, arms } => Ok(Insn::Lookup {
            default: number(numbers, count, default),
            arms: numbered_arms(alloc, numbers, count, &arms)?,
        }),
        other => Ok(other),
    }
}

/// The instructions with numbers in place of offsets.
pub fn all_numbered(
    alloc: Global,
    numbers: &[u32],
    count: u32,
    spelled: Vec<Insn>,
) -> Result<List<Insn>, AllocError>
    ensures { IfOk result (λ code. code ≡ map (with_places (λ offset. slice_index_or numbers.now offset count)) spelled.items) }
{
    let mut code = Vec::with_capacity(alloc, spelled.len())?;
    'numbering: for insn in spelled {
        code.push(numbered(alloc, numbers, count, insn)?)?;
    }
    Ok(List::from_vec(code))
}
