//! The operands of an instruction.
ghost use Rattle.std.specs.Prelude.{◌≡◌, ℤ};
ghost use Rattle.jc_bytes.specs.Decoder.{Gives, SameEnd};
ghost use Rattle.jc_insn.specs.Items.{target_of};
ghost use Rattle.jc_insn.specs.Reading.{push_byte_at, push_short_at, constant_byte_at, constant_short_at, constant2_at};
ghost use Rattle.jc_insn.specs.Reading.{local_at, inc_at, jump_at, wide_jump_at, member_at, interface_at, dynamic_at};
ghost use Rattle.jc_insn.specs.Reading.{of_class_at, new_array_at, multi_at, wide_local_at, wide_inc_at};
ghost use Rattle.jc_insn.specs.Reading.{wide_operands_at, wide_at};

use crate::item::CodeItem;
use jc_bytes::{Fail, Reader, Unfit};
use jc_methods::{Form, Insn, form_of, opcode};

/// The offset that lies so far from this one.
pub fn target(at: u32, difference: i32) -> u32
    ensures { result ≡ target_of at difference }
{
    at.wrapping_add(difference.cast_unsigned())
}

/// `bipush`.
#[tactic(auto, unfolding(crate::specs::Reading::push_byte_at))]
pub fn push_byte(reader: &mut Reader<'_>, op: u8) -> Result<CodeItem, Fail<Unfit>>
    ensures gives { Gives (λ item. item) result reader.new.left (push_byte_at op reader.old.left) }
    ensures end { SameEnd reader.old reader.new }
{
    let value = reader.u8()?;
    Ok(CodeItem::Insn(Insn::Push {
        op,
        value: i16::from(value.cast_signed()),
    }))
}

/// `sipush`.
#[tactic(auto, unfolding(crate::specs::Reading::push_short_at))]
pub fn push_short(reader: &mut Reader<'_>, op: u8) -> Result<CodeItem, Fail<Unfit>>
    ensures gives { Gives (λ item. item) result reader.new.left (push_short_at op reader.old.left) }
    ensures end { SameEnd reader.old reader.new }
{
    let value = reader.u16()?;
    Ok(CodeItem::Insn(Insn::Push {
        op,
        value: value.cast_signed(),
    }))
}

/// `ldc`.
#[tactic(auto, unfolding(crate::specs::Reading::constant_byte_at))]
pub fn constant_byte(reader: &mut Reader<'_>) -> Result<CodeItem, Fail<Unfit>>
    ensures gives { Gives (λ item. item) result reader.new.left (constant_byte_at reader.old.left) }
    ensures end { SameEnd reader.old reader.new }
{
    let place = reader.u8()?;
    Ok(CodeItem::Insn(Insn::Constant {
        place: u16::from(place),
    }))
}

/// `ldc_w`.
#[tactic(auto, unfolding(crate::specs::Reading::constant_short_at))]
pub fn constant_short(reader: &mut Reader<'_>) -> Result<CodeItem, Fail<Unfit>>
    ensures gives { Gives (λ item. item) result reader.new.left (constant_short_at reader.old.left) }
    ensures end { SameEnd reader.old reader.new }
{
    let place = reader.u16()?;
    Ok(CodeItem::Insn(Insn::Constant { place }))
}

/// `ldc2_w`.
#[tactic(auto, unfolding(crate::specs::Reading::constant2_at))]
pub fn constant2(reader: &mut Reader<'_>) -> Result<CodeItem, Fail<Unfit>>
    ensures gives { Gives (λ item. item) result reader.new.left (constant2_at reader.old.left) }
    ensures end { SameEnd reader.old reader.new }
{
    let place = reader.u16()?;
    Ok(CodeItem::Insn(Insn::Constant2 { place }))
}

/// A load or a store of a local variable.
#[tactic(auto, unfolding(crate::specs::Reading::local_at))]
pub fn local(reader: &mut Reader<'_>, op: u8) -> Result<CodeItem, Fail<Unfit>>
    ensures gives { Gives (λ item. item) result reader.new.left (local_at op reader.old.left) }
    ensures end { SameEnd reader.old reader.new }
{
    let slot = reader.u8()?;
    Ok(CodeItem::Insn(Insn::Local {
        op,
        slot: u16::from(slot),
    }))
}

/// `iinc`.
#[tactic(auto, unfolding(crate::specs::Reading::inc_at))]
pub fn inc(reader: &mut Reader<'_>) -> Result<CodeItem, Fail<Unfit>>
    ensures gives { Gives (λ item. item) result reader.new.left (inc_at reader.old.left) }
    ensures end { SameEnd reader.old reader.new }
{
    let slot = reader.u8()?;
    let by = reader.u8()?;
    Ok(CodeItem::Insn(Insn::Inc {
        slot: u16::from(slot),
        by: i16::from(by.cast_signed()),
    }))
}

/// A conditional jump or `goto`.
#[tactic(auto, unfolding(crate::specs::Reading::jump_at))]
pub fn jump(reader: &mut Reader<'_>, at: u32, op: u8) -> Result<CodeItem, Fail<Unfit>>
    ensures gives { Gives (λ item. item) result reader.new.left (jump_at at op reader.old.left) }
    ensures end { SameEnd reader.old reader.new }
{
    let difference = reader.u16()?;
    Ok(CodeItem::Insn(Insn::Jump {
        op,
        to: target(at, i32::from(difference.cast_signed())),
    }))
}

/// `goto_w`.
#[tactic(auto, unfolding(crate::specs::Reading::wide_jump_at))]
pub fn wide_jump(reader: &mut Reader<'_>, at: u32) -> Result<CodeItem, Fail<Unfit>>
    ensures gives { Gives (λ item. item) result reader.new.left (wide_jump_at at reader.old.left) }
    ensures end { SameEnd reader.old reader.new }
{
    let difference = reader.u32()?;
    Ok(CodeItem::Insn(Insn::Jump {
        op: opcode::GOTO,
        to: target(at, difference.cast_signed()),
    }))
}

/// A field, or a call of a method that isn't one of an interface.
#[tactic(auto, unfolding(crate::specs::Reading::member_at))]
pub fn member(reader: &mut Reader<'_>, op: u8) -> Result<CodeItem, Fail<Unfit>>
    ensures gives { Gives (λ item. item) result reader.new.left (member_at op reader.old.left) }
    ensures end { SameEnd reader.old reader.new }
{
    let place = reader.u16()?;
    Ok(CodeItem::Insn(Insn::Member { op, place }))
}

/// `invokeinterface`.
#[tactic(auto, unfolding(crate::specs::Reading::interface_at))]
pub fn interface(reader: &mut Reader<'_>) -> Result<CodeItem, Fail<Unfit>>
    ensures gives { Gives (λ item. item) result reader.new.left (interface_at reader.old.left) }
    ensures end { SameEnd reader.old reader.new }
{
    let place = reader.u16()?;
    let count = reader.u8()?;
    let _any = reader.u8()?;
    Ok(CodeItem::Insn(Insn::Interface { place, count }))
}

/// `invokedynamic`.
#[tactic(auto, unfolding(crate::specs::Reading::dynamic_at))]
pub fn dynamic(reader: &mut Reader<'_>) -> Result<CodeItem, Fail<Unfit>>
    ensures gives { Gives (λ item. item) result reader.new.left (dynamic_at reader.old.left) }
    ensures end { SameEnd reader.old reader.new }
{
    let place = reader.u16()?;
    let _any = reader.take(2)?;
    Ok(CodeItem::Insn(Insn::Dynamic { place }))
}

/// `new`, `anewarray`, `checkcast` or `instanceof`.
#[tactic(auto, unfolding(crate::specs::Reading::of_class_at))]
pub fn of_class(reader: &mut Reader<'_>, op: u8) -> Result<CodeItem, Fail<Unfit>>
    ensures gives { Gives (λ item. item) result reader.new.left (of_class_at op reader.old.left) }
    ensures end { SameEnd reader.old reader.new }
{
    let place = reader.u16()?;
    Ok(CodeItem::Insn(Insn::OfClass { op, place }))
}

/// `newarray`.
#[tactic(auto, unfolding(crate::specs::Reading::new_array_at))]
pub fn new_array(reader: &mut Reader<'_>) -> Result<CodeItem, Fail<Unfit>>
    ensures gives { Gives (λ item. item) result reader.new.left (new_array_at reader.old.left) }
    ensures end { SameEnd reader.old reader.new }
{
    let elem = reader.u8()?;
    if elem >= 4 && elem <= 11 {
        Ok(CodeItem::Insn(Insn::NewArray { elem }))
    } else {
        Err(Fail::Said(Unfit))
    }
}

/// `multianewarray`.
#[tactic(auto, unfolding(crate::specs::Reading::multi_at))]
pub fn multi(reader: &mut Reader<'_>) -> Result<CodeItem, Fail<Unfit>>
    ensures gives { Gives (λ item. item) result reader.new.left (multi_at reader.old.left) }
    ensures end { SameEnd reader.old reader.new }
{
    let place = reader.u16()?;
    let dims = reader.u8()?;
    if dims >= 1 {
        Ok(CodeItem::Insn(Insn::Multi { place, dims }))
    } else {
        Err(Fail::Said(Unfit))
    }
}

/// A load or a store of a local variable, behind `wide`.
#[tactic(auto, unfolding(crate::specs::Reading::wide_local_at))]
fn wide_local(reader: &mut Reader<'_>, op: u8) -> Result<CodeItem, Fail<Unfit>>
    ensures gives { Gives (λ item. item) result reader.new.left (wide_local_at op reader.old.left) }
    ensures end { SameEnd reader.old reader.new }
{
    let slot = reader.u16()?;
    Ok(CodeItem::Insn(Insn::Local { op, slot }))
}

/// `iinc`, behind `wide`.
#[tactic(auto, unfolding(crate::specs::Reading::wide_inc_at))]
fn wide_inc(reader: &mut Reader<'_>) -> Result<CodeItem, Fail<Unfit>>
    ensures gives { Gives (λ item. item) result reader.new.left (wide_inc_at reader.old.left) }
    ensures end { SameEnd reader.old reader.new }
{
    let slot = reader.u16()?;
    let by = reader.u16()?;
    Ok(CodeItem::Insn(Insn::Inc {
        slot,
        by: by.cast_signed(),
    }))
}

/// What stands behind `wide` and an opcode of this form.
#[tactic(auto, unfolding(crate::specs::Reading::wide_operands_at))]
fn wide_operands(reader: &mut Reader<'_>, form: Form, op: u8) -> Result<CodeItem, Fail<Unfit>>
    ensures gives { Gives (λ item. item) result reader.new.left (wide_operands_at form op reader.old.left) }
    ensures end { SameEnd reader.old reader.new }
{
    match form {
        Form::Local => wide_local(reader, op),
        Form::Inc => wide_inc(reader),
        Form::Subroutine => {
            if op == opcode::RET {
                Ok(CodeItem::Subroutine)
            } else {
                Err(Fail::Said(Unfit))
            }
        }
        _ => Err(Fail::Said(Unfit)),
    }
}

/// What stands behind `wide`.
#[tactic(auto, unfolding(crate::specs::Reading::wide_at))]
pub fn wide(reader: &mut Reader<'_>) -> Result<CodeItem, Fail<Unfit>>
    ensures gives { Gives (λ item. item) result reader.new.left (wide_at reader.old.left) }
    ensures end { SameEnd reader.old reader.new }
{
    let op = reader.u8()?;
    wide_operands(reader, form_of(op), op)
}
