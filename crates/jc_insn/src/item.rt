//! What stands at an offset of the code.
ghost use Rattle.std.specs.Prelude.{◌≡◌, ◌≤◌, ◌+◌, length};
ghost use Rattle.jc_bytes.specs.Reader.{most_read};
ghost use Rattle.jc_bytes.specs.Decoder.{Gives, SameEnd};
ghost use Rattle.jc_insn.specs.Items.{short_load, short_store};
ghost use Rattle.jc_insn.specs.Reading.{operands_at, item_at};

use crate::operands::{
    constant_byte, constant_short, constant2, dynamic, inc, interface, jump, local, member, multi,
    new_array, of_class, push_byte, push_short, wide, wide_jump,
};
use crate::switch::{lookup, table};
use jc_bytes::{Fail, Reader, Unfit};
use jc_methods::{Form, Insn, form_of, opcode};
use std::alloc::Global;

/// What stands at an offset of the code.
#[derive(Debug, Drop)]
pub enum CodeItem {
    /// An instruction. The places to which it leads are offsets.
    Insn(Insn),
    /// `jsr`, `jsr_w`, `ret` or `wide ret`.
    Subroutine,
}

/// A load, whose local variable stands in the opcode.
fn short_load(op: u8) -> CodeItem
    ensures { result ≡ short_load op }
{
    let code = op.saturating_sub(opcode::ILOAD_0);
    CodeItem::Insn(Insn::Local {
        op: opcode::ILOAD + code / 4,
        slot: u16::from(code % 4),
    })
}

/// A store, whose local variable stands in the opcode.
fn short_store(op: u8) -> CodeItem
    ensures { result ≡ short_store op }
{
    let code = op.saturating_sub(opcode::ISTORE_0);
    CodeItem::Insn(Insn::Local {
        op: opcode::ISTORE + code / 4,
        slot: u16::from(code % 4),
    })
}

/// What stands behind an opcode of this form.
#[tactic(auto, unfolding(crate::specs::Reading::operands_at))]
fn operands(
    alloc: Global,
    reader: &mut Reader<'_>,
    at: u32,
    form: Form,
    op: u8,
) -> Result<CodeItem, Fail<Unfit>>
    requires { reader.old.place + length reader.old.left ≤ most_read }
    ensures gives { Gives (λ item. item) result reader.new.left (operands_at at form op reader.old.left) }
    ensures end { SameEnd reader.old reader.new }
{
    match form {
        Form::Simple => Ok(CodeItem::Insn(Insn::Simple(op))),
        Form::PushByte => push_byte(reader, op),
        Form::PushShort => push_short(reader, op),
        Form::ConstantByte => constant_byte(reader),
        Form::ConstantShort => constant_short(reader),
        Form::Constant2 => constant2(reader),
        Form::Local => local(reader, op),
        Form::ShortLoad => Ok(short_load(op)),
        Form::ShortStore => Ok(short_store(op)),
        Form::Inc => inc(reader),
        Form::Jump => jump(reader, at, op),
        Form::WideJump => wide_jump(reader, at),
        Form::Subroutine => Ok(CodeItem::Subroutine),
        Form::Table => table(alloc, reader, at),
        Form::Lookup => lookup(alloc, reader, at),
        Form::Member => member(reader, op),
        Form::Interface => interface(reader),
        Form::Dynamic => dynamic(reader),
        Form::OfClass => of_class(reader, op),
        Form::NewArray => new_array(reader),
        Form::Multi => multi(reader),
        Form::Wide => wide(reader),
        Form::Unknown => Err(Fail::Said(Unfit)),
    }
}

/// What stands at the reader's offset.
#[tactic(auto, unfolding(crate::specs::Reading::item_at))]
pub fn read_item(alloc: Global, reader: &mut Reader<'_>) -> Result<CodeItem, Fail<Unfit>>
    requires { reader.old.place + length reader.old.left ≤ most_read }
    ensures gives { Gives (λ item. item) result reader.new.left (item_at reader.old.place reader.old.left) }
    ensures end { SameEnd reader.old reader.new }
{
    let at = reader.place();
    let op = reader.u8()?;
    operands(alloc, reader, at, form_of(op), op)
}
