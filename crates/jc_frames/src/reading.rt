//! Reading the frames of a StackMapTable, item by item (JVM Specification 4.7.4).
ghost use Rattle.std.specs.Prelude.{◌≡◌, ◌<◌, ◌≤◌, length, IfOk};
ghost use Rattle.jc_bytes.specs.Counted.{counted_at};
ghost use Rattle.jc_bytes.specs.Decoder.{SameEnd};
ghost use Rattle.jc_bytes.specs.Parsing.{Parses, times_at};
ghost use Rattle.jc_frames.specs.Running.{HasFewTypes};
ghost use Rattle.jc_frames.specs.TableForm.{type_form as form_of_type, frame_form as form_of_frame};
ghost use Rattle.jc_frames.specs.TableReading.{type_behind_at, type_at, frame_behind_at, frame_item_at};

use crate::items::{FrameForm, FrameItem, TypeForm, TypeItem};
use jc_bytes::{Fail, List, Reader, Refusal, byte_item, not_a_class, u16_item};
use std::alloc::Global;

/// The form of a verification type's tag.
fn type_form(tag: u8) -> TypeForm
    ensures { result ≡ form_of_type tag }
{
    match tag {
        0 => TypeForm::Plain(TypeItem::Top),
        1 => TypeForm::Plain(TypeItem::Int),
        2 => TypeForm::Plain(TypeItem::Float),
        3 => TypeForm::Plain(TypeItem::Double),
        4 => TypeForm::Plain(TypeItem::Long),
        5 => TypeForm::Plain(TypeItem::Null),
        6 => TypeForm::Plain(TypeItem::UninitThis),
        7 => TypeForm::WithClass,
        8 => TypeForm::WithOffset,
        _ => TypeForm::NoType,
    }
}

/// What stands behind the tag of a verification type.
fn type_behind(reader: &mut Reader<'_>, form: TypeForm) -> Result<TypeItem, Fail<Refusal>>
    ensures gives { Parses (λ x. x) result reader.old reader.new (type_behind_at form reader.old.left) }
    ensures end { SameEnd reader.old reader.new }
    ensures later { reader.old.place ≤ reader.new.place }
{
    match form {
        TypeForm::Plain(item) => Ok(item),
        TypeForm::WithClass => {
            let place = u16_item(reader)?;
            Ok(TypeItem::Object { place })
        }
        TypeForm::WithOffset => {
            let offset = u16_item(reader)?;
            Ok(TypeItem::Uninit { offset })
        }
        TypeForm::NoType => Err(Fail::Said(not_a_class(reader.place()))),
    }
}

/// A verification type.
#[tactic(auto, unfolding(crate::specs::TableReading::type_at))]
fn type_item(reader: &mut Reader<'_>) -> Result<TypeItem, Fail<Refusal>>
    ensures gives { Parses (λ x. x) result reader.old reader.new (type_at reader.old.left) }
    ensures end { SameEnd reader.old reader.new }
    ensures later { reader.old.place ≤ reader.new.place }
{
    let tag = byte_item(reader)?;
    type_behind(reader, type_form(tag))
}

/// So many verification types.
fn so_many_types(
    alloc: Global,
    reader: &mut Reader<'_>,
    count: u16,
) -> Result<List<TypeItem>, Fail<Refusal>>
    ensures gives { Parses (λ x. x) result reader.old reader.new (times_at count type_at reader.old.left) }
    ensures end { SameEnd reader.old reader.new }
    ensures later { reader.old.place ≤ reader.new.place }
    ensures count { IfOk result (λ list. length list ≡ count) }
{
    let mut list = List::new(alloc);
    'reading: for _place in 0..count {
        let item = type_item(reader)?;
        list.push(item)?;
    }
    Ok(list)
}

/// A count of two bytes, and so many verification types.
#[tactic(auto, unfolding(jc_bytes::specs::Counted::counted_at))]
fn counted_types(alloc: Global, reader: &mut Reader<'_>) -> Result<List<TypeItem>, Fail<Refusal>>
    ensures gives { Parses (λ x. x) result reader.old reader.new (counted_at type_at reader.old.left) }
    ensures end { SameEnd reader.old reader.new }
    ensures later { reader.old.place ≤ reader.new.place }
    ensures few { IfOk result (λ list. length list < 65536) }
{
    let count = u16_item(reader)?;
    so_many_types(alloc, reader, count)
}

/// The form of a frame's tag.
fn frame_form(tag: u8) -> FrameForm
    ensures { result ≡ form_of_frame tag }
{
    match tag {
        0..=63 => FrameForm::Same(tag),
        64..=127 => FrameForm::OneItem(tag - 64),
        128..=246 => FrameForm::NoFrame,
        247 => FrameForm::OneItemFar,
        248..=250 => FrameForm::Chop(251 - tag),
        251 => FrameForm::SameFar,
        252..=254 => FrameForm::Append(tag - 251),
        255 => FrameForm::Full,
    }
}

/// What stands behind the tag of a frame.
fn frame_behind(
    alloc: Global,
    reader: &mut Reader<'_>,
    form: FrameForm,
) -> Result<FrameItem, Fail<Refusal>>
    ensures gives { Parses (λ x. x) result reader.old reader.new (frame_behind_at form reader.old.left) }
    ensures end { SameEnd reader.old reader.new }
    ensures later { reader.old.place ≤ reader.new.place }
    ensures few { IfOk result HasFewTypes }
{
    match form {
        FrameForm::Same(delta) => Ok(FrameItem::Same {
            delta: u16::from(delta),
        }),
        FrameForm::OneItem(delta) => {
            let item = type_item(reader)?;
            Ok(FrameItem::OneItem {
                delta: u16::from(delta),
                item,
            })
        }
        FrameForm::OneItemFar => {
            let delta = u16_item(reader)?;
            let item = type_item(reader)?;
            Ok(FrameItem::OneItem { delta, item })
        }
        FrameForm::Chop(count) => {
            let delta = u16_item(reader)?;
            Ok(FrameItem::Chop { delta, count })
        }
        FrameForm::SameFar => {
            let delta = u16_item(reader)?;
            Ok(FrameItem::Same { delta })
        }
        FrameForm::Append(count) => {
            let delta = u16_item(reader)?;
            let added = so_many_types(alloc, reader, u16::from(count))?;
            Ok(FrameItem::Append { delta, added })
        }
        FrameForm::Full => full(alloc, reader),
        FrameForm::NoFrame => Err(Fail::Said(not_a_class(reader.place()))),
    }
}

/// A full frame, behind its tag.
fn full(alloc: Global, reader: &mut Reader<'_>) -> Result<FrameItem, Fail<Refusal>>
    ensures gives { Parses (λ x. x) result reader.old reader.new (frame_behind_at FrameForm.Full reader.old.left) }
    ensures end { SameEnd reader.old reader.new }
    ensures later { reader.old.place ≤ reader.new.place }
    ensures few { IfOk result HasFewTypes }
{
    let delta = u16_item(reader)?;
    let locals = counted_types(alloc, reader)?;
    let stack = counted_types(alloc, reader)?;
    Ok(FrameItem::Full {
        delta,
        locals,
        stack,
    })
}

/// A frame.
#[tactic(auto, unfolding(crate::specs::TableReading::frame_item_at))]
pub(crate) fn frame_item(alloc: Global, reader: &mut Reader<'_>) -> Result<FrameItem, Fail<Refusal>>
    ensures gives { Parses (λ x. x) result reader.old reader.new (frame_item_at reader.old.left) }
    ensures end { SameEnd reader.old reader.new }
    ensures later { reader.old.place ≤ reader.new.place }
    ensures few { IfOk result HasFewTypes }
{
    let tag = byte_item(reader)?;
    frame_behind(alloc, reader, frame_form(tag))
}
