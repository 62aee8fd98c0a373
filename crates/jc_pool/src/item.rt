//! Reading the items of a constant pool (JVM Specification 4.1, 4.4).
ghost use Rattle.std.specs.Prelude.{◌≡◌, ◌<◌, ◌≤◌, IfOk, IfSome, Some, None};
ghost use Rattle.jc_bytes.specs.Decoder.{Gives, SameEnd};
ghost use Rattle.jc_bytes.specs.Parsing.{Parses, item};
ghost use Rattle.jc_pool.specs.Pool.{IsSmall, width};
ghost use Rattle.jc_pool.specs.EntryReading.{count_at, utf8_at, integer_at, float_at, long_at, double_at, handle_at};
ghost use Rattle.jc_pool.specs.EntryReading.{of_place, naming_one_at, of_places, naming_two_at, info_at, entry_at, fitting_at};

use crate::entry::Entry;
use crate::judged_text::JudgedText;
use jc_bytes::{Fail, Reader, Refusal, Unfit, not_a_class};
use std::alloc::Global;

/// The pool's count, which is above 0.
#[tactic(auto, unfolding(crate::specs::EntryReading::count_at))]
fn count(reader: &mut Reader<'_>) -> Result<u16, Fail<Unfit>>
    ensures gives { Gives (λ n. n) result reader.new.left (count_at reader.old.left) }
    ensures some { IfOk result (λ n. 0 < n) }
    ensures end { SameEnd reader.old reader.new }
    ensures later { reader.old.place ≤ reader.new.place }
{
    let count = reader.u16()?;
    if count == 0 {
        return Err(Fail::Said(Unfit));
    }
    Ok(count)
}

/// A size of two bytes, and as many bytes of text.
#[tactic(auto, unfolding(crate::specs::EntryReading::utf8_at))]
fn utf8(alloc: Global, reader: &mut Reader<'_>) -> Result<Entry, Fail<Unfit>>
    ensures gives { Gives (λ e. e) result reader.new.left (utf8_at reader.old.left) }
    ensures small { IfOk result IsSmall }
    ensures end { SameEnd reader.old reader.new }
    ensures later { reader.old.place ≤ reader.new.place }
{
    let size = reader.u16()?;
    let piece = reader.take(u32::from(size))?;
    Ok(Entry::Utf8(JudgedText::of(alloc, piece)?))
}

#[tactic(auto, unfolding(crate::specs::EntryReading::integer_at))]
fn integer(reader: &mut Reader<'_>) -> Result<Entry, Fail<Unfit>>
    ensures gives { Gives (λ e. e) result reader.new.left (integer_at reader.old.left) }
    ensures small { IfOk result IsSmall }
    ensures end { SameEnd reader.old reader.new }
    ensures later { reader.old.place ≤ reader.new.place }
{
    let number = reader.u32()?;
    Ok(Entry::Integer(number.cast_signed()))
}

#[tactic(auto, unfolding(crate::specs::EntryReading::float_at))]
fn float(reader: &mut Reader<'_>) -> Result<Entry, Fail<Unfit>>
    ensures gives { Gives (λ e. e) result reader.new.left (float_at reader.old.left) }
    ensures small { IfOk result IsSmall }
    ensures end { SameEnd reader.old reader.new }
    ensures later { reader.old.place ≤ reader.new.place }
{
    Ok(Entry::Float(reader.u32()?))
}

#[tactic(auto, unfolding(crate::specs::EntryReading::long_at))]
fn long(reader: &mut Reader<'_>) -> Result<Entry, Fail<Unfit>>
    ensures gives { Gives (λ e. e) result reader.new.left (long_at reader.old.left) }
    ensures small { IfOk result IsSmall }
    ensures end { SameEnd reader.old reader.new }
    ensures later { reader.old.place ≤ reader.new.place }
{
    let number = reader.u64()?;
    Ok(Entry::Long(number.cast_signed()))
}

#[tactic(auto, unfolding(crate::specs::EntryReading::double_at))]
fn double(reader: &mut Reader<'_>) -> Result<Entry, Fail<Unfit>>
    ensures gives { Gives (λ e. e) result reader.new.left (double_at reader.old.left) }
    ensures small { IfOk result IsSmall }
    ensures end { SameEnd reader.old reader.new }
    ensures later { reader.old.place ≤ reader.new.place }
{
    Ok(Entry::Double(reader.u64()?))
}

/// The entry of this tag that names one place.
fn of_place(tag: u8, place: u16) -> Option<Entry>
    ensures entry { result ≡ of_place tag place }
    ensures small { IfSome result IsSmall }
{
    match tag {
        7 => Some(Entry::Class { name: place }),
        8 => Some(Entry::String { text: place }),
        16 => Some(Entry::MethodType { descriptor: place }),
        19 => Some(Entry::Module { name: place }),
        20 => Some(Entry::Package { name: place }),
        _ => None,
    }
}

#[tactic(auto, unfolding(crate::specs::EntryReading::naming_one_at))]
fn naming_one(reader: &mut Reader<'_>, tag: u8) -> Result<Entry, Fail<Unfit>>
    ensures gives { Gives (λ e. e) result reader.new.left (naming_one_at tag reader.old.left) }
    ensures small { IfOk result IsSmall }
    ensures end { SameEnd reader.old reader.new }
    ensures later { reader.old.place ≤ reader.new.place }
{
    let place = reader.u16()?;
    of_place(tag, place).ok_or(Fail::Said(Unfit))
}

/// The entry of this tag that names two places.
fn of_places(tag: u8, first: u16, second: u16) -> Option<Entry>
    ensures entry { result ≡ of_places tag first second }
    ensures small { IfSome result IsSmall }
{
    match tag {
        9 => Some(Entry::Fieldref {
            class: first,
            name_and_type: second,
        }),
        10 => Some(Entry::Methodref {
            class: first,
            name_and_type: second,
        }),
        11 => Some(Entry::InterfaceMethodref {
            class: first,
            name_and_type: second,
        }),
        12 => Some(Entry::NameAndType {
            name: first,
            descriptor: second,
        }),
        17 => Some(Entry::Dynamic {
            bootstrap: first,
            name_and_type: second,
        }),
        18 => Some(Entry::InvokeDynamic {
            bootstrap: first,
            name_and_type: second,
        }),
        _ => None,
    }
}

#[tactic(auto, unfolding(crate::specs::EntryReading::naming_two_at))]
fn naming_two(reader: &mut Reader<'_>, tag: u8) -> Result<Entry, Fail<Unfit>>
    ensures gives { Gives (λ e. e) result reader.new.left (naming_two_at tag reader.old.left) }
    ensures small { IfOk result IsSmall }
    ensures end { SameEnd reader.old reader.new }
    ensures later { reader.old.place ≤ reader.new.place }
{
    let first = reader.u16()?;
    let second = reader.u16()?;
    of_places(tag, first, second).ok_or(Fail::Said(Unfit))
}

#[tactic(auto, unfolding(crate::specs::EntryReading::handle_at))]
fn handle(reader: &mut Reader<'_>) -> Result<Entry, Fail<Unfit>>
    ensures gives { Gives (λ e. e) result reader.new.left (handle_at reader.old.left) }
    ensures small { IfOk result IsSmall }
    ensures end { SameEnd reader.old reader.new }
    ensures later { reader.old.place ≤ reader.new.place }
{
    let kind = reader.u8()?;
    let reference = reader.u16()?;
    Ok(Entry::MethodHandle { kind, reference })
}

/// What stands behind the tag of an entry.
#[tactic(auto, unfolding(crate::specs::EntryReading::info_at))]
fn info(alloc: Global, reader: &mut Reader<'_>, tag: u8) -> Result<Entry, Fail<Unfit>>
    ensures gives { Gives (λ e. e) result reader.new.left (info_at tag reader.old.left) }
    ensures small { IfOk result IsSmall }
    ensures end { SameEnd reader.old reader.new }
    ensures later { reader.old.place ≤ reader.new.place }
{
    match tag {
        1 => utf8(alloc, reader),
        3 => integer(reader),
        4 => float(reader),
        5 => long(reader),
        6 => double(reader),
        15 => handle(reader),
        7 | 8 | 16 | 19 | 20 => naming_one(reader, tag),
        _ => naming_two(reader, tag),
    }
}

/// An entry, from its tag on.
#[tactic(auto, unfolding(crate::specs::EntryReading::entry_at))]
fn entry(alloc: Global, reader: &mut Reader<'_>) -> Result<Entry, Fail<Unfit>>
    ensures gives { Gives (λ e. e) result reader.new.left (entry_at reader.old.left) }
    ensures small { IfOk result IsSmall }
    ensures end { SameEnd reader.old reader.new }
    ensures later { reader.old.place ≤ reader.new.place }
{
    let tag = reader.u8()?;
    info(alloc, reader, tag)
}

/// An entry that takes no more than so many places.
#[tactic(auto, unfolding(crate::specs::EntryReading::fitting_at))]
fn fitting(alloc: Global, reader: &mut Reader<'_>, places: usize) -> Result<Entry, Fail<Unfit>>
    ensures gives { Gives (λ e. e) result reader.new.left (fitting_at places reader.old.left) }
    ensures small { IfOk result IsSmall }
    ensures fits { IfOk result (λ e. width e ≤ places) }
    ensures end { SameEnd reader.old reader.new }
    ensures later { reader.old.place ≤ reader.new.place }
{
    let entry = entry(alloc, reader)?;
    if places < entry.width() {
        return Err(Fail::Said(Unfit));
    }
    Ok(entry)
}

/// The pool's count. The item fails where fewer than two bytes are left, or they spell 0.
pub fn count_item(reader: &mut Reader<'_>) -> Result<u16, Fail<Refusal>>
    ensures gives { Parses (λ n. n) result reader.old reader.new (item count_at reader.old.left) }
    ensures some { IfOk result (λ n. 0 < n) }
    ensures end { SameEnd reader.old reader.new }
    ensures later { reader.old.place ≤ reader.new.place }
{
    let place = reader.place();
    match count(reader) {
        Ok(count) => Ok(count),
        Err(Fail::Memory) => Err(Fail::Memory),
        Err(Fail::Said(Unfit)) => Err(Fail::Said(not_a_class(place))),
    }
}

/// An entry. The item fails where none of the format stands here, or where it takes more than so
/// many places.
pub fn entry_item(
    alloc: Global,
    reader: &mut Reader<'_>,
    places: usize,
) -> Result<Entry, Fail<Refusal>>
    ensures gives { Parses (λ e. e) result reader.old reader.new (item (fitting_at places) reader.old.left) }
    ensures small { IfOk result IsSmall }
    ensures fits { IfOk result (λ e. width e ≤ places) }
    ensures end { SameEnd reader.old reader.new }
    ensures later { reader.old.place ≤ reader.new.place }
{
    let place = reader.place();
    match fitting(alloc, reader, places) {
        Ok(entry) => Ok(entry),
        Err(Fail::Memory) => Err(Fail::Memory),
        Err(Fail::Said(Unfit)) => Err(Fail::Said(not_a_class(place))),
    }
}
