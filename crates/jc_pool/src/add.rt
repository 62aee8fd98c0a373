//! Adding entries to what stands at the places of a pool.
ghost use Rattle.std.specs.Prelude.{◌≡◌, ◌+◌, ◌++◌, ◌<◌, ◌≤◌, None, Some, IfOk, IfSome, OnOk, OnErr, length};
ghost use Rattle.std.specs.Prelude.{vec_capacity, vec_len};
ghost use Rattle.jc_bytes.specs.Texts.{IsShortText};
ghost use Rattle.jc_pool.specs.declared.entry.Entry.TheVariants as entry;
ghost use Rattle.jc_pool.specs.Adding.{IsNowhere, IsPut, IsPutAs, Adds, HasUtf8, RefusesFull};
ghost use Rattle.jc_pool.specs.Index.{IsFirstBelow, IsIndexOf, HasSpare, NamesWithin, CountsTo, missing, key_in, key_at, naming_of, HasNaming};
ghost use Rattle.jc_pool.specs.Lookup.{utf8_in, utf8_of};
ghost use Rattle.jc_pool.specs.Pool.{IsPool, slots_of, width};

use crate::entry::Entry;
use crate::index::{Index, Key, Naming, note_entry, note_text};
use crate::judged_text::JudgedText;
use crate::members::note_behind;
use jc_bytes::{Fail, Memory};
use std::alloc::Global;

/// The largest count of a pool (JVM Specification 4.1).
const MOST_PLACES: usize = 65_535;

/// The pool would have too many places (JVM Specification 4.1).
#[derive(Clone, Copy, Debug, PartialEq, Eq)]
pub struct PoolFull {
    /// The count that the pool would have.
    pub count: u32,
}

/// The index that was made before, or a new one.
pub fn index_of(
    alloc: Global,
    index: Option<Index>,
    slots: &[Option<Entry>],
) -> Result<Index, Memory>
    requires pool { IsPool slots.now }
    requires index { IfSome index (IsIndexOf slots.now) }
    ensures { IfOk result (IsIndexOf slots.now) }
{
    match index {
        Some(index) => Ok(index),
        None => Index::of(alloc, slots),
    }
}

/// Whether so many places that are missing fit behind those of a pool.
pub fn check_room(count: usize, missing: usize) -> Result<(), Fail<PoolFull>>
    requires pool { count ≤ 65535 }
    requires few { missing ≤ 7 }
    ensures fits { OnOk result (count + missing ≤ 65535) }
    ensures full { CountsTo result (count + missing) }
{
    let count = count + missing;
    if count > MOST_PLACES {
        return Err(Fail::Said(PoolFull {
            count: count as u32,
        }));
    }
    Ok(())
}

/// Takes room for so many places that are missing.
pub fn take_room(slots: &mut Vec<Option<Entry>>, missing: usize) -> Result<(), Fail<PoolFull>>
    requires pool { length slots.old.items ≤ 65535 }
    requires few { missing ≤ 2 }
    ensures room { OnOk result (vec_len slots.new + missing ≤ vec_capacity slots.new) }
    ensures fits { OnOk result (length slots.old.items + missing ≤ 65535) }
    ensures full { CountsTo result (length slots.old.items + missing) }
    ensures kept { slots.new.items ≡ slots.old.items }
{
    check_room(slots.len(), missing)?;
    slots.reserve(missing)?;
    Ok(())
}

/// Puts a Utf8 entry behind the others, for which there is room.
fn put_text(
    alloc: Global,
    slots: &mut Vec<Option<Entry>>,
    index: &mut Index,
    text: &[u8],
) -> Result<u16, Memory>
    requires room { vec_len slots.old < vec_capacity slots.old }
    requires few { length slots.old.items < 65535 }
    requires new { IsNowhere (utf8_of slots.old.items) text.now }
    requires index { IsIndexOf slots.old.items index.old }
    ensures put { IfOk result (IsPut slots.old.items slots.new.items (entry.Utf8 text.now)) }
    ensures index { IsIndexOf slots.new.items index.new }
    ensures kept { OnErr result (slots.new.items ≡ slots.old.items) }
    ensures keys { index.new.keys ≡ index.old.keys }
    ensures members { index.new.members ≡ index.old.members }
    ensures capacity { vec_capacity slots.new ≡ vec_capacity slots.old }
{
    let entry = JudgedText::of(alloc, text)?;
    let place = slots.len() as u16;
    note_text(alloc, &mut index.texts, text, place)?;
    slots.push_reserved(Some(Entry::Utf8(entry)));
    Ok(place)
}

/// Puts an entry at the next place, and nothing at its second one. There is room for it.
fn put_reserved(slots: &mut Vec<Option<Entry>>, entry: Entry)
    requires { vec_len slots.old + width entry ≤ vec_capacity slots.old }
    ensures { slots.new.items ≡ slots.old.items ++ slots_of entry }
{
    let wide = entry.is_wide();
    slots.push_reserved(Some(entry));
    if wide {
        slots.push_reserved(None);
    }
}

/// Puts an entry that has no text of its own behind the others, for which there is room.
pub fn put_entry(slots: &mut Vec<Option<Entry>>, index: &mut Index, entry: Entry) -> u16
    requires room { vec_len slots.old + width entry ≤ vec_capacity slots.old }
    requires space { HasSpare index.old }
    requires few { length slots.old.items + width entry ≤ 65535 }
    requires other { utf8_in entry ≡ None }
    requires within { NamesWithin (length slots.old.items) (Some entry) }
    requires index { IsIndexOf slots.old.items index.old }
    ensures put { IsPut slots.old.items slots.new.items entry result }
    ensures index { IsIndexOf slots.new.items index.new }
{
    let place = slots.len() as u16;
    note_entry(&mut index.keys, &index.firsts, &entry, place);
    put_reserved(slots, entry);
    note_behind(&mut index.members.keys, slots, &index.firsts, place);
    place
}

/// The first place of a text, which is put behind the others where it is new.
pub fn add_text(
    alloc: Global,
    slots: &mut Vec<Option<Entry>>,
    index: &mut Index,
    text: &[u8],
) -> Result<u16, Fail<PoolFull>>
    requires pool { IsPool slots.old.items }
    requires short { IsShortText text.now }
    requires index { IsIndexOf slots.old.items index.old }
    ensures ok { IfOk result (HasUtf8 slots.old.items text.now slots.new.items) }
    ensures pool { IsPool slots.new.items }
    ensures full { RefusesFull (HasUtf8 slots.old.items text.now) result }
    ensures err { OnErr result (slots.new.items ≡ slots.old.items) }
    ensures index { IsIndexOf slots.new.items index.new }
{
    if let Some(place) = index.text_place(text) {
        return Ok(place);
    }
    take_room(slots, 1)?;
    Ok(put_text(alloc, slots, index, text)?)
}

/// The first place of an entry that is a number, which is put behind the others where it is new.
pub fn add_number(
    slots: &mut Vec<Option<Entry>>,
    index: &mut Index,
    key: Key,
    entry: Entry,
) -> Result<u16, Fail<PoolFull>>
    requires pool { IsPool slots.old.items }
    requires index { IsIndexOf slots.old.items index.old }
    requires keyed { key_in index.old.firsts.items entry ≡ Some key }
    requires other { utf8_in entry ≡ None }
    ensures ok { IfOk result (Adds (key_at index.old.firsts.items) key slots.old.items (IsPutAs slots.old.items entry) slots.new.items) }
    ensures pool { IsPool slots.new.items }
    ensures full { RefusesFull (Adds (key_at index.old.firsts.items) key slots.old.items (IsPutAs slots.old.items entry)) result }
    ensures err { OnErr result (slots.new.items ≡ slots.old.items) }
    ensures index { IsIndexOf slots.new.items index.new }
{
    if let Some(place) = index.key_place(key) {
        return Ok(place);
    }
    take_room(slots, entry.width())?;
    index.reserve()?;
    Ok(put_entry(slots, index, entry))
}

/// How many places an entry lacks that names a text, which has this place.
fn missing(named: Option<u16>) -> usize
    ensures { result ≡ missing named }
{
    if named.is_some() { 1 } else { 2 }
}

/// The place of a text, which is put behind the others where it has none. There is room for it.
fn put_name(
    alloc: Global,
    slots: &mut Vec<Option<Entry>>,
    index: &mut Index,
    named: Option<u16>,
    text: &[u8],
) -> Result<u16, Memory>
    requires named { IsFirstBelow (length slots.old.items) (utf8_of slots.old.items) text.now named }
    requires room { vec_len slots.old + missing named ≤ vec_capacity slots.old }
    requires few { length slots.old.items + missing named ≤ 65535 }
    requires index { IsIndexOf slots.old.items index.old }
    ensures has { IfOk result (HasUtf8 slots.old.items text.now slots.new.items) }
    ensures room { OnOk result (vec_len slots.new < vec_capacity slots.new) }
    ensures few { OnOk result (length slots.new.items < 65535) }
    ensures kept { OnErr result (slots.new.items ≡ slots.old.items) }
    ensures keys { index.new.keys ≡ index.old.keys }
    ensures members { index.new.members ≡ index.old.members }
    ensures index { IsIndexOf slots.new.items index.new }
{
    match named {
        Some(at) => Ok(at),
        None => put_text(alloc, slots, index, text),
    }
}

/// Puts an entry that names a text behind the others, and before it the text, where it has no place.
fn put_naming(
    alloc: Global,
    slots: &mut Vec<Option<Entry>>,
    index: &mut Index,
    kind: Naming,
    named: Option<u16>,
    text: &[u8],
) -> Result<u16, Fail<PoolFull>>
    requires pool { IsPool slots.old.items }
    requires short { IsShortText text.now }
    requires named { IsFirstBelow (length slots.old.items) (utf8_of slots.old.items) text.now named }
    requires new { IsNowhere (naming_of kind slots.old.items) text.now }
    requires index { IsIndexOf slots.old.items index.old }
    ensures ok { IfOk result (HasNaming kind slots.old.items text.now slots.new.items) }
    ensures pool { IsPool slots.new.items }
    ensures full { RefusesFull (HasNaming kind slots.old.items text.now) result }
    ensures err { OnErr result (slots.new.items ≡ slots.old.items) }
    ensures index { IsIndexOf slots.new.items index.new }
{
    take_room(slots, missing(named))?;
    index.reserve()?;
    let at = put_name(alloc, slots, index, named, text)?;
    Ok(put_entry(slots, index, kind.entry(at)))
}

/// The first place of an entry that names a text, which is put behind the others where it is new.
pub fn add_naming(
    alloc: Global,
    slots: &mut Vec<Option<Entry>>,
    index: &mut Index,
    kind: Naming,
    text: &[u8],
) -> Result<u16, Fail<PoolFull>>
    requires pool { IsPool slots.old.items }
    requires short { IsShortText text.now }
    requires index { IsIndexOf slots.old.items index.old }
    ensures ok { IfOk result (HasNaming kind slots.old.items text.now slots.new.items) }
    ensures pool { IsPool slots.new.items }
    ensures full { RefusesFull (HasNaming kind slots.old.items text.now) result }
    ensures err { OnErr result (slots.new.items ≡ slots.old.items) }
    ensures index { IsIndexOf slots.new.items index.new }
{
    let named = index.text_place(text);
    if let Some(place) = index.naming_place(kind, named) {
        return Ok(place);
    }
    put_naming(alloc, slots, index, kind, named, text)
}
