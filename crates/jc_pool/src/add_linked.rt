//! Adding method handles and computed constants to what stands at the places of a pool.
ghost use Rattle.std.specs.Prelude.{◌≡◌, ◌≤◌, ℕ, None, Some, IfOk, OnOk, OnErr, length};
ghost use Rattle.jc_bytes.specs.Texts.{IsShortText};
ghost use Rattle.jc_pool.specs.Adding.{IsNowhere, IsPut, PutsHandle, HasHandle, PutsComputed, HasComputed, IsMemberTag, Extends, RefusesFull};
ghost use Rattle.jc_pool.specs.Index.{IsIndexOf, NamesWithin, GrowsBy, computed, handle};
ghost use Rattle.jc_pool.specs.Lookup.{utf8_in, computed_of, handle_of, member, HasShortTexts};
ghost use Rattle.jc_pool.specs.Pool.{IsPool, width};

use crate::add::{PoolFull, check_room, put_entry, take_room};
use crate::add_member::{add_member, add_signature, missing_member, missing_signature};
use crate::entry::Entry;
use crate::index::Index;
use crate::linked::{ComputedText, find_computed, find_handle};
use crate::lookup::MemberText;
use crate::members::find_member;
use jc_bytes::Fail;
use std::alloc::Global;

/// Puts an entry of one place that has no text of its own behind the others.
fn put_behind(
    slots: &mut Vec<Option<Entry>>,
    index: &mut Index,
    entry: Entry,
) -> Result<u16, Fail<PoolFull>>
    requires pool { IsPool slots.old.items }
    requires other { utf8_in entry ≡ None }
    requires narrow { width entry ≡ 1 }
    requires within { NamesWithin (length slots.old.items) (Some entry) }
    requires index { IsIndexOf slots.old.items index.old }
    ensures ok { IfOk result (IsPut slots.old.items slots.new.items entry) }
    ensures pool { IsPool slots.new.items }
    ensures extends { Extends slots.old.items slots.new.items }
    ensures index { IsIndexOf slots.new.items index.new }
{
    take_room(slots, 1)?;
    index.reserve()?;
    Ok(put_entry(slots, index, entry))
}

// ---- computed constants

/// How many places a computed constant lacks, its own and those of its parts.
pub fn missing_computed(slots: &[Option<Entry>], index: &Index, c: &ComputedText<'_>) -> usize
    requires { IsIndexOf slots.now index.now }
    ensures lacks { GrowsBy slots.now (PutsComputed slots.now (computed c.now)) result }
    ensures some { 1 ≤ result }
    ensures few { result ≤ 4 }
{
    let _pool = slots;
    let name = index.text_place(c.name);
    let desc = index.text_place(c.desc);
    let found = index.signature_place(name, desc);
    missing_signature(found, c.desc == c.name, name, desc) + 1
}

/// Puts the parts of a computed constant that are missing behind the others, and then the constant.
fn put_computed(
    alloc: Global,
    slots: &mut Vec<Option<Entry>>,
    index: &mut Index,
    c: &ComputedText<'_>,
) -> Result<u16, Fail<PoolFull>>
    requires pool { IsPool slots.old.items }
    requires name { IsShortText c.now.name.now }
    requires desc { IsShortText c.now.desc.now }
    requires index { IsIndexOf slots.old.items index.old }
    ensures ok { IfOk result (PutsComputed slots.old.items (computed c.now) slots.new.items) }
    ensures pool { IsPool slots.new.items }
    ensures extends { Extends slots.old.items slots.new.items }
    ensures index { IsIndexOf slots.new.items index.new }
{
    let name_and_type = add_signature(alloc, slots, index, c.name, c.desc)?;
    let bootstrap = c.bootstrap;
    let constant = Entry::Dynamic {
        bootstrap,
        name_and_type,
    };
    put_behind(slots, index, constant)
}

/// The place of a computed constant that is new, which is put behind the others.
fn add_new_computed(
    alloc: Global,
    slots: &mut Vec<Option<Entry>>,
    index: &mut Index,
    c: &ComputedText<'_>,
) -> Result<u16, Fail<PoolFull>>
    requires pool { IsPool slots.old.items }
    requires name { IsShortText c.now.name.now }
    requires desc { IsShortText c.now.desc.now }
    requires new { IsNowhere (computed_of slots.old.items) (computed c.now) }
    requires index { IsIndexOf slots.old.items index.old }
    ensures ok { IfOk result (HasComputed slots.old.items (computed c.now) slots.new.items) }
    ensures pool { IsPool slots.new.items }
    ensures full { RefusesFull (HasComputed slots.old.items (computed c.now)) result }
    ensures err { OnErr result (slots.new.items ≡ slots.old.items) }
    ensures index { OnOk result (IsIndexOf slots.new.items index.new) }
{
    let count = slots.len();
    check_room(count, missing_computed(slots, index, c))?;
    // There is a place for each part, so only memory can be refused.
    match put_computed(alloc, slots, index, c) {
        Ok(place) => Ok(place),
        Err(_) => {
            slots.truncate(count);
            Err(Fail::Memory)
        }
    }
}

/// The first place of a computed constant, which is put behind the others where it is new.
pub fn add_computed(
    alloc: Global,
    slots: &mut Vec<Option<Entry>>,
    index: &mut Index,
    c: &ComputedText<'_>,
) -> Result<u16, Fail<PoolFull>>
    requires pool { IsPool slots.old.items }
    requires name { IsShortText c.now.name.now }
    requires desc { IsShortText c.now.desc.now }
    requires index { IsIndexOf slots.old.items index.old }
    ensures ok { IfOk result (HasComputed slots.old.items (computed c.now) slots.new.items) }
    ensures pool { IsPool slots.new.items }
    ensures full { RefusesFull (HasComputed slots.old.items (computed c.now)) result }
    ensures err { OnErr result (slots.new.items ≡ slots.old.items) }
    ensures index { OnOk result (IsIndexOf slots.new.items index.new) }
{
    if let Some(place) = find_computed(slots, index, c) {
        return Ok(place);
    }
    add_new_computed(alloc, slots, index, c)
}

// ---- method handles

/// How many places a method handle lacks, its own and those of its member and its parts.
fn missing_handle(slots: &[Option<Entry>], index: &Index, m: &MemberText<'_>) -> usize
    requires tag { IsMemberTag m.now.tag }
    requires index { IsIndexOf slots.now index.now }
    requires few { length slots.now ≤ 65535 }
    ensures lacks { (kind : ℕ) → GrowsBy slots.now (PutsHandle slots.now (handle kind (member m.now))) result }
    ensures few { result ≤ 7 }
{
    match find_member(slots, index, m) {
        Some(_) => 1,
        None => missing_member(slots, index, m) + 1,
    }
}

/// Puts what a method handle lacks behind the others, and then the handle.
fn put_handle(
    alloc: Global,
    slots: &mut Vec<Option<Entry>>,
    index: &mut Index,
    kind: u8,
    m: &MemberText<'_>,
) -> Result<u16, Fail<PoolFull>>
    requires pool { IsPool slots.old.items }
    requires tag { IsMemberTag m.now.tag }
    requires texts { HasShortTexts (member m.now) }
    requires index { IsIndexOf slots.old.items index.old }
    ensures ok { IfOk result (PutsHandle slots.old.items (handle kind (member m.now)) slots.new.items) }
    ensures pool { IsPool slots.new.items }
    ensures extends { Extends slots.old.items slots.new.items }
    ensures index { OnOk result (IsIndexOf slots.new.items index.new) }
{
    let reference = add_member(alloc, slots, index, m)?;
    put_behind(slots, index, Entry::MethodHandle { kind, reference })
}

/// The place of a method handle that is new, which is put behind the others.
fn add_new_handle(
    alloc: Global,
    slots: &mut Vec<Option<Entry>>,
    index: &mut Index,
    kind: u8,
    m: &MemberText<'_>,
) -> Result<u16, Fail<PoolFull>>
    requires pool { IsPool slots.old.items }
    requires tag { IsMemberTag m.now.tag }
    requires texts { HasShortTexts (member m.now) }
    requires new { IsNowhere (handle_of slots.old.items) (handle kind (member m.now)) }
    requires index { IsIndexOf slots.old.items index.old }
    ensures ok { IfOk result (HasHandle slots.old.items (handle kind (member m.now)) slots.new.items) }
    ensures pool { IsPool slots.new.items }
    ensures full { RefusesFull (HasHandle slots.old.items (handle kind (member m.now))) result }
    ensures err { OnErr result (slots.new.items ≡ slots.old.items) }
    ensures index { OnOk result (IsIndexOf slots.new.items index.new) }
{
    let count = slots.len();
    check_room(count, missing_handle(slots, index, m))?;
    // There is a place for each part, so only memory can be refused.
    match put_handle(alloc, slots, index, kind, m) {
        Ok(place) => Ok(place),
        Err(_) => {
            slots.truncate(count);
            Err(Fail::Memory)
        }
    }
}

/// The first place of a method handle, which is put behind the others where it is new.
pub fn add_handle(
    alloc: Global,
    slots: &mut Vec<Option<Entry>>,
    index: &mut Index,
    kind: u8,
    m: &MemberText<'_>,
) -> Result<u16, Fail<PoolFull>>
    requires pool { IsPool slots.old.items }
    requires tag { IsMemberTag m.now.tag }
    requires texts { HasShortTexts (member m.now) }
    requires index { IsIndexOf slots.old.items index.old }
    ensures ok { IfOk result (HasHandle slots.old.items (handle kind (member m.now)) slots.new.items) }
    ensures pool { IsPool slots.new.items }
    ensures full { RefusesFull (HasHandle slots.old.items (handle kind (member m.now))) result }
    ensures err { OnErr result (slots.new.items ≡ slots.old.items) }
    ensures index { OnOk result (IsIndexOf slots.new.items index.new) }
{
    if let Some(place) = find_handle(slots, index, kind, m) {
        return Ok(place);
    }
    add_new_handle(alloc, slots, index, kind, m)
}
