//! Adding fields and methods to what stands at the places of a pool.
ghost use Rattle.std.specs.Prelude.{◌≡◌, ◌+◌, ◌≤◌, Some, IfOk, OnOk, OnErr, length};
ghost use Rattle.jc_bytes.specs.Texts.{IsShortText};
ghost use Rattle.jc_pool.specs.Adding.{IsNowhere, HasSignature, PutsMember, HasMember, IsMemberTag, Extends, RefusesFull, entry_of_member};
ghost use Rattle.jc_pool.specs.Index.{IsIndexOf, IsClassed, Lacks, text_place, with_text, new_name, absent, missing_signature};
ghost use Rattle.jc_pool.specs.Lookup.{member_of, member, HasShortTexts};
ghost use Rattle.jc_pool.specs.Pool.{IsPool};

use crate::add::{PoolFull, add_naming, add_text, check_room, put_entry, take_room};
use crate::entry::Entry;
use crate::index::{Index, Naming};
use crate::lookup::MemberText;
use crate::members::find_member;
use jc_bytes::Fail;
use std::alloc::Global;

/// The entry of a field or a method with this tag.
fn entry_of(tag: u8, class: u16, name_and_type: u16) -> Entry
    ensures { result ≡ entry_of_member tag class name_and_type }
{
    match tag {
        9 => Entry::Fieldref {
            class,
            name_and_type,
        },
        10 => Entry::Methodref {
            class,
            name_and_type,
        },
        _ => Entry::InterfaceMethodref {
            class,
            name_and_type,
        },
    }
}

/// What a class lacks.
#[derive(Clone, Copy)]
struct MissingClass {
    /// How many places.
    places: usize,
    /// Whether its name is to be put, behind the others.
    name: bool,
}

/// What a class lacks in a pool.
fn missing_class(slots: &[Option<Entry>], index: &Index, class: &[u8]) -> MissingClass
    requires { IsIndexOf slots.now index.now }
    ensures classed { IsClassed slots.now index.now class.now result.places (new_name result.name class.now (length slots.now)) }
    ensures few { result.places ≤ 2 }
{
    let _pool = slots;
    let named = index.text_place(class);
    let (places, name) = match (index.naming_place(Naming::Class, named), named) {
        (Some(_), _) => (0, false),
        (None, Some(_)) => (1, false),
        (None, None) => (2, true),
    };
    MissingClass { places, name }
}

/// The place of a text, where this name is put at this place, or nothing is put.
fn place_beside(index: &Index, put: bool, name: &[u8], place: u16, text: &[u8]) -> Option<u16>
    ensures { result ≡ with_text (text_place index.now.texts.entries (λ x. x.items)) (new_name put name.now place) text.now }
{
    if put && text == name {
        Some(place)
    } else {
        index.text_place(text)
    }
}

/// How many places a text lacks that has this place.
fn absent(place: Option<u16>) -> usize
    ensures { result ≡ absent place }
{
    if place.is_some() { 0 } else { 1 }
}

/// How many places a NameAndType entry and its texts lack, where an equal one and the texts have
/// these places.
pub fn missing_signature(
    found: Option<u16>,
    same: bool,
    name: Option<u16>,
    desc: Option<u16>,
) -> usize
    ensures count { result ≡ missing_signature found same name desc }
    ensures few { result ≤ 3 }
{
    match found {
        Some(_) => 0,
        None if same => absent(name) + 1,
        None => absent(name) + absent(desc) + 1,
    }
}

/// How many places a member lacks, its own and those of its parts.
pub fn missing_member(slots: &[Option<Entry>], index: &Index, m: &MemberText<'_>) -> usize
    requires index { IsIndexOf slots.now index.now }
    requires few { length slots.now ≤ 65535 }
    ensures lacks { Lacks slots.now (member m.now) result }
    ensures few { result ≤ 6 }
{
    let class = missing_class(slots, index, m.class);
    let end = slots.len() as u16;
    let name = place_beside(index, class.name, m.class, end, m.name);
    let desc = place_beside(index, class.name, m.class, end, m.desc);
    let found = index.signature_place(name, desc);
    class.places + missing_signature(found, m.desc == m.name, name, desc) + 1
}

/// The first place of a name and a descriptor, which are put behind the others where they are new.
pub fn add_signature(
    alloc: Global,
    slots: &mut Vec<Option<Entry>>,
    index: &mut Index,
    name: &[u8],
    desc: &[u8],
) -> Result<u16, Fail<PoolFull>>
    requires pool { IsPool slots.old.items }
    requires name { IsShortText name.now }
    requires desc { IsShortText desc.now }
    requires index { IsIndexOf slots.old.items index.old }
    ensures ok { IfOk result (HasSignature slots.old.items (record { name = name.now; desc = desc.now }) slots.new.items) }
    ensures pool { IsPool slots.new.items }
    ensures extends { Extends slots.old.items slots.new.items }
    ensures index { IsIndexOf slots.new.items index.new }
{
    let named = index.text_place(name);
    let described = index.text_place(desc);
    if let Some(place) = index.signature_place(named, described) {
        return Ok(place);
    }
    let name = add_text(alloc, slots, index, name)?;
    let descriptor = add_text(alloc, slots, index, desc)?;
    take_room(slots, 1)?;
    index.reserve()?;
    Ok(put_entry(slots, index, Entry::NameAndType { name, descriptor }))
}

/// Puts the parts of a member that are missing behind the others, and then the member.
fn put_member(
    alloc: Global,
    slots: &mut Vec<Option<Entry>>,
    index: &mut Index,
    m: &MemberText<'_>,
) -> Result<u16, Fail<PoolFull>>
    requires pool { IsPool slots.old.items }
    requires texts { HasShortTexts (member m.now) }
    requires index { IsIndexOf slots.old.items index.old }
    ensures ok { IfOk result (PutsMember slots.old.items (member m.now) slots.new.items) }
    ensures pool { IsPool slots.new.items }
    ensures extends { Extends slots.old.items slots.new.items }
    ensures index { IsIndexOf slots.new.items index.new }
{
    let class = add_naming(alloc, slots, index, Naming::Class, m.class)?;
    let name_and_type = add_signature(alloc, slots, index, m.name, m.desc)?;
    take_room(slots, 1)?;
    index.reserve()?;
    Ok(put_entry(slots, index, entry_of(m.tag, class, name_and_type)))
}

/// The place of a member that is new, which is put behind the others.
fn add_new_member(
    alloc: Global,
    slots: &mut Vec<Option<Entry>>,
    index: &mut Index,
    m: &MemberText<'_>,
) -> Result<u16, Fail<PoolFull>>
    requires pool { IsPool slots.old.items }
    requires texts { HasShortTexts (member m.now) }
    requires new { IsNowhere (member_of slots.old.items) (member m.now) }
    requires index { IsIndexOf slots.old.items index.old }
    ensures ok { IfOk result (HasMember slots.old.items (member m.now) slots.new.items) }
    ensures pool { IsPool slots.new.items }
    ensures full { RefusesFull (HasMember slots.old.items (member m.now)) result }
    ensures err { OnErr result (slots.new.items ≡ slots.old.items) }
    ensures index { OnOk result (IsIndexOf slots.new.items index.new) }
{
    let count = slots.len();
    check_room(count, missing_member(slots, index, m))?;
    // There is a place for each part, so only memory can be refused.
    match put_member(alloc, slots, index, m) {
        Ok(place) => Ok(place),
        Err(_) => {
            slots.truncate(count);
            Err(Fail::Memory)
        }
    }
}

/// The first place of a member, which is put behind the others where it is new.
pub fn add_member(
    alloc: Global,
    slots: &mut Vec<Option<Entry>>,
    index: &mut Index,
    m: &MemberText<'_>,
) -> Result<u16, Fail<PoolFull>>
    requires pool { IsPool slots.old.items }
    requires tag { IsMemberTag m.now.tag }
    requires texts { HasShortTexts (member m.now) }
    requires index { IsIndexOf slots.old.items index.old }
    ensures ok { IfOk result (HasMember slots.old.items (member m.now) slots.new.items) }
    ensures pool { IsPool slots.new.items }
    ensures full { RefusesFull (HasMember slots.old.items (member m.now)) result }
    ensures err { OnErr result (slots.new.items ≡ slots.old.items) }
    ensures index { OnOk result (IsIndexOf slots.new.items index.new) }
{
    if let Some(place) = find_member(slots, index, m) {
        return Ok(place);
    }
    add_new_member(alloc, slots, index, m)
}
