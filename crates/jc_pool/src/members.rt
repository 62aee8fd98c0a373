//! Where members stand, by the first places of their texts.
ghost use Rattle.std.specs.Prelude.{◌≡◌, ◌↔◌, ◌<◌, ◌≤◌, Some, IfOk, IfSome, IfNone, IsTrue, length, option_copied};
ghost use Rattle.indexmap.specs.IndexMap.{spare};
ghost use Rattle.jc_pool.specs.Adding.{IsFirst, IsNowhere, IsMemberTag};
ghost use Rattle.jc_pool.specs.Index.{NotesEntry, key_at, key_place, texts_key, AreMembersOf, IsIndexOf};
ghost use Rattle.jc_pool.specs.Index.{named_places, slot_places, NamesWithin, member_key, places_key, member_key_at};
ghost use Rattle.jc_pool.specs.Lookup.{entry_of, member, member_of};

use crate::entry::Entry;
use crate::index::{Index, Key, Keys, key_of, note_key};
use crate::lookup::MemberText;
use indexmap::IndexMap;
use jc_bytes::Memory;
use std::alloc::Global;

/// Where members stand first.
#[derive(Debug, Drop)]
pub struct Members {
    /// The first place of each member by its key.
    pub keys: Keys,
    /// Whether each member named places of the pool alone when the index was made. Else what comes to
    /// stand at such a place changes a key, and the table isn't looked at.
    pub within: bool,
}

/// What a field or a method names (JVM Specification 4.4.2).
#[derive(Clone, Copy)]
pub struct NamedPlaces {
    /// The tag: 9 for a field, 10 for a method of a class, and 11 for one of an interface.
    tag: u8,
    /// The place of its class.
    class: u16,
    /// The place of its name and its descriptor.
    name_and_type: u16,
}

/// What an entry names as a field or a method.
fn named_places(entry: &Entry) -> Option<NamedPlaces>
    ensures { result ≡ named_places entry.now }
{
    let (tag, class, name_and_type) = match entry {
        Entry::Fieldref {
            class,
            name_and_type,
        } => (9, *class, *name_and_type),
        Entry::Methodref {
            class,
            name_and_type,
        } => (10, *class, *name_and_type),
        Entry::InterfaceMethodref {
            class,
            name_and_type,
        } => (11, *class, *name_and_type),
        _ => return None,
    };
    Some(NamedPlaces {
        tag,
        class,
        name_and_type,
    })
}

/// The entry at a place.
pub fn entry_at(slots: &[Option<Entry>], place: u16) -> Option<&Entry>
    ensures { option_copied result ≡ entry_of slots.now place }
{
    slots.get(usize::from(place))?.as_ref()
}

/// What the entry at a place names as a field or a method.
fn places_at(slots: &[Option<Entry>], place: u16) -> Option<NamedPlaces>
    ensures { result ≡ slot_places (entry_of slots.now place) }
{
    named_places(entry_at(slots, place)?)
}

/// The key of the entry at a place.
#[tactic(auto, unfolding(crate::specs::Index::key_at))]
pub fn key_at(slots: &[Option<Entry>], firsts: &[u16], place: u16) -> Option<Key>
    ensures { result ≡ key_at firsts.now slots.now place }
{
    key_of(firsts, entry_at(slots, place)?)
}

/// The key of a member, by those of its class, and of its name and descriptor.
fn member_key(tag: u8, class: Option<Key>, signature: Option<Key>) -> Option<Key>
    ensures { result ≡ member_key tag class signature }
{
    match (class, signature) {
        (Some(Key::Class { name: class }), Some(Key::Signature { name, descriptor })) => {
            Some(Key::Member {
                tag,
                class,
                name,
                descriptor,
            })
        }
        _ => None,
    }
}

/// The key of the member that names these places.
fn places_key(slots: &[Option<Entry>], firsts: &[u16], named: NamedPlaces) -> Option<Key>
    ensures { result ≡ places_key firsts.now slots.now named }
{
    let class = key_at(slots, firsts, named.class);
    let signature = key_at(slots, firsts, named.name_and_type);
    member_key(named.tag, class, signature)
}

/// The key of the member at a place.
pub fn member_key_at(slots: &[Option<Entry>], firsts: &[u16], place: u16) -> Option<Key>
    ensures { result ≡ member_key_at firsts.now slots.now place }
{
    places_key(slots, firsts, places_at(slots, place)?)
}

/// Notes the place of a member that names these places, for which there is room.
fn note_reserved(
    members: &mut Keys,
    slots: &[Option<Entry>],
    firsts: &[u16],
    named: NamedPlaces,
    place: u16,
)
    requires { 0 < spare members.old }
    ensures { NotesEntry (key_place members.old.entries) (key_place members.new.entries) (places_key firsts.now slots.now named) place }
{
    if let Some(key) = places_key(slots, firsts, named) {
        note_key(members, key, place);
    }
}

/// Notes the place of the entry that was put last, where it is a member.
pub fn note_behind(members: &mut Keys, slots: &[Option<Entry>], firsts: &[u16], place: u16)
    requires { 0 < spare members.old }
    ensures { NotesEntry (key_place members.old.entries) (key_place members.new.entries) (member_key_at firsts.now slots.now place) place }
{
    if let Some(named) = places_at(slots, place) {
        note_reserved(members, slots, firsts, named, place);
    }
}

/// Whether what a field or a method names is in the pool, whatever stands there. If so, its place is
/// noted.
fn note_within(
    members: &mut Keys,
    slots: &[Option<Entry>],
    firsts: &[u16],
    named: NamedPlaces,
    place: u16,
) -> Result<bool, Memory>
    ensures class { IfOk result (λ within. IsTrue within → named.class < length slots.now) }
    ensures name_and_type { IfOk result (λ within. IsTrue within → named.name_and_type < length slots.now) }
    ensures noted { IfOk result (λ within. IsTrue within
        → NotesEntry (key_place members.old.entries) (key_place members.new.entries) (places_key firsts.now slots.now named) place) }
{
    if usize::from(named.class) >= slots.len() || usize::from(named.name_and_type) >= slots.len() {
        return Ok(false);
    }
    members.reserve(1)?;
    note_reserved(members, slots, firsts, named, place);
    Ok(true)
}

/// Whether what the entry at a place names as a field or a method is in the pool, whatever stands
/// there. If so, the place of the member is noted.
fn note_slot(
    members: &mut Keys,
    slots: &[Option<Entry>],
    firsts: &[u16],
    place: u16,
) -> Result<bool, Memory>
    ensures within { IfOk result (λ within. IsTrue within → NamesWithin (length slots.now) (entry_of slots.now place)) }
    ensures noted { IfOk result (λ within. IsTrue within
        → NotesEntry (key_place members.old.entries) (key_place members.new.entries) (member_key_at firsts.now slots.now place) place) }
{
    match places_at(slots, place) {
        Some(named) => note_within(members, slots, firsts, named, place),
        None => Ok(true),
    }
}

/// The first places of all members, unless one of them names a place behind the end.
pub fn members_of(alloc: Global, slots: &[Option<Entry>], firsts: &[u16]) -> Result<Members, Memory>
    requires { length slots.now ≤ 65535 }
    ensures { IfOk result (λ members. IsTrue members.within → AreMembersOf slots.now firsts.now (key_place members.keys.entries)) }
{
    let mut keys = IndexMap::new(alloc);
    'reading: for place in 0..slots.len() as u16 {
        if !note_slot(&mut keys, slots, firsts, place)? {
            return Ok(Members {
                keys,
                within: false,
            });
        }
    }
    Ok(Members { keys, within: true })
}

/// The key of a member with this tag, by the first places of its texts.
pub fn texts_key(
    tag: u8,
    class: Option<u16>,
    name: Option<u16>,
    descriptor: Option<u16>,
) -> Option<Key>
    ensures { result ≡ texts_key tag class name descriptor }
{
    Some(Key::Member {
        tag,
        class: class?,
        name: name?,
        descriptor: descriptor?,
    })
}

/// Whether the member at a place has this key.
fn is_key_there(slots: &[Option<Entry>], firsts: &[u16], place: u16, key: Key) -> bool
    ensures { IsTrue result ↔ (member_key_at firsts.now slots.now place ≡ Some key) }
{
    match member_key_at(slots, firsts, place) {
        Some(found) => found == key,
        None => false,
    }
}

/// The first place of a member by its key, for which all places are looked at.
fn look_for_key(slots: &[Option<Entry>], firsts: &[u16], key: Key) -> Option<u16>
    requires { length slots.now ≤ 65535 }
    ensures first { IfSome result (IsFirst (member_key_at firsts.now slots.now) key) }
    ensures none { IfNone result (IsNowhere (member_key_at firsts.now slots.now) key) }
{
    'finding: for place in 0..slots.len() as u16 {
        if is_key_there(slots, firsts, place, key) {
            return Some(place);
        }
    }
    None
}

/// The first place of a key of a member.
fn place_of_key(slots: &[Option<Entry>], index: &Index, key: Key) -> Option<u16>
    requires few { length slots.now ≤ 65535 }
    requires index { IsIndexOf slots.now index.now }
    ensures first { IfSome result (IsFirst (member_key_at index.now.firsts.items slots.now) key) }
    ensures none { IfNone result (IsNowhere (member_key_at index.now.firsts.items slots.now) key) }
{
    if index.members.within {
        return index.members.keys.get(&key).copied();
    }
    look_for_key(slots, &index.firsts, key)
}

/// The first place of a member, exactly where it stands in the pool. It is found by hash, or where
/// the table of members isn't looked at, by looking at each place once.
pub fn find_member(slots: &[Option<Entry>], index: &Index, m: &MemberText<'_>) -> Option<u16>
    requires few { length slots.now ≤ 65535 }
    requires tag { IsMemberTag m.now.tag }
    requires index { IsIndexOf slots.now index.now }
    ensures first { IfSome result (IsFirst (member_of slots.now) (member m.now)) }
    ensures none { IfNone result (IsNowhere (member_of slots.now) (member m.now)) }
{
    let class = index.text_place(m.class);
    let name = index.text_place(m.name);
    let descriptor = index.text_place(m.desc);
    match texts_key(m.tag, class, name, descriptor) {
        Some(key) => place_of_key(slots, index, key),
        None => None,
    }
}
