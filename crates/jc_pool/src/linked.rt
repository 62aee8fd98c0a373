//! Where method handles and computed constants stand, by the first places of their texts.
ghost use Rattle.std.specs.Prelude.{◌≡◌, ◌↔◌, ◌≤◌, Some, IfSome, IfNone, IsTrue, length};
ghost use Rattle.jc_pool.specs.Adding.{IsFirst, IsNowhere, IsMemberTag};
ghost use Rattle.jc_pool.specs.Index.{IsIndexOf, computed, handle, signature_key, handle_key, computed_key, linked_key, linked_key_at};
ghost use Rattle.jc_pool.specs.Lookup.{computed_of, handle_of, member};

use crate::entry::Entry;
use crate::index::{Index, Key};
use crate::lookup::MemberText;
use crate::members::{entry_at, key_at, member_key_at, texts_key};

/// What a computed constant has (JVM Specification 4.4.10).
#[derive(Clone, Copy)]
pub struct ComputedText<'a> {
    /// The number of its bootstrap method.
    pub bootstrap: u16,
    /// The name.
    pub name: &'a [u8],
    /// The descriptor.
    pub desc: &'a [u8],
}

/// The key of a name and a descriptor, by the first places of these texts.
fn signature_key(name: Option<u16>, descriptor: Option<u16>) -> Option<Key>
    ensures { result ≡ signature_key name descriptor }
{
    Some(Key::Signature {
        name: name?,
        descriptor: descriptor?,
    })
}

/// The key of a method handle, by that of its member.
fn handle_key(kind: u8, member: Option<Key>) -> Option<Key>
    ensures { result ≡ handle_key kind member }
{
    match member {
        Some(
            Key::Member {
                tag,
                class,
                name,
                descriptor,
            },
        ) => Some(Key::Handle {
            kind,
            tag,
            class,
            name,
            descriptor,
        }),
        _ => None,
    }
}

/// The key of a computed constant, by that of its name and descriptor.
fn computed_key(bootstrap: u16, signature: Option<Key>) -> Option<Key>
    ensures { result ≡ computed_key bootstrap signature }
{
    match signature {
        Some(Key::Signature { name, descriptor }) => Some(Key::Computed {
            bootstrap,
            name,
            descriptor,
        }),
        _ => None,
    }
}

/// The key of an entry, where it is a method handle or a computed constant.
fn linked_key(slots: &[Option<Entry>], firsts: &[u16], entry: &Entry) -> Option<Key>
    ensures { result ≡ linked_key firsts.now slots.now entry.now }
{
    match entry {
        Entry::MethodHandle { kind, reference } => {
            handle_key(*kind, member_key_at(slots, firsts, *reference))
        }
        Entry::Dynamic {
            bootstrap,
            name_and_type,
        } => computed_key(*bootstrap, key_at(slots, firsts, *name_and_type)),
        _ => None,
    }
}

/// The key of the method handle or the computed constant at a place.
fn linked_key_at(slots: &[Option<Entry>], firsts: &[u16], place: u16) -> Option<Key>
    ensures { result ≡ linked_key_at firsts.now slots.now place }
{
    linked_key(slots, firsts, entry_at(slots, place)?)
}

/// Whether the method handle or the computed constant at a place has this key.
fn is_linked_there(slots: &[Option<Entry>], firsts: &[u16], place: u16, key: Key) -> bool
    ensures { IsTrue result ↔ (linked_key_at firsts.now slots.now place ≡ Some key) }
{
    match linked_key_at(slots, firsts, place) {
        Some(found) => found == key,
        None => false,
    }
}

/// The first place of a method handle or a computed constant by its key, for which all places are
/// looked at.
fn look_for_linked(slots: &[Option<Entry>], firsts: &[u16], key: Key) -> Option<u16>
    requires { length slots.now ≤ 65535 }
    ensures first { IfSome result (IsFirst (linked_key_at firsts.now slots.now) key) }
    ensures none { IfNone result (IsNowhere (linked_key_at firsts.now slots.now) key) }
{
    'finding: for place in 0..slots.len() as u16 {
        if is_linked_there(slots, firsts, place, key) {
            return Some(place);
        }
    }
    None
}

/// The first place of a computed constant, exactly where it stands in the pool. Each place is looked
/// at once, and no text is compared.
pub fn find_computed(slots: &[Option<Entry>], index: &Index, c: &ComputedText<'_>) -> Option<u16>
    requires few { length slots.now ≤ 65535 }
    requires index { IsIndexOf slots.now index.now }
    ensures first { IfSome result (IsFirst (computed_of slots.now) (computed c.now)) }
    ensures none { IfNone result (IsNowhere (computed_of slots.now) (computed c.now)) }
{
    let name = index.text_place(c.name);
    let descriptor = index.text_place(c.desc);
    match computed_key(c.bootstrap, signature_key(name, descriptor)) {
        Some(key) => look_for_linked(slots, &index.firsts, key),
        None => None,
    }
}

/// The first place of a method handle of this kind to a member, exactly where it stands in the pool.
/// Each place is looked at once, and no text is compared.
pub fn find_handle(
    slots: &[Option<Entry>],
    index: &Index,
    kind: u8,
    m: &MemberText<'_>,
) -> Option<u16>
    requires few { length slots.now ≤ 65535 }
    requires tag { IsMemberTag m.now.tag }
    requires index { IsIndexOf slots.now index.now }
    ensures first { IfSome result (IsFirst (handle_of slots.now) (handle kind (member m.now))) }
    ensures none { IfNone result (IsNowhere (handle_of slots.now) (handle kind (member m.now))) }
{
    let class = index.text_place(m.class);
    let name = index.text_place(m.name);
    let descriptor = index.text_place(m.desc);
    match handle_key(kind, texts_key(m.tag, class, name, descriptor)) {
        Some(key) => look_for_linked(slots, &index.firsts, key),
        None => None,
    }
}
