//! Where equal entries stand, by their hash.
ghost use Rattle.std.specs.Prelude.{◌≡◌, ◌<◌, ◌≤◌, ℕ, IfOk, OnOk, OnErr, length};
ghost use Rattle.indexmap.specs.IndexMap.{spare};
ghost use Rattle.jc_pool.specs.Pool.{PoolValue};
ghost use Rattle.jc_pool.specs.Index.{AreFirsts, AreStandins, IsIndexOf, HasSpare, Notes, NotesText, NotesEntry};
ghost use Rattle.jc_pool.specs.Index.{text_in, text_place, standing_for, key_in, key_at, slot_key, key_place};
ghost use Rattle.jc_pool.specs.Index.{entry_naming, key_naming, naming_place, signature_place};
ghost use Rattle.jc_pool.specs.Lookup.{utf8_of};

use crate::entry::Entry;
use crate::members::{Members, members_of};
use indexmap::IndexMap;
use jc_bytes::Memory;
use std::alloc::Global;

/// What an entry is by its content: a number, or texts that it names, each by its first place. Two
/// such entries are equal by content exactly where their keys are equal.
#[derive(Clone, Copy, Debug, PartialEq, Eq, Hash)]
pub enum Key {
    /// An int by its value.
    Integer(i32),
    /// A long by its value.
    Long(i64),
    /// A class by its name.
    Class {
        name: u16,
    },
    /// A string by its text.
    String {
        text: u16,
    },
    /// A name and a descriptor.
    Signature {
        name: u16,
        descriptor: u16,
    },
    /// A field or a method by its tag, the name of its class, its name and its descriptor.
    Member {
        tag: u8,
        class: u16,
        name: u16,
        descriptor: u16,
    },
    /// A constant that a bootstrap method gives by the number of that method, its name and its
    /// descriptor.
    Computed {
        bootstrap: u16,
        name: u16,
        descriptor: u16,
    },
    /// A method handle by its kind, and its member as above.
    Handle {
        kind: u8,
        tag: u8,
        class: u16,
        name: u16,
        descriptor: u16,
    },
}

/// A kind of entry that names one text.
#[derive(Clone, Copy, Debug, PartialEq, Eq)]
pub enum Naming {
    /// A class by its name (JVM Specification 4.4.1).
    Class,
    /// A string by its text (JVM Specification 4.4.3).
    String,
}

impl Naming {
    /// The entry of this kind that names the text at this place.
    pub fn entry(self, text: u16) -> Entry
        ensures { result ≡ entry_naming self text }
    {
        match self {
            Naming::Class => Entry::Class { name: text },
            Naming::String => Entry::String { text },
        }
    }

    /// Its key, where this is the first place of the text.
    fn key(self, text: u16) -> Key
        ensures { result ≡ key_naming self text }
    {
        match self {
            Naming::Class => Key::Class { name: text },
            Naming::String => Key::String { text },
        }
    }
}

/// Texts that differ, each with the first place at which it stands.
pub type Texts = IndexMap<Vec<u8>, u16>;

/// Keys that differ, each with the first place of an entry that has it.
pub type Keys = IndexMap<Key, u16>;

/// Where equal entries stand in a pool.
#[derive(Debug, Drop)]
pub struct Index {
    /// For each place that the pool had when the index was made, the first place of the same text;
    /// where no Utf8 entry stands, the place itself.
    pub firsts: Vec<u16>,
    /// The first place of each text.
    pub texts: Texts,
    /// The first place of each key but those of members.
    pub keys: Keys,
    /// The first places of members.
    pub members: Members,
}

/// The place in the table, and behind its end the place itself.
fn standing_for(firsts: &[u16], place: u16) -> u16
    ensures { result ≡ standing_for firsts.now place }
{
    match firsts.get(usize::from(place)) {
        Some(first) => *first,
        None => place,
    }
}

/// The key of an entry that is a number, or names others.
pub fn key_of(firsts: &[u16], entry: &Entry) -> Option<Key>
    ensures { result ≡ key_in firsts.now entry.now }
{
    match entry {
        Entry::Integer(value) => Some(Key::Integer(*value)),
        Entry::Long(value) => Some(Key::Long(*value)),
        Entry::String { text } => Some(Key::String {
            text: standing_for(firsts, *text),
        }),
        Entry::NameAndType { name, descriptor } => Some(Key::Signature {
            name: standing_for(firsts, *name),
            descriptor: standing_for(firsts, *descriptor),
        }),
        Entry::Class { name } => Some(Key::Class {
            name: standing_for(firsts, *name),
        }),
        _ => None,
    }
}

/// The first place of a text, which is this one where the text is new.
pub fn note_text(alloc: Global, texts: &mut Texts, text: &[u8], place: u16) -> Result<u16, Memory>
    ensures ok { IfOk result (Notes (text_place texts.old.entries (λ x. x.items)) (text_place texts.new.entries (λ x. x.items))
        text.now place) }
    ensures err { OnErr result (texts.new.entries ≡ texts.old.entries) }
{
    if let Some(first) = texts.get(text) {
        return Ok(*first);
    }
    let stored = Vec::from_slice(alloc, text)?;
    texts.insert(stored, place)?;
    Ok(place)
}

/// The first place of the text of an entry, which is this one where the text is new; where there is
/// no text, this place.
fn note_slot_text(
    alloc: Global,
    texts: &mut Texts,
    slot: &Option<Entry>,
    place: u16,
) -> Result<u16, Memory>
    ensures { IfOk result (NotesText (text_place texts.old.entries (λ x. x.items)) (text_place texts.new.entries (λ x. x.items))
        (text_in slot.now) place) }
{
    match slot {
        Some(Entry::Utf8(text)) => note_text(alloc, texts, text.as_slice(), place),
        _ => Ok(place),
    }
}

/// The first places of all texts, and for each place the one that stands for it.
fn texts_of(alloc: Global, slots: &[Option<Entry>]) -> Result<(Vec<u16>, Texts), Memory>
    requires { length slots.now ≤ 65535 }
    ensures texts { IfOk result (λ r. AreFirsts (length slots.now) (utf8_of slots.now) (text_place r.1.entries (λ x. x.items))) }
    ensures firsts { IfOk result (λ r. AreStandins (utf8_of slots.now) (length slots.now) r.0.items) }
{
    let mut firsts = Vec::with_capacity(alloc, slots.len())?;
    let mut texts = IndexMap::new(alloc);
    'reading: for slot in slots {
        let place = firsts.len() as u16;
        let first = note_slot_text(alloc, &mut texts, slot, place)?;
        firsts.push(first)?;
    }
    Ok((firsts, texts))
}

/// Notes the place of a key that is new, for which there is room.
pub fn note_key(keys: &mut Keys, key: Key, place: u16)
    requires { 0 < spare keys.old }
    ensures { (first : ℕ) × Notes (key_place keys.old.entries) (key_place keys.new.entries) key place first }
{
    if keys.get(&key).is_none() {
        let _stored = keys.insert(key, place);
    }
}

/// Notes the place of an entry that names others, for which there is room.
pub fn note_entry(keys: &mut Keys, firsts: &[u16], entry: &Entry, place: u16)
    requires { 0 < spare keys.old }
    ensures { NotesEntry (key_place keys.old.entries) (key_place keys.new.entries) (key_in firsts.now entry.now) place }
{
    if let Some(key) = key_of(firsts, entry) {
        note_key(keys, key, place);
    }
}

/// Notes the place of an entry that names others.
fn note_slot(
    keys: &mut Keys,
    firsts: &[u16],
    slot: &Option<Entry>,
    place: u16,
) -> Result<(), Memory>
    ensures { OnOk result (NotesEntry (key_place keys.old.entries) (key_place keys.new.entries) (slot_key firsts.now slot.now) place) }
{
    if let Some(entry) = slot {
        keys.reserve(1)?;
        note_entry(keys, firsts, entry, place);
    }
    Ok(())
}

/// The first places of all keys.
fn keys_of(alloc: Global, slots: &[Option<Entry>], firsts: &[u16]) -> Result<Keys, Memory>
    requires { length slots.now ≤ 65535 }
    ensures { IfOk result (λ keys. AreFirsts (length slots.now) (key_at firsts.now slots.now) (key_place keys.entries)) }
{
    let mut keys = IndexMap::new(alloc);
    let mut place = 0;
    'reading: for slot in slots {
        note_slot(&mut keys, firsts, slot, place)?;
        place += 1;
    }
    Ok(keys)
}

impl Index {
    /// The index of a pool.
    ///
    /// # Errors
    ///
    /// `Memory` where memory was refused.
    pub fn of(alloc: Global, slots: &[Option<Entry>]) -> Result<Index, Memory>
        requires { length slots.now ≤ 65535 }
        ensures { IfOk result (IsIndexOf slots.now) }
    {
        let (firsts, texts) = texts_of(alloc, slots)?;
        let keys = keys_of(alloc, slots, &firsts)?;
        let members = members_of(alloc, slots, &firsts)?;
        Ok(Index {
            firsts,
            texts,
            keys,
            members,
        })
    }

    /// Takes room for one more entry.
    pub fn reserve(&mut self) -> Result<(), Memory>
        ensures room { OnOk result (HasSpare self.new) }
        ensures firsts { self.new.firsts ≡ self.old.firsts }
        ensures kept { (pool : PoolValue) → IsIndexOf pool self.old → IsIndexOf pool self.new }
    {
        self.keys.reserve(1)?;
        self.members.keys.reserve(1)?;
        Ok(())
    }
}

impl Index {
    /// The first place of a text.
    pub fn text_place(&self, text: &[u8]) -> Option<u16>
        ensures { result ≡ text_place self.now.texts.entries (λ x. x.items) text.now }
    {
        self.texts.get(text).copied()
    }

    /// The first place of a key.
    pub fn key_place(&self, key: Key) -> Option<u16>
        ensures { result ≡ key_place self.now.keys.entries key }
    {
        self.keys.get(&key).copied()
    }

    /// The first place of a name and a descriptor, by the first places of their texts.
    pub fn signature_place(&self, name: Option<u16>, descriptor: Option<u16>) -> Option<u16>
        ensures { result ≡ signature_place (key_place self.now.keys.entries) name descriptor }
    {
        let (name, descriptor) = (name?, descriptor?);
        self.key_place(Key::Signature { name, descriptor })
    }

    /// The first place of an entry of a kind, by the first place of its text.
    pub fn naming_place(&self, kind: Naming, named: Option<u16>) -> Option<u16>
        ensures { result ≡ naming_place self.now.keys.entries kind named }
    {
        self.key_place(kind.key(named?))
    }
}
