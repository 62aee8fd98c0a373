//! Writing a constant pool (JVM Specification 4.1, 4.4).
ghost use Rattle.std.specs.Prelude.{◌≡◌, ◌<◌, length, IfOk, OnOk, OnErr};
ghost use Rattle.jc_pool.specs.Pool.{IsSmall};
ghost use Rattle.jc_pool.specs.PoolGrammar.{pool as pool_text};
ghost use Rattle.jc_pool.specs.EntryFormat.{ArePlaces, IsHandle, IsUtf8, IsInfo, IsEntry};
ghost use Rattle.jc_bytes.specs.Appending.{Appends};
ghost use Rattle.jc_pool.specs.Writing.{SpellsSlot, SpellsSlots, IsSmallSlot, AreSmall};

use crate::Pool;
use crate::entry::Entry;
use jc_bytes::{Memory, put_bytes, put_u8, put_u16, put_u32, put_u64};
use std::alloc::Global;

/// Puts a size of two bytes at the end, and the text.
fn put_utf8(into: &mut Vec<u8>, text: &[u8]) -> Result<(), Memory>
    requires { length text.now < 65536 }
    ensures { OnOk result (Appends (λ info. IsUtf8 info text.now) into.old.items into.new.items) }
{
    put_u16(into, text.len() as u16)?;
    put_bytes(into, text)
}

/// Puts two places at the end.
fn put_places(into: &mut Vec<u8>, first: u16, second: u16) -> Result<(), Memory>
    ensures { OnOk result (Appends (λ info. ArePlaces info first second) into.old.items into.new.items) }
{
    put_u16(into, first)?;
    put_u16(into, second)
}

/// Puts the kind of a method handle and the place of its member at the end.
fn put_handle(into: &mut Vec<u8>, kind: u8, reference: u16) -> Result<(), Memory>
    ensures { OnOk result (Appends (λ info. IsHandle info kind reference) into.old.items into.new.items) }
{
    put_u8(into, kind)?;
    put_u16(into, reference)
}

/// Puts what stands behind the tag of an entry at the end.
fn put_info(into: &mut Vec<u8>, entry: &Entry) -> Result<(), Memory>
    requires { IsSmall entry.now }
    ensures { OnOk result (Appends (λ info. IsInfo info entry.now) into.old.items into.new.items) }
{
    match entry {
        Entry::Utf8(text) => put_utf8(into, text.as_slice()),
        Entry::Integer(value) => put_u32(into, value.cast_unsigned()),
        Entry::Float(bits) => put_u32(into, *bits),
        Entry::Long(value) => put_u64(into, value.cast_unsigned()),
        Entry::Double(bits) => put_u64(into, *bits),
        Entry::Class { name: place }
        | Entry::String { text: place }
        | Entry::MethodType { descriptor: place }
        | Entry::Module { name: place }
        | Entry::Package { name: place } => put_u16(into, *place),
        Entry::Fieldref {
            class: first,
            name_and_type: second,
        }
        | Entry::Methodref {
            class: first,
            name_and_type: second,
        }
        | Entry::InterfaceMethodref {
            class: first,
            name_and_type: second,
        }
        | Entry::NameAndType {
            name: first,
            descriptor: second,
        }
        | Entry::Dynamic {
            bootstrap: first,
            name_and_type: second,
        }
        | Entry::InvokeDynamic {
            bootstrap: first,
            name_and_type: second,
        } => put_places(into, *first, *second),
        Entry::MethodHandle { kind, reference } => put_handle(into, *kind, *reference),
    }
}

/// Puts an entry at the end.
fn put_entry(into: &mut Vec<u8>, entry: &Entry) -> Result<(), Memory>
    requires { IsSmall entry.now }
    ensures { OnOk result (Appends (λ text. IsEntry text entry.now) into.old.items into.new.items) }
{
    put_u8(into, entry.tag())?;
    put_info(into, entry)
}

/// Puts what stands at a place at the end.
fn put_slot(into: &mut Vec<u8>, slot: &Option<Entry>) -> Result<(), Memory>
    requires { IsSmallSlot slot.now }
    ensures { OnOk result (Appends (λ text. SpellsSlot text slot.now) into.old.items into.new.items) }
{
    match slot {
        Some(entry) => put_entry(into, entry),
        None => Ok(()),
    }
}

/// Puts what stands at each place at the end.
fn put_slots(into: &mut Vec<u8>, slots: &[Option<Entry>]) -> Result<(), Memory>
    requires { AreSmall slots.now }
    ensures { OnOk result (Appends (λ text. SpellsSlots text slots.now) into.old.items into.new.items) }
{
    'writing: for slot in slots {
        put_slot(into, slot)?;
    }
    Ok(())
}

/// The text of a pool: its count, and its entries.
fn text_in_bytes(alloc: Global, pool: &Pool) -> Result<Vec<u8>, Memory>
    ensures { IfOk result (λ text. pool_text.Text text.items pool.now) }
{
    let mut text = Vec::new(alloc);
    put_u16(&mut text, pool.count())?;
    put_slots(&mut text, pool.slots())?;
    Ok(text)
}

impl Pool {
    /// Writes the pool at the end (JVM Specification 4.1, 4.4).
    ///
    /// # Errors
    ///
    /// `Memory` where memory was refused. Then nothing has been written.
    pub fn write(&self, alloc: Global, into: &mut Vec<u8>) -> Result<(), Memory>
        ensures ok { OnOk result (Appends (λ text. pool_text.Text text self.now) into.old.items into.new.items) }
        ensures err { OnErr result (into.new.items ≡ into.old.items) }
    {
        let text = text_in_bytes(alloc, self)?;
        put_bytes(into, &text)
    }
}
