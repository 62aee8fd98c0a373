//! The constant pool.
ghost use Rattle.std.specs.Prelude.{◌≡◌, ◌<◌, ◌≤◌, ◌++◌, ℕ, List, length, IfOk, IfSome, OnOk};
ghost use Rattle.jc_bytes.specs.Decoder.{SameEnd};
ghost use Rattle.jc_bytes.specs.Parsing.{Good, Bad, Parses};
ghost use Rattle.jc_pool.specs.Pool.{PoolValue, IsPool, IsSmall, slots_of};
ghost use Rattle.jc_pool.specs.PoolGrammar.{pool, ReadsBy};
ghost use Rattle.jc_pool.specs.PoolReading.{filled_at, pool_at};

use crate::PoolFull;
use crate::add::{add_naming, add_number, add_text, index_of};
use crate::add_linked::{add_computed, add_handle};
use crate::add_member::add_member;
use crate::entry::Entry;
use crate::index::{Index, Key, Naming};
use crate::item::{count_item, entry_item};
use crate::linked::ComputedText;
use crate::lookup::MemberText;
use jc_bytes::{Fail, Memory, Reader, Refusal};
use std::alloc::Global;
use std::marker::Model;

/// The tag of a method of a class (JVM Specification 4.4, table 4.4-A).
const METHOD_TAG: u8 = 10;

/// The kind of a handle that calls a static method (JVM Specification 5.4.3.5, table 5.4.3.5-A).
const CALLS_STATIC: u8 = 6;

/// A constant pool (JVM Specification 4.4), which contracts see as the list of what stands at its
/// places: nothing at place 0, and at the second place of a long or a double.
#[derive(Debug, Drop)]
pub struct Pool {
    slots: Vec<Option<Entry>>,
    /// Where equal entries stand, from the first call on that adds an entry.
    index: Option<Index>,
}

impl Model for Pool {
    ghost use Rattle.std.specs.Prelude.{IfSome};
    ghost use Rattle.jc_pool.specs.Pool.{PoolValue, IsPool};

    ghost Value = { PoolValue };

    ghost view = { λ p. p.slots.items };

    ghost use Rattle.jc_pool.specs.Index.{IsIndexOf};

    ghost invariant = { λ p. IsPool p.slots.items × IfSome p.index (IsIndexOf p.slots.items) };
}

impl Pool {
    ghost use Rattle.std.specs.Prelude.{option_copied};
    ghost use Rattle.jc_pool.specs.Lookup.{entry_of};
    ghost use Rattle.jc_pool.specs.Index.{IsIndexOf};

    /// The count of the pool (JVM Specification 4.1): the number of its places, place 0 included.
    #[tactic(auto, using(crate::proofs::WritingLaws::pool_short))]
    pub fn count(&self) -> u16
        ensures { result ≡ length self.now }
    {
        self.slots.len() as u16
    }

    /// The entry at a place.
    pub(crate) fn entry(&self, place: u16) -> Option<&Entry>
        ensures entry { option_copied result ≡ entry_of self.now place }
        ensures small { IfSome result (λ entry. IsSmall entry.now) }
    {
        self.slots.get(usize::from(place))?.as_ref()
    }

    /// Where equal entries stand, once an entry was added.
    pub(crate) fn index(&self) -> Option<&Index>
        ensures { IfSome result (λ index. IsIndexOf self.now index.now) }
    {
        self.index.as_ref()
    }

    /// What stands at each place.
    pub(crate) fn slots(&self) -> &[Option<Entry>]
        ensures slots { result.now ≡ self.now }
        ensures pool { IsPool self.now }
    {
        &self.slots
    }
}

/// Puts an entry at the next place, and nothing at its second one.
fn put(slots: &mut Vec<Option<Entry>>, entry: Entry) -> Result<(), Memory>
    ensures { OnOk result (slots.new.items ≡ slots.old.items ++ slots_of entry) }
{
    let wide = entry.is_wide();
    slots.push(Some(entry))?;
    if wide {
        slots.push(None)?;
    }
    Ok(())
}

/// Nothing at place 0, and the entries at the places from 1 on.
fn filled(
    alloc: Global,
    reader: &mut Reader<'_>,
    count: u16,
) -> Result<Vec<Option<Entry>>, Fail<Refusal>>
    requires { 0 < count }
    ensures gives { Parses (λ slots. slots.items) result reader.old reader.new (filled_at count reader.old.left) }
    ensures pool { IfOk result (λ slots. IsPool slots.items) }
    ensures end { SameEnd reader.old reader.new }
    ensures later { reader.old.place ≤ reader.new.place }
{
    let count = usize::from(count);
    let mut slots = Vec::with_capacity(alloc, count)?;
    slots.push(None)?;
    'filling: while slots.len() < count {
        let entry = entry_item(alloc, reader, count - slots.len())?;
        put(&mut slots, entry)?;
    }
    Ok(slots)
}

/// A pool, as the reading functions give it.
#[tactic(auto, unfolding(crate::specs::PoolReading::pool_at))]
fn parsed(alloc: Global, reader: &mut Reader<'_>) -> Result<Pool, Fail<Refusal>>
    ensures parses { Parses (λ value. value) result reader.old reader.new (pool_at reader.old.left) }
    ensures end { SameEnd reader.old reader.new }
    ensures later { reader.old.place ≤ reader.new.place }
{
    let count = count_item(reader)?;
    let slots = filled(alloc, reader, count)?;
    Ok(Pool { slots, index: None })
}

impl Pool {
    /// Reads a pool: its count, and entries at the places from 1 on that fill all places below the
    /// count (JVM Specification 4.1, 4.4). On `Ok` the reader stands directly behind the pool.
    /// After an error it stands at or behind the place where it stood.
    ///
    /// An entry is one item, from its tag on. What an entry names is not looked at, and no text has
    /// to be of a form.
    ///
    /// # Errors
    ///
    /// `Memory` where memory was refused. `NotAClass`, at the offset of the first item that fails,
    /// where no pool stands in front: too few bytes, a count of 0, an unknown tag, or a long or a
    /// double whose second place is not below the count.
    pub fn read(alloc: Global, reader: &mut Reader<'_>) -> Result<Pool, Fail<Refusal>>
        // What was read is the text of the pool, or fails as a pool at the place of the refusal.
        ensures reads { ReadsBy pool result reader.old reader.new }
        // A pool in front is read, and bytes that fail as a pool are refused, unless memory runs out.
        ensures taken { (value : PoolValue) (text rest : List ℕ) → reader.old.left ≡ text ++ rest → pool.Text text value
            → Parses (λ found. found) result reader.old reader.new (Good value rest) }
        ensures failing { (left : List ℕ) → pool.Fails reader.old.left left
            → Parses (λ found. found) result reader.old reader.new (Bad left) }
        // The reading functions give the same, so that a reader of a longer text can cite them.
        ensures parses { Parses (λ value. value) result reader.old reader.new (pool_at reader.old.left) }
        ensures end { SameEnd reader.old reader.new }
        ensures later { reader.old.place ≤ reader.new.place }
    {
        parsed(alloc, reader)
    }
}

impl Pool {
    ghost use Rattle.std.specs.Prelude.{OnErr, OnOk};
    ghost use Rattle.jc_bytes.specs.Texts.{IsShortText};
    ghost use Rattle.jc_pool.specs.Adding.{HasUtf8, HasClass, HasString, HasInteger, HasLong, HasMember, IsMemberTag, RefusesFull, Extends};
    ghost use Rattle.jc_pool.specs.Adding.{HasHandle, static_handle, HasComputed, bootstrap_constant};

    /// The first place of a Utf8 entry with this text (JVM Specification 4.4.7). Where there is none,
    /// one is put behind the others. Every entry keeps its place.
    ///
    /// # Errors
    ///
    /// `Memory` where memory was refused. `PoolFull` exactly where no such entry stands and the pool's
    /// count would become `count`, which is above 65,535. Then nothing has changed.
    pub fn add_utf8(&mut self, alloc: Global, text: &[u8]) -> Result<u16, Fail<PoolFull>>
        requires { IsShortText text.now }
        ensures ok { IfOk result (HasUtf8 self.old text.now self.new) }
        ensures fits { OnOk result (length self.new ≤ 65535) }
        ensures full { RefusesFull (HasUtf8 self.old text.now) result }
        ensures err { OnErr result (self.new ≡ self.old) }
        ensures extends { Extends self.old self.new }
    {
        let mut index = index_of(alloc, self.index.take(), &self.slots)?;
        let added = add_text(alloc, &mut self.slots, &mut index, text);
        self.index = Some(index);
        added
    }

    /// The first place of a Class entry of this name (JVM Specification 4.4.1), whatever the place of
    /// the name. Where there is none, the name is put behind the others, unless it is there, and then
    /// a Class entry. Every entry keeps its place.
    ///
    /// # Errors
    ///
    /// `Memory` where memory was refused. `PoolFull` exactly where no such entry stands and the pool's
    /// count would become `count`, which is above 65,535. Then nothing has changed.
    pub fn add_class(&mut self, alloc: Global, name: &[u8]) -> Result<u16, Fail<PoolFull>>
        requires { IsShortText name.now }
        ensures ok { IfOk result (HasClass self.old name.now self.new) }
        ensures fits { OnOk result (length self.new ≤ 65535) }
        ensures full { RefusesFull (HasClass self.old name.now) result }
        ensures err { OnErr result (self.new ≡ self.old) }
        ensures extends { Extends self.old self.new }
    {
        let mut index = index_of(alloc, self.index.take(), &self.slots)?;
        let added = add_naming(alloc, &mut self.slots, &mut index, Naming::Class, name);
        self.index = Some(index);
        added
    }

    /// The first place of a String entry of this text (JVM Specification 4.4.3), whatever the place of
    /// the text. Where there is none, the text is put behind the others, unless it is there, and then
    /// a String entry. Every entry keeps its place.
    ///
    /// # Errors
    ///
    /// `Memory` where memory was refused. `PoolFull` exactly where no such entry stands and the pool's
    /// count would become `count`, which is above 65,535. Then nothing has changed.
    pub fn add_string(&mut self, alloc: Global, text: &[u8]) -> Result<u16, Fail<PoolFull>>
        requires { IsShortText text.now }
        ensures ok { IfOk result (HasString self.old text.now self.new) }
        ensures fits { OnOk result (length self.new ≤ 65535) }
        ensures full { RefusesFull (HasString self.old text.now) result }
        ensures err { OnErr result (self.new ≡ self.old) }
        ensures extends { Extends self.old self.new }
    {
        let mut index = index_of(alloc, self.index.take(), &self.slots)?;
        let added = add_naming(alloc, &mut self.slots, &mut index, Naming::String, text);
        self.index = Some(index);
        added
    }

    /// The first place of an Integer entry of this value (JVM Specification 4.4.4). Where there is
    /// none, one is put behind the others. Every entry keeps its place.
    ///
    /// # Errors
    ///
    /// `Memory` where memory was refused. `PoolFull` exactly where no such entry stands and the pool's
    /// count would become `count`, which is above 65,535. Then nothing has changed.
    pub fn add_int(&mut self, alloc: Global, value: i32) -> Result<u16, Fail<PoolFull>>
        ensures ok { IfOk result (HasInteger self.old value self.new) }
        ensures fits { OnOk result (length self.new ≤ 65535) }
        ensures full { RefusesFull (HasInteger self.old value) result }
        ensures err { OnErr result (self.new ≡ self.old) }
        ensures extends { Extends self.old self.new }
    {
        let mut index = index_of(alloc, self.index.take(), &self.slots)?;
        let entry = Entry::Integer(value);
        let added = add_number(&mut self.slots, &mut index, Key::Integer(value), entry);
        self.index = Some(index);
        added
    }

    /// The first place of a Long entry of this value (JVM Specification 4.4.5). Where there is none,
    /// one is put behind the others, which takes two places. Every entry keeps its place.
    ///
    /// # Errors
    ///
    /// `Memory` where memory was refused. `PoolFull` exactly where no such entry stands and the pool's
    /// count would become `count`, which is above 65,535. Then nothing has changed.
    pub fn add_long(&mut self, alloc: Global, value: i64) -> Result<u16, Fail<PoolFull>>
        ensures ok { IfOk result (HasLong self.old value self.new) }
        ensures fits { OnOk result (length self.new ≤ 65535) }
        ensures full { RefusesFull (HasLong self.old value) result }
        ensures err { OnErr result (self.new ≡ self.old) }
        ensures extends { Extends self.old self.new }
    {
        let mut index = index_of(alloc, self.index.take(), &self.slots)?;
        let entry = Entry::Long(value);
        let added = add_number(&mut self.slots, &mut index, Key::Long(value), entry);
        self.index = Some(index);
        added
    }

    /// The first place of a Fieldref, Methodref or InterfaceMethodref entry (tags 9, 10 and 11, JVM
    /// Specification 4.4.2) of this class, name and descriptor, whatever the places of these. Where
    /// there is none, the parts that are not there are put behind the others, the class first, then
    /// the name, the descriptor and the NameAndType entry, and then an entry of this tag. Every
    /// entry keeps its place.
    ///
    /// # Errors
    ///
    /// `Memory` where memory was refused. `PoolFull` exactly where no such entry stands and the pool's
    /// count would become `count`, which is above 65,535. Then nothing has changed.
    pub fn add_member(
        &mut self,
        alloc: Global,
        tag: u8,
        class: &[u8],
        name: &[u8],
        desc: &[u8],
    ) -> Result<u16, Fail<PoolFull>>
        requires tag { IsMemberTag tag }
        requires class { IsShortText class.now }
        requires name { IsShortText name.now }
        requires desc { IsShortText desc.now }
        ensures ok { IfOk result (HasMember self.old (record { tag = tag; class = class.now; name = name.now; desc = desc.now }) self.new) }
        ensures fits { OnOk result (length self.new ≤ 65535) }
        ensures full { RefusesFull (HasMember self.old (record { tag = tag; class = class.now; name = name.now; desc = desc.now })) result }
        ensures err { OnErr result (self.new ≡ self.old) }
        ensures extends { Extends self.old self.new }
    {
        let member = MemberText {
            tag,
            class,
            name,
            desc,
        };
        let mut index = index_of(alloc, self.index.take(), &self.slots)?;
        let place = add_member(alloc, &mut self.slots, &mut index, &member)?;
        self.index = Some(index);
        Ok(place)
    }

    /// The first place of a MethodHandle entry of kind 6 whose Methodref entry (tag 10) has this class,
    /// name and descriptor, whatever the places of these (JVM Specification 4.4.8): the handle that
    /// calls this static method. Where there is none, the parts that are not there are put behind the
    /// others, in the order of `add_member`, and then the entry. Every entry keeps its place.
    ///
    /// # Errors
    ///
    /// `Memory` where memory was refused. `PoolFull` exactly where no such entry stands and the pool's
    /// count would become `count`, which is above 65,535. Then nothing has changed.
    pub fn add_handle(
        &mut self,
        alloc: Global,
        class: &[u8],
        name: &[u8],
        desc: &[u8],
    ) -> Result<u16, Fail<PoolFull>>
        requires class { IsShortText class.now }
        requires name { IsShortText name.now }
        requires desc { IsShortText desc.now }
        ensures ok { IfOk result (HasHandle self.old (static_handle class.now name.now desc.now) self.new) }
        ensures fits { OnOk result (length self.new ≤ 65535) }
        ensures full { RefusesFull (HasHandle self.old (static_handle class.now name.now desc.now)) result }
        ensures err { OnErr result (self.new ≡ self.old) }
        ensures extends { Extends self.old self.new }
    {
        let method = MemberText {
            tag: METHOD_TAG,
            class,
            name,
            desc,
        };
        let mut index = index_of(alloc, self.index.take(), &self.slots)?;
        let place = add_handle(alloc, &mut self.slots, &mut index, CALLS_STATIC, &method)?;
        self.index = Some(index);
        Ok(place)
    }

    /// The first place of a Dynamic entry of this bootstrap number, name and descriptor, whatever the
    /// places of these (JVM Specification 4.4.10). Where there is none, the name, the descriptor and
    /// the NameAndType entry are put behind the others, where they are missing, and then the entry.
    /// Every entry keeps its place.
    ///
    /// # Errors
    ///
    /// `Memory` where memory was refused. `PoolFull` exactly where no such entry stands and the pool's
    /// count would become `count`, which is above 65,535. Then nothing has changed.
    pub fn add_dynamic(
        &mut self,
        alloc: Global,
        bootstrap: u16,
        name: &[u8],
        desc: &[u8],
    ) -> Result<u16, Fail<PoolFull>>
        requires name { IsShortText name.now }
        requires desc { IsShortText desc.now }
        ensures ok { IfOk result (HasComputed self.old (bootstrap_constant bootstrap name.now desc.now) self.new) }
        ensures fits { OnOk result (length self.new ≤ 65535) }
        ensures full { RefusesFull (HasComputed self.old (bootstrap_constant bootstrap name.now desc.now)) result }
        ensures err { OnErr result (self.new ≡ self.old) }
        ensures extends { Extends self.old self.new }
    {
        let constant = ComputedText {
            bootstrap,
            name,
            desc,
        };
        let mut index = index_of(alloc, self.index.take(), &self.slots)?;
        let place = add_computed(alloc, &mut self.slots, &mut index, &constant)?;
        self.index = Some(index);
        Ok(place)
    }
}
