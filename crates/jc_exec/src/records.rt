//! Records of classes under their ids, in the order in which the ids were first seen.
ghost use Rattle.std.specs.Prelude.{◌≡◌, ◌<◌, [], None, Some, length, map, take, nat_eq, slice_index_or, IsTrue, IfOk, IfSome, IfNone, OnOk, OnErr, ◌↔◌, ◌+◌, ◌≤◌, option_copied, vec_len, vec_capacity};
ghost use Rattle.std.specs.Map.{lookup, set_value};
ghost use Rattle.indexmap.specs.IndexMap.{insert_entry, insert_all};
ghost use Rattle.jc_exec.specs.declared.hits.ClassHits.{ClassHits};
ghost use Rattle.jc_exec.specs.Adding.{MergesInto};
ghost use Rattle.jc_exec.specs.Places.{with_id, ids_with, IsFront, IsPlaceOf};
ghost use Rattle.jc_exec.specs.Store.{IsSmall, entries_of, classes_of, Keyed};

use crate::ids::Ids;
use crate::merge::merge_into;
use crate::packed_records::PackedRecords;
use crate::{ClassHits, ExecRefusal};
use jc_bytes::Fail;
use std::alloc::{AllocError, Global};
use std::marker::Model;

/// Records of classes, one for each id.
///
/// They are seen as pairs of an id and its record. There may be ids behind those of the records, which have none.
#[derive(Drop)]
pub struct Records {
    ids: Ids,
    classes: Vec<ClassHits>,
}

impl Model for Records {
    ghost use Rattle.std.specs.Prelude.{ℕ, List};
    ghost use Rattle.jc_exec.specs.declared.hits.ClassHits.{ClassHits};
    ghost use Rattle.jc_exec.specs.Places.{IsFront};
    ghost use Rattle.jc_exec.specs.Store.{entries_of};

    ghost Value = { List (ℕ × ClassHits) };

    ghost view = { λ a. entries_of a.classes.items };

    ghost invariant = { λ a. IsFront a.ids a.classes.items };
}

/// The place of the record of an id.
fn place_of(ids: &Ids, classes: &[ClassHits], id: u64) -> Option<usize>
    requires { IsFront ids.now classes.now }
    ensures place { IfSome result (IsPlaceOf classes.now id) }
    ensures none { IfNone result (lookup (nat_eq id) (entries_of classes.now) ≡ None) }
{
    let place = ids.place(id)?;
    if place < classes.len() {
        return Some(place);
    }
    None
}

/// Puts an id behind the others, unless it is there.
fn put_id(alloc: Global, ids: &mut Ids, id: u64) -> Result<(), AllocError>
    ensures ok { OnOk result (ids.new ≡ with_id ids.old id) }
    ensures err { OnErr result (ids.new ≡ ids.old) }
{
    match ids.place(id) {
        Some(_) => Ok(()),
        None => ids.push(alloc, id),
    }
}

/// Puts the ids of records behind the others, unless they are there.
fn put_ids(alloc: Global, ids: &mut Ids, gathered: &[ClassHits]) -> Result<(), AllocError>
    ensures all { OnOk result (ids.new ≡ ids_with ids.old gathered.now) }
    ensures front { take (length ids.old) ids.new ≡ ids.old }
{
    'putting: for hits in gathered {
        put_id(alloc, ids, hits.id)?;
    }
    Ok(())
}

/// Puts each record into the place of the one of its id, else last. There is room for them.
fn put_each(ids: &Ids, classes: &mut Vec<ClassHits>, gathered: Vec<ClassHits>)
    requires ids { ids.now ≡ ids_with (map (λ c. c.id) classes.old.items) gathered.items }
    requires room { vec_len classes.old + length gathered.items ≤ vec_capacity classes.old }
    ensures all { entries_of classes.new.items ≡ insert_all nat_eq (entries_of classes.old.items) (entries_of gathered.items) }
    ensures front { IsFront ids.now classes.new.items }
{
    'putting: for hits in gathered {
        put_over(ids, classes, hits);
    }
}

/// Puts a record into the place of the one of its id, else last. There is room for it.
fn put_over(ids: &Ids, classes: &mut Vec<ClassHits>, hits: ClassHits)
    requires front { IsFront ids.now classes.old.items }
    requires room { vec_len classes.old < vec_capacity classes.old }
    ensures all { entries_of classes.new.items ≡ insert_entry nat_eq (entries_of classes.old.items) hits.id hits }
    ensures room { vec_capacity classes.old ≤ vec_capacity classes.new }
    ensures more { vec_len classes.new ≤ vec_len classes.old + 1 }
{
    match place_of(ids, classes, hits.id) {
        Some(place) => classes[place] = hits,
        None => classes.push(hits).unwrap(),
    }
}

impl Records {
    /// No records.
    pub fn new(alloc: Global) -> Records
        ensures { result ≡ [] }
    {
        Records {
            ids: Ids::new(alloc),
            classes: Vec::new(alloc),
        }
    }

    /// The record of an id.
    pub fn get(&self, id: u64) -> Option<&ClassHits>
        ensures { option_copied result ≡ lookup (nat_eq id) self.now }
    {
        let place = place_of(&self.ids, &self.classes, id)?;
        Some(&self.classes[place])
    }

    /// The records.
    pub fn classes(&self) -> &[ClassHits]
        ensures { result.now ≡ classes_of self.now }
    {
        &self.classes
    }

    /// The records, packed.
    pub fn packed(&self, alloc: Global) -> Result<PackedRecords, AllocError>
        requires { Keyed self.now }
        ensures { IfOk result (λ packed. packed ≡ self.now) }
    {
        PackedRecords::of(alloc, &self.classes)
    }

    /// Merges a record into the one of its id, if there is one and they agree.
    pub fn merge(
        &mut self,
        alloc: Global,
        hits: &ClassHits,
    ) -> Option<Result<(), Fail<ExecRefusal>>>
        requires there { Keyed self.old }
        requires hits { IsSmall hits.now }
        ensures none { IfNone result ((lookup (nat_eq hits.now.id) self.old ≡ None) × (self.new ≡ self.old)) }
        ensures some { IfSome result (λ r. (c : ClassHits) × (v : ClassHits) × (lookup (nat_eq hits.now.id) self.old ≡ Some c)
            × MergesInto r c v hits.now × (self.new ≡ set_value (nat_eq hits.now.id) self.old v)) }
    {
        let place = place_of(&self.ids, &self.classes, hits.id)?;
        Some(merge_into(alloc, &mut self.classes[place], hits))
    }

    /// Puts a record of an id that has none behind the others.
    pub fn push(&mut self, alloc: Global, hits: ClassHits) -> Result<(), AllocError>
        requires { lookup (nat_eq hits.id) self.old ≡ None }
        ensures ok { OnOk result (self.new ≡ insert_entry nat_eq self.old hits.id hits) }
        ensures err { OnErr result (self.new ≡ self.old) }
    {
        self.ids.truncate(self.classes.len());
        self.ids.push(alloc, hits.id)?;
        self.classes.push(hits)?;
        Ok(())
    }

    /// Puts each of the gathered records into the place of the one of its id, else last. After an error the records are as before.
    pub fn put_all(&mut self, alloc: Global, gathered: Records) -> Result<(), AllocError>
        requires { Keyed gathered }
        ensures all { OnOk result (self.new ≡ insert_all nat_eq self.old gathered) }
        ensures unchanged { OnErr result (self.new ≡ self.old) }
    {
        if self.classes.is_empty() {
            *self = gathered;
            return Ok(());
        }
        self.ids.truncate(self.classes.len());
        put_ids(alloc, &mut self.ids, &gathered.classes)?;
        self.classes.reserve(gathered.classes.len())?;
        put_each(&self.ids, &mut self.classes, gathered.classes);
        Ok(())
    }
}
