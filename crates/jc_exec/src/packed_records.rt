//! Records of classes whose names and bits stand in one vector, one behind the other.
ghost use Rattle.std.specs.Prelude.{◌≡◌, ◌+◌, ◌<◌, ◌≤◌, ◌++◌, ℕ, [], None, Some, length, get_or, nat_eq, slice_index, IfOk, IfSome, IfNone, OnOk, OnErr};
ghost use Rattle.std.specs.Map.{lookup, set_value};
ghost use Rattle.indexmap.specs.IndexMap.{insert_entry};
ghost use Rattle.jc_exec.specs.declared.hits.ClassHits.{ClassHits};
ghost use Rattle.jc_exec.specs.Adding.{MergesInto};
ghost use Rattle.jc_exec.specs.Packed.{packed};
ghost use Rattle.jc_exec.specs.Rows.{hits_at, bits_from, end_of, with_part, TakesIn};
ghost use Rattle.jc_exec.specs.Store.{IsSmall, Keyed, classes_of, entries_of};

use crate::ids::Ids;
use crate::merge::merge_into;
use crate::{Bits, ClassHits, ExecRefusal};
use jc_bytes::{Bytes, Fail};
use std::alloc::{AllocError, Global};
use std::marker::Model;

/// Where the name of a record begins, how long it is, and how many probes there are. The bits stand behind the name, eight to a byte.
#[derive(Clone, Copy, Debug)]
pub struct Row {
    pub from: u32,
    pub name: u16,
    pub count: u16,
}

/// Records of classes, one for each id. There may be ids behind those of the records, which have none, and bytes behind the last record.
#[derive(Drop)]
pub struct PackedRecords {
    pub(crate) ids: Ids,
    pub(crate) rows: Vec<Row>,
    pub(crate) bytes: Vec<u8>,
}

impl Model for PackedRecords {
    ghost use Rattle.std.specs.Prelude.{ℕ, List};
    ghost use Rattle.jc_exec.specs.declared.hits.ClassHits.{ClassHits};
    ghost use Rattle.jc_exec.specs.Rows.{hits_of, ArePacked};
    ghost use Rattle.jc_exec.specs.Store.{entries_of};

    ghost Value = { List (ℕ × ClassHits) };

    ghost view = { λ a. entries_of (hits_of a.bytes.items a.ids a.rows.items) };

    ghost invariant = { λ a. ArePacked a.bytes.items a.ids a.rows.items };
}

/// The place of an id among the first so many.
fn place_of(ids: &Ids, count: usize, id: u64) -> Option<usize>
    requires { count ≤ length ids.now }
    ensures place { IfSome result (λ place. (place < count) × (slice_index ids.now place ≡ id)) }
    ensures only { (place : ℕ) → place < count → slice_index ids.now place ≡ id → result ≡ Some place }
{
    let place = ids.place(id)?;
    if place < count {
        return Some(place);
    }
    None
}

/// The record of an id whose name and bits stand there.
pub fn hits_at(alloc: Global, bytes: &[u8], id: u64, row: Row) -> Result<ClassHits, AllocError>
    requires { end_of row ≤ length bytes.now }
    ensures { IfOk result (λ hits. hits ≡ hits_at bytes.now id row) }
{
    let from = row.from as usize;
    let behind = from + usize::from(row.name);
    let count = u32::from(row.count);
    let end = behind + count.div_ceil(8) as usize;
    Ok(ClassHits {
        id,
        name: Bytes::copy_of(alloc, &bytes[from..behind])?,
        bits: Bits::of_bytes(alloc, &bytes[behind..end], count)?,
    })
}

/// Puts bits in place of those of a record.
fn put_bits(bytes: &mut [u8], row: Row, bits: &Bits)
    requires room { end_of row ≤ length bytes.old }
    requires count { length bits.now ≡ row.count }
    ensures { bytes.new ≡ with_part bytes.old (bits_from row) (packed bits.now) }
{
    let from = row.from as usize + usize::from(row.name);
    let packed = bits.bytes();
    bytes[from..from + packed.len()].copy_from_slice(packed);
}

/// Merges a record into the one of its id, which stands there, if they agree.
fn merge_at(
    alloc: Global,
    bytes: &mut [u8],
    row: Row,
    hits: &ClassHits,
) -> Result<(), Fail<ExecRefusal>>
    requires room { end_of row ≤ length bytes.old }
    requires hits { IsSmall hits.now }
    ensures { TakesIn result bytes.old bytes.new row hits.now }
{
    let mut there = hits_at(alloc, bytes, hits.id, row)?;
    merge_into(alloc, &mut there, hits)?;
    put_bits(bytes, row, &there.bits);
    Ok(())
}

/// Puts the name of a record and its bits last.
fn put_text(bytes: &mut Vec<u8>, hits: &ClassHits) -> Result<(), AllocError>
    ensures ok { OnOk result (bytes.new.items ≡ bytes.old.items ++ (hits.now.name ++ packed hits.now.bits)) }
    ensures err { OnErr result (bytes.new.items ≡ bytes.old.items) }
{
    let bits = hits.bits.bytes();
    bytes.reserve(hits.name.len().saturating_add(bits.len()))?;
    bytes.extend_from_slice(&hits.name)?;
    bytes.extend_from_slice(bits)?;
    Ok(())
}

impl PackedRecords {
    /// No records.
    pub fn new(alloc: Global) -> PackedRecords
        ensures { result ≡ [] }
    {
        PackedRecords {
            ids: Ids::new(alloc),
            rows: Vec::new(alloc),
            bytes: Vec::new(alloc),
        }
    }

    /// These records, of which each has an id of its own.
    pub fn of(alloc: Global, classes: &[ClassHits]) -> Result<PackedRecords, AllocError>
        requires { Keyed (entries_of classes.now) }
        ensures { IfOk result (λ packed. packed ≡ entries_of classes.now) }
    {
        let mut packed = PackedRecords::new(alloc);
        'packing: for hits in classes {
            packed.push(alloc, hits)?;
        }
        Ok(packed)
    }

    /// How many there are.
    pub fn len(&self) -> usize
        ensures { result ≡ length self.now }
    {
        self.rows.len()
    }

    /// A copy of the record at a place.
    pub fn at(&self, alloc: Global, place: usize) -> Result<ClassHits, AllocError>
        requires { place < length self.now }
        ensures { IfOk result (λ hits. hits ≡ get_or (classes_of self.now) place hits) }
    {
        hits_at(alloc, &self.bytes, self.ids.at(place), self.rows[place])
    }

    /// A copy of the record of an id.
    pub fn get(&self, alloc: Global, id: u64) -> Result<Option<ClassHits>, AllocError>
        ensures { IfOk result (λ found. found ≡ lookup (nat_eq id) self.now) }
    {
        match place_of(&self.ids, self.rows.len(), id) {
            None => Ok(None),
            Some(place) => Ok(Some(hits_at(alloc, &self.bytes, id, self.rows[place])?)),
        }
    }

    /// Merges a record into the one of its id, if there is one and they agree.
    pub fn merge(
        &mut self,
        alloc: Global,
        hits: &ClassHits,
    ) -> Option<Result<(), Fail<ExecRefusal>>>
        requires { IsSmall hits.now }
        ensures none { IfNone result ((lookup (nat_eq hits.now.id) self.old ≡ None) × (self.new ≡ self.old)) }
        ensures some { IfSome result (λ r. (c : ClassHits) × (v : ClassHits) × (lookup (nat_eq hits.now.id) self.old ≡ Some c)
            × MergesInto r c v hits.now × (self.new ≡ set_value (nat_eq hits.now.id) self.old v)) }
    {
        let place = place_of(&self.ids, self.rows.len(), hits.id)?;
        Some(merge_at(alloc, &mut self.bytes, self.rows[place], hits))
    }

    /// Puts a record of an id that has none behind the others.
    pub fn push(&mut self, alloc: Global, hits: &ClassHits) -> Result<(), AllocError>
        requires none { lookup (nat_eq hits.now.id) self.old ≡ None }
        requires hits { IsSmall hits.now }
        ensures ok { OnOk result (self.new ≡ insert_entry nat_eq self.old hits.now.id hits.now) }
    {
        let from = self.bytes.len();
        if from > 0xffff_ffff {
            return Err(AllocError);
        }
        self.ids.truncate(self.rows.len());
        self.ids.push(alloc, hits.id)?;
        put_text(&mut self.bytes, hits)?;
        self.rows.push(Row {
            from: from as u32,
            name: hits.name.len() as u16,
            count: hits.bits.len() as u16,
        })?;
        Ok(())
    }
}
