//! Records of one id, merged.
ghost use Rattle.std.specs.Prelude.{◌≡◌, ◌≤◌, true, nat_eq, length, IfOk, IfErr, OnOk, OnErr, MatchResult};
ghost use Rattle.indexmap.specs.IndexMap.{insert_entry, insert_all};
ghost use Rattle.jc_bytes.specs.Modified.{IsModified};
ghost use Rattle.jc_exec.specs.Adding.{Merges, Puts, over, MergesInto, GivesMerged, RefusesMerging};
ghost use Rattle.jc_exec.specs.Answers.{RefusesClass, conflict_with, RefusesRecord};
ghost use Rattle.jc_exec.specs.Store.{IsSmall, Keyed, classes_of};
ghost use Rattle.jc_exec.specs.Union.{fits, agree, either_bits, either_hits};

use crate::records::Records;
use crate::table::Table;
use crate::{Bits, ClassHits, ExecRefusal};
use jc_bytes::{Bytes, Fail};
use std::alloc::{AllocError, Global};

/// Whether a record has this name, and so many probes.
fn fits(there: &ClassHits, name: &[u8], count: u32) -> bool
    ensures { result ≡ fits there.now name.now count }
{
    there.name.as_slice() == name && there.bits.len() == count as usize
}

/// The refusal of a class over the record of its id that is there.
fn conflict(
    alloc: Global,
    there: &ClassHits,
    id: u64,
    name: &[u8],
    count: u32,
) -> Result<ExecRefusal, AllocError>
    requires { IsSmall there.now }
    ensures { IfOk result (λ refusal. refusal ≡ conflict_with there.now id name.now count) }
{
    Ok(ExecRefusal::Conflict {
        id,
        first: Bytes::copy_of(alloc, &there.name)?,
        second: Bytes::copy_of(alloc, name)?,
        first_count: there.bits.len() as u32,
        second_count: count,
    })
}

/// Checks that a record is one of a class of its id with this name and so many probes.
///
/// # Errors
///
/// `Conflict`, exactly where the record has another name or another number of probes: those of the
/// record first, then those of the class. `Memory`, where memory is refused.
pub fn check_fits(
    alloc: Global,
    there: &ClassHits,
    id: u64,
    name: &[u8],
    count: u32,
) -> Result<(), Fail<ExecRefusal>>
    requires { IsSmall there.now }
    ensures fits { IfOk result (λ _. fits there.now name.now count ≡ true) }
    ensures refused { IfErr result (RefusesClass there.now id name.now count) }
{
    if !fits(there, name, count) {
        return Err(Fail::Said(conflict(alloc, there, id, name, count)?));
    }
    Ok(())
}

/// Checks that two records of one id agree.
fn check_agree(alloc: Global, there: &ClassHits, hits: &ClassHits) -> Result<(), Fail<ExecRefusal>>
    requires there { IsSmall there.now }
    requires hits { IsSmall hits.now }
    ensures agree { IfOk result (λ _. agree there.now hits.now ≡ true) }
    ensures refused { IfErr result (RefusesMerging there.now hits.now) }
{
    check_fits(alloc, there, hits.id, &hits.name, hits.bits.len() as u32)
}

/// Sets the bits of the record that are set in the other.
fn join(there: &mut ClassHits, hits: &ClassHits)
    requires { length there.old.bits ≡ length hits.now.bits }
    ensures { there.new ≡ either_hits there.old hits.now }
{
    there.bits.join(&hits.bits);
}

/// Merges a record into the one of its id that is there, if they agree.
pub fn merge_into(
    alloc: Global,
    there: &mut ClassHits,
    hits: &ClassHits,
) -> Result<(), Fail<ExecRefusal>>
    requires there { IsSmall there.old }
    requires hits { IsSmall hits.now }
    ensures { MergesInto result there.old there.new hits.now }
{
    check_agree(alloc, there, hits)?;
    join(there, hits);
    Ok(())
}

/// A copy of a record.
fn copy_of(alloc: Global, hits: &ClassHits) -> Result<ClassHits, AllocError>
    ensures { IfOk result (λ copy. copy ≡ hits.now) }
{
    Ok(ClassHits {
        id: hits.id,
        name: Bytes::copy_of(alloc, &hits.name)?,
        bits: Bits::copy_of(alloc, &hits.bits)?,
    })
}

/// A record with the bits of the one of its id that is there, if they agree.
fn merged(
    alloc: Global,
    there: &ClassHits,
    mut hits: ClassHits,
) -> Result<ClassHits, Fail<ExecRefusal>>
    requires there { IsSmall there.now }
    requires hits { IsSmall hits }
    requires same_id { there.now.id ≡ hits.id }
    ensures { MatchResult result (GivesMerged there.now hits) (RefusesMerging there.now hits) }
{
    check_agree(alloc, there, &hits)?;
    join(&mut hits, there);
    Ok(hits)
}

/// Puts a record with the gathered ones: merged into the one of its id among them, else with the
/// bits of the one of its id that is known, else as it is.
pub fn gather<T: Table>(
    alloc: Global,
    known: &Records,
    fresh: &mut T,
    hits: ClassHits,
) -> Result<(), Fail<ExecRefusal>>
    requires known { Keyed known.now }
    requires fresh { Keyed (T.held fresh.old).records }
    requires hits { IsSmall hits }
    requires text { IsModified hits.name }
    ensures merges { OnOk result (Merges known.now (T.held fresh.old).records (T.held fresh.new).records hits) }
    ensures sessions { OnOk result ((T.held fresh.new).sessions ≡ (T.held fresh.old).sessions) }
    ensures refused { IfErr result (λ e. RefusesRecord e (over known.now (T.held fresh.old).records) hits) }
{
    if let Some(merged) = fresh.merge(alloc, &hits) {
        return merged;
    }
    match known.get(hits.id) {
        None => fresh.push(alloc, hits)?,
        Some(there) => fresh.push(alloc, merged(alloc, there, hits)?)?,
    }
    Ok(())
}

/// Puts a record with the others: merged into the one of its id, else last. After an error the
/// others are as before.
pub fn put(alloc: Global, records: &mut Records, hits: &ClassHits) -> Result<(), Fail<ExecRefusal>>
    requires keyed { Keyed records.old }
    requires few { length hits.now.bits ≤ 65535 }
    requires short { length hits.now.name ≤ 65535 }
    requires text { IsModified hits.now.name }
    ensures puts { OnOk result (Puts records.old records.new hits.now) }
    ensures refused { IfErr result (λ e. RefusesRecord e (classes_of records.old) hits.now) }
    ensures unchanged { OnErr result (records.new ≡ records.old) }
{
    let _id = hits.id;
    if let Some(merged) = records.merge(alloc, hits) {
        return merged;
    }
    let copy = copy_of(alloc, hits)?;
    records.push(alloc, copy)?;
    Ok(())
}
