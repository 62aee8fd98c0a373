//! The execution data of hits.
ghost use Rattle.std.specs.Prelude.{◌≡◌, ◌<◌, ◌≤◌, ◌^◌, [], filter, length, map, slice_index_or, IfOk, OnOk};
ghost use Rattle.std.specs.List.{list_any};
ghost use Rattle.jc_bytes.specs.Modified.{IsModified};
ghost use Rattle.jc_exec.specs.Refusing.{OneOfEachId};
ghost use Rattle.jc_exec.specs.Store.{IsNew};
ghost use Rattle.jc_exec.specs.Writing.{is_hit};
ghost use Rattle.jc_programs.specs.Probes.{counts_of};
ghost use Rattle.jc_command_run.specs.HitStore.{set_record, set_records, counts_in, FitRecords, AddsIfHit, AddsLast};

use jc_bytes::{Bytes, List, Memory};
use jc_exec::{Bits, ClassHits, ExecStore};
use jc_programs::{HitSet, Linked, ProbeInit, Program};
use std::alloc::Global;

/// The truth values of a class.
fn bits_of(alloc: Global, hits: &HitSet, class: u32, count: u32) -> Result<List<bool>, Memory>
    requires class { class < length hits.now }
    requires count { count ≡ length (slice_index_or hits.now class []) }
    ensures { IfOk result (λ bits. bits ≡ slice_index_or hits.now class []) }
{
    let mut bits = List::new(alloc);
    'copying: for id in 0..count {
        bits.push(hits.get(class, id))?;
    }
    Ok(bits)
}

/// Puts the record of a class into a store that has none of its id.
fn add(alloc: Global, store: &mut ExecStore, class_hits: &ClassHits) -> Result<(), Memory>
    requires few { length class_hits.now.bits ≤ 65535 }
    requires short { length class_hits.now.name ≤ 65535 }
    requires text { IsModified class_hits.now.name }
    ensures { OnOk result (OneOfEachId store.old.classes → IsNew class_hits.now.id store.old.classes → AddsLast class_hits.now store.old store.new) }
{
    match store.add(alloc, class_hits) {
        Ok(()) => Ok(()),
        Err(_) => Err(Memory),
    }
}

/// Whether a probe was hit.
fn has_hit(bits: &[bool]) -> bool
    ensures { result ≡ list_any (λ b. b) bits.now }
{
    bits.iter().any(|bit| *bit)
}

/// Puts the record of a class with probes into a store, if it has a hit.
fn put_record(
    alloc: Global,
    store: &mut ExecStore,
    hits: &HitSet,
    number: u32,
    class: &Linked,
    init: ProbeInit,
) -> Result<(), Memory>
    requires within { number < length hits.now }
    requires count { init.count ≡ length (slice_index_or hits.now number []) }
    requires few { init.count ≤ 65535 }
    requires short { length class.now.name ≤ 65535 }
    requires text { IsModified class.now.name }
    ensures { OnOk result (OneOfEachId store.old.classes → IsNew init.id store.old.classes → AddsIfHit (set_record hits.now number class.now init) store.old store.new) }
{
    let bits = bits_of(alloc, hits, number, init.count)?;
    if !has_hit(&bits) {
        return Ok(());
    }
    let class_hits = ClassHits {
        id: init.id,
        name: Bytes::copy_of(alloc, &class.name)?,
        bits: Bits::new(alloc, &bits)?,
    };
    add(alloc, store, &class_hits)
}

/// A store with a record for each class of a program of which a probe was hit, in the order of the classes: it has the id and the
/// name of the class, and says of each probe whether it was hit.
///
/// # Errors
///
/// `Memory` where memory was refused.
pub fn hit_store(alloc: Global, program: &Program, hits: &HitSet) -> Result<ExecStore, Memory>
    requires counts { counts_of hits.now ≡ counts_in program.now.classes }
    requires few { length program.now.classes < 2 ^ 32 }
    requires fits { FitRecords program.now }
    ensures { IfOk result (λ store. store ≡ record { sessions = []; classes = filter is_hit (set_records hits.now 0 program.now.classes) }) }
{
    let mut store = ExecStore::new(alloc)?;
    'storing: for number in 0..program.classes.len() {
        let class = &program.classes[number];
        match class.probes {
            None => {}
            Some(init) => put_record(alloc, &mut store, hits, number as u32, class, init)?,
        }
    }
    Ok(store)
}
