//! A slow program for small inputs, straight from the definitions: the union of records, looked
//! for bit by bit, and the text of records, byte by byte. Tests compare the store with it.
ghost use Rattle.std.specs.Prelude.{◌≡◌, ◌<◌, ◌^◌, ◌++◌, [], ◌∷◌, length, map, take, drop, false, nat_eq};
ghost use Rattle.std.specs.Prelude.{slice_index_or, IsTrue, IfOk, IfSome, OnOk};
ghost use Rattle.std.specs.List.{list_any};
ghost use Rattle.jc_exec.specs.Format.{class};
ghost use Rattle.examples_methods.specs.SlowUnion.{some_hit, all_hits, merged_record};
ghost use Rattle.jc_exec.specs.Store.{Store, IsSmall};
ghost use Rattle.jc_exec.specs.Union.{IsUnion};
ghost use Rattle.jc_exec.specs.Writing.{low_first, packed, id_text, size_text, count_text, class_text, exec_text};

use jc_bytes::{Bytes, Memory};
use jc_exec::{Bits, ClassHits};
use std::alloc::{AllocError, Global};

/// Whether some record of the id has the probe hit.
fn is_hit_in(records: &[ClassHits], id: u64, index: usize) -> bool
    ensures { result ≡ some_hit records.now id index }
{
    records
        .iter()
        .any(|hits| hits.id == id && hits.bits.get(index))
}

/// The byte of the eight bits from this index on.
fn byte_at(bits: &Bits, index: usize) -> u8
    requires { index < 2 ^ 32 }
    ensures { result ≡ low_first (take 8 (drop index bits.now)) }
{
    let low = u8::from(bits.get(index)) + 2 * u8::from(bits.get(index + 1));
    let mid = u8::from(bits.get(index + 2)) + 2 * u8::from(bits.get(index + 3));
    let high = u8::from(bits.get(index + 4)) + 2 * u8::from(bits.get(index + 5));
    let top = u8::from(bits.get(index + 6)) + 2 * u8::from(bits.get(index + 7));
    low + 4 * mid + 16 * high + 64 * top
}

/// A count: seven bits a byte, the low ones first, 128 more where a byte follows.
#[tactic(auto, unfolding(jc_exec::specs::Writing::count_text))]
fn put_count(out: &mut Vec<u8>, count: u32) -> Result<(), AllocError>
    requires { count < 65536 }
    ensures { OnOk result (out.new.items ≡ out.old.items ++ count_text count) }
{
    if count < 128 {
        return out.extend_from_slice(&[count as u8]);
    }
    if count < 128 * 128 {
        return out.extend_from_slice(&[(count % 128 + 128) as u8, (count / 128) as u8]);
    }
    let second = (count / 128 % 128 + 128) as u8;
    out.extend_from_slice(&[(count % 128 + 128) as u8, second, (count / 128 / 128) as u8])
}

/// The bits, eight a byte.
fn put_bits(out: &mut Vec<u8>, bits: &Bits) -> Result<(), AllocError>
    requires { length bits.now < 65536 }
    ensures { OnOk result (out.new.items ≡ out.old.items ++ packed bits.now) }
{
    'packing: for byte in 0..bits.len().div_ceil(8) {
        out.push(byte_at(bits, 8 * byte))?;
    }
    Ok(())
}

#[tactic(auto, unfolding(jc_exec::specs::Writing::id_text, jc_exec::specs::Writing::size_text))]
fn put_head(out: &mut Vec<u8>, id: u64, size: u16) -> Result<(), AllocError>
    ensures { OnOk result (out.new.items ≡ out.old.items ++ 0x11 ∷ id_text id ++ size_text size) }
{
    out.push(0x11)?;
    out.extend_from_slice(&id.to_be_bytes())?;
    out.extend_from_slice(&size.to_be_bytes())
}

fn put_record(out: &mut Vec<u8>, hits: &ClassHits) -> Result<(), AllocError>
    requires { IsSmall hits.now }
    ensures { OnOk result (out.new.items ≡ out.old.items ++ class_text hits.now) }
{
    put_head(out, hits.id, hits.name.len() as u16)?;
    out.extend_from_slice(&hits.name)?;
    put_count(out, hits.bits.len() as u32)?;
    put_bits(out, &hits.bits)
}

/// Whether the record can be written.
fn is_small(hits: &ClassHits) -> bool
    ensures { IsTrue result → IsSmall hits.now }
{
    let _id = hits.id;
    hits.name.len() < 65536 && hits.bits.len() < 65536
}

/// Whether some bit is set.
fn is_hit(bits: &Bits) -> bool
    ensures { result ≡ list_any (λ b. b) bits.now }
{
    'looking: for index in 0..bits.len() {
        if bits.get(index) {
            return true;
        }
    }
    false
}

/// The text of the records that have a hit, where each can be written.
pub fn text(alloc: Global, records: &[ClassHits]) -> Result<Option<Vec<u8>>, AllocError>
    ensures { IfOk result (λ found. IfSome found (λ text. text.items ≡ exec_text (record { sessions = []; classes = records.now }))) }
{
    let mut out = Vec::from_slice(alloc, &[0x01, 0xc0, 0xc0, 0x10, 0x07])?;
    'writing: for hits in records {
        if !is_small(hits) {
            return Ok(None);
        }
        if is_hit(&hits.bits) {
            put_record(&mut out, hits)?;
        }
    }
    Ok(Some(out))
}

/// Whether some record has the id.
fn has_id(records: &[ClassHits], id: u64) -> bool
    ensures { result ≡ list_any (λ r. nat_eq r.id id) records.now }
{
    records.iter().any(|hits| hits.id == id)
}

/// The bits that some record of the id has, looked for one by one.
fn union_bits(alloc: Global, records: &[ClassHits], id: u64, count: usize) -> Result<Bits, Memory>
    ensures { IfOk result (λ bits. bits ≡ all_hits records.now id count) }
{
    let mut bits = Vec::new(alloc);
    'looking: for index in 0..count {
        bits.push(is_hit_in(records, id, index))?;
    }
    Bits::new(alloc, &bits)
}

/// A record with the bits of all records of its id.
fn merged(alloc: Global, records: &[ClassHits], hits: &ClassHits) -> Result<ClassHits, Memory>
    ensures { IfOk result (λ c. c ≡ merged_record records.now hits.now) }
{
    let id = hits.id;
    let name = Bytes::copy_of(alloc, &hits.name)?;
    let bits = union_bits(alloc, records, id, hits.bits.len())?;
    Ok(ClassHits { id, name, bits })
}

/// The union of the records, where they have one.
pub fn union(alloc: Global, records: &[ClassHits]) -> Result<Vec<ClassHits>, Memory>
    ensures { IfOk result (λ v. (s : Store) → IsUnion (map class records.now) s → v.items ≡ s.classes) }
{
    let mut out = Vec::new(alloc);
    'merging: for (i, hits) in records.iter().enumerate() {
        if !has_id(&records[..i], hits.id) {
            out.push(merged(alloc, records, hits)?)?;
        }
    }
    Ok(out)
}
