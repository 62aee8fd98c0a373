//! The operands of switches.
ghost use Rattle.std.specs.Prelude.{◌≡◌, ◌+◌, ◌*◌, ◌/◌, ◌<◌, ◌≤◌, length, take, int_le, IfOk};
ghost use Rattle.jc_bytes.specs.Reader.{most_read};
ghost use Rattle.jc_bytes.specs.Decoder.{Gives, SameEnd, first};
ghost use Rattle.jc_insn.specs.Items.{padding, key_count, ascending, offset_in, offsets_in, arm_in, arms_in};
ghost use Rattle.jc_insn.specs.Reading.{piece_at, table_at, lookup_at};

use crate::item::CodeItem;
use crate::operands::target;
use crate::size::padding;
use byteorder::{BigEndian, ByteOrder};
use jc_bytes::{Fail, List, MOST_READ, Reader, Unfit};
use jc_methods::{Arm, Insn};
use std::alloc::{AllocError, Global};

/// The next `count` pieces of `size` bytes each.
fn pieces<'a>(reader: &mut Reader<'a>, size: u32, count: u64) -> Result<&'a [u8], Fail<Unfit>>
    requires small { reader.old.place + length reader.old.left ≤ most_read }
    requires some { 0 < size }
    requires few { size ≤ 8 }
    ensures gives { Gives (λ words. words.now) result reader.new.left (piece_at (size * count) reader.old.left) }
    ensures end { SameEnd reader.old reader.new }
{
    if count > MOST_READ as u64 {
        return Err(Fail::Said(Unfit));
    }
    Ok(reader.take(size * count as u32)?)
}

/// The offset to which an arm of `tableswitch` leads.
fn offset(at: u32, bytes: &[u8]) -> u32
    requires { 4 ≤ length bytes.now }
    ensures { result ≡ offset_in at bytes.now }
{
    target(at, BigEndian::read_u32(bytes).cast_signed())
}

/// The arms of `tableswitch`, of four bytes each.
fn offsets(alloc: Global, at: u32, words: &[u8]) -> Result<List<u32>, AllocError>
    ensures { IfOk result (λ arms. arms ≡ offsets_in at words.now) }
{
    let mut arms = Vec::new(alloc);
    'reading: for index in 0..words.len() / 4 {
        arms.push(offset(at, &words[4 * index..]))?;
    }
    Ok(List::from_vec(arms))
}

/// An arm of `lookupswitch`.
fn arm(at: u32, bytes: &[u8]) -> Arm
    requires { 8 ≤ length bytes.now }
    ensures { result ≡ arm_in at bytes.now }
{
    let (key, to) = bytes.split_at(4);
    Arm {
        key: BigEndian::read_u32(key).cast_signed(),
        to: offset(at, to),
    }
}

/// The arms of `lookupswitch`, of eight bytes each.
fn arms(alloc: Global, at: u32, words: &[u8]) -> Result<List<Arm>, AllocError>
    ensures { IfOk result (λ arms. arms ≡ arms_in at words.now) }
{
    let mut arms = Vec::new(alloc);
    'reading: for index in 0..words.len() / 8 {
        arms.push(arm(at, &words[8 * index..]))?;
    }
    Ok(List::from_vec(arms))
}

/// Whether each key is above the one before it.
fn is_ascending(arms: &[Arm]) -> bool
    ensures { result ≡ ascending arms.now }
{
    let mut left = arms;
    'comparing: while let [a, b, ..] = left {
        if a.key >= b.key {
            return false;
        }
        left = &left[1..];
    }
    true
}

/// Whether a first key isn't above a last one.
fn are_keys(low: i32, high: i32) -> bool
    ensures { result ≡ int_le low high }
{
    low <= high
}

/// How many keys there are from the first to the last.
fn key_count(low: i32, high: i32) -> u64
    ensures { result ≡ key_count low high }
{
    u64::from(high.abs_diff(low)) + 1
}

/// `tableswitch` at this offset.
#[tactic(auto, unfolding(crate::specs::Reading::table_at))]
pub fn table(alloc: Global, reader: &mut Reader<'_>, at: u32) -> Result<CodeItem, Fail<Unfit>>
    requires { reader.old.place + length reader.old.left ≤ most_read }
    ensures gives { Gives (λ item. item) result reader.new.left (table_at at reader.old.left) }
    ensures end { SameEnd reader.old reader.new }
{
    let _pad = reader.take(padding(at))?;
    let default = reader.u32()?.cast_signed();
    let low = reader.u32()?.cast_signed();
    let high = reader.u32()?.cast_signed();
    if !are_keys(low, high) {
        return Err(Fail::Said(Unfit));
    }
    let words = pieces(reader, 4, key_count(low, high))?;
    Ok(CodeItem::Insn(Insn::Table {
        low,
        default: target(at, default),
        arms: offsets(alloc, at, words)?,
    }))
}

/// `lookupswitch` at this offset.
#[tactic(auto, unfolding(crate::specs::Reading::lookup_at))]
pub fn lookup(alloc: Global, reader: &mut Reader<'_>, at: u32) -> Result<CodeItem, Fail<Unfit>>
    requires { reader.old.place + length reader.old.left ≤ most_read }
    ensures gives { Gives (λ item. item) result reader.new.left (lookup_at at reader.old.left) }
    ensures end { SameEnd reader.old reader.new }
{
    let _pad = reader.take(padding(at))?;
    let default = reader.u32()?.cast_signed();
    let pairs = reader.u32()?;
    if pairs > 0x7fff_ffff {
        return Err(Fail::Said(Unfit));
    }
    let words = pieces(reader, 8, u64::from(pairs))?;
    let arms = arms(alloc, at, words)?;
    if !is_ascending(&arms) {
        return Err(Fail::Said(Unfit));
    }
    Ok(CodeItem::Insn(Insn::Lookup {
        default: target(at, default),
        arms,
    }))
}
