//! Lists, and what is put at the end of bytes.
ghost use Rattle.std.specs.Prelude.{◌<◌, length, IsTrue, All};

use jc_base::{Bytes, first_seen, insn_numbers};
use std::alloc::{AllocError, Global};
use tests_lines::{Answer, bytes, listed, number};

/// A list of these bytes, put one by one.
fn pushed(alloc: Global, bytes: &[u8]) -> Result<Bytes, AllocError> {
    let mut list = Bytes::new(alloc);
    for byte in bytes {
        list.push(*byte)?;
    }
    Ok(list)
}

/// Puts the items of a list, the largest of them, and whether the list is its copy's equal.
fn put_list(list: &Bytes, copy: &Bytes, out: &mut Answer) {
    out.label("len ", &list.len());
    out.label_debug(" largest ", &list.iter().copied().max());
    out.label(" equal ", &(list == copy));
    out.put(" ");
    out.bytes_0x(list.as_slice());
}

/// The items of a list of these bytes, the largest of them, and whether the list is a copy's equal.
fn list(alloc: Global, words: &[&str], out: &mut Answer) -> Option<()> {
    let bytes = bytes(alloc, words, out)?;
    let list = out.got(pushed(alloc, &bytes))?;
    let copy = out.got(Bytes::copy_of(alloc, &bytes))?;
    put_list(&list, &copy, out);
    Some(())
}

/// Each number once.
fn seen(alloc: Global, word: &str, out: &mut Answer) -> Option<()> {
    let numbers = listed(alloc, word, out)?;
    let seen = out.got(first_seen(alloc, &numbers))?;
    out.debug(&seen.as_slice());
    Some(())
}

/// Whether `insn_numbers` takes these offsets.
fn are_starts(starts: &[u32], size: usize) -> bool
    ensures { IsTrue result → (0 < length starts.now) × (length starts.now < 1000000) × All (λ start. start < size) starts.now }
{
    let within = starts.iter().all(|start| (*start as usize) < size);
    !starts.is_empty() && (starts.len() < 1_000_000 && within)
}

/// The number of the instruction that begins at each offset.
fn insns_at(alloc: Global, size: &str, starts: &str, out: &mut Answer) -> Option<()> {
    let size = number::<usize>(size, out)?;
    let starts = listed(alloc, starts, out)?;
    if !are_starts(&starts, size) {
        return out.wrong("no offsets below the size");
    }
    let numbers = out.got(insn_numbers(alloc, &starts, size))?;
    out.debug(&numbers);
    Some(())
}

/// Puts a number of so many bytes at the end, or the bytes of a word.
fn put(call: &str, word: &str, into: &mut Vec<u8>, out: &mut Answer) -> Option<()> {
    let outcome = match call {
        "put_bytes" => jc_base::put_bytes(into, word.as_bytes()),
        "put_u8" => jc_base::put_u8(into, number::<u8>(word, out)?),
        "put_u16" => jc_base::put_u16(into, number::<u16>(word, out)?),
        "put_u32" => jc_base::put_u32(into, number::<u32>(word, out)?),
        "put_u64" => jc_base::put_u64(into, number::<u64>(word, out)?),
        call => return out.unknown_word(call),
    };
    out.got(outcome)
}

/// Bytes with a number or a word behind them.
fn with_number(
    alloc: Global,
    call: &str,
    word: &str,
    words: &[&str],
    out: &mut Answer,
) -> Option<()> {
    let mut bytes = bytes(alloc, words, out)?;
    put(call, word, &mut bytes, out)?;
    out.bytes(&bytes);
    Some(())
}

/// What a call answers.
pub fn answer(alloc: Global, words: &[&str], out: &mut Answer) -> Option<()> {
    match words {
        ["of", text @ ..] => list(alloc, text, out),
        ["first_seen", word] => seen(alloc, word, out),
        ["insn_numbers", size, starts] => insns_at(alloc, size, starts, out),
        [call, word, text @ ..] => with_number(alloc, call, word, text, out),
        words => out.unknown(words),
    }
}
