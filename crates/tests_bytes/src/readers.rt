//! Big-endian numbers and pieces of bytes.

use jc_base::{Fail, Reader, Refusal, Short, byte_item, piece_item, u16_item, u32_item};
use std::alloc::Global;
use std::fmt::Debug;
use tests_lines::{Answer, bytes, number};

/// Puts a number that was read.
fn put_number(read: Result<u64, Short>, out: &mut Answer) -> Option<()> {
    match read {
        Ok(number) => out.hexadecimal(number),
        Err(Short) => out.put("Short"),
    }
    Some(())
}

/// Puts a piece that was read.
fn put_piece(read: Result<&[u8], Short>, out: &mut Answer) -> Option<()> {
    match read {
        Ok(piece) => out.bytes_0x(piece),
        Err(Short) => out.put("Short"),
    }
    Some(())
}

/// Puts an item of a class file, or why it is refused.
fn put_item<T: Debug + Drop>(item: Result<T, Fail<Refusal>>, out: &mut Answer) -> Option<()> {
    if let Some(item) = out.accepted(item) {
        out.debug(&item);
    }
    Some(())
}

/// Reads an item of a class file, and puts it.
fn item(reader: &mut Reader<'_>, step: &str, out: &mut Answer) -> Option<()> {
    match step {
        "byte_item" => put_item(byte_item(reader), out),
        "u16_item" => put_item(u16_item(reader), out),
        "u32_item" => put_item(u32_item(reader), out),
        step => match step.strip_prefix("piece_item:") {
            Some(size) => put_item(piece_item(reader, number::<u32>(size, out)?), out),
            None => out.unknown_word(step),
        },
    }
}

/// Reads a number or a piece, or tells where the reader stands.
fn read(reader: &mut Reader<'_>, step: &str, out: &mut Answer) -> Option<()> {
    match step {
        "place" => out.answer(&reader.place()),
        "u8" => put_number(reader.u8().map(u64::from), out),
        "u16" => put_number(reader.u16().map(u64::from), out),
        "u32" => put_number(reader.u32().map(u64::from), out),
        "u64" => put_number(reader.u64(), out),
        step => match step.strip_prefix("take:") {
            Some(size) => put_piece(reader.take(number::<u32>(size, out)?), out),
            None => item(reader, step, out),
        },
    }
}

/// What a reader of the bytes answers step by step.
pub fn answer(alloc: Global, words: &[&str], out: &mut Answer) -> Option<()> {
    let [text, steps @ ..] = words else {
        return out.unknown_word("reader");
    };
    let bytes = bytes(alloc, &[*text], out)?;
    let mut reader = Reader::new(&bytes);
    for (number, step) in steps.iter().enumerate() {
        if number > 0 {
            out.put(", ");
        }
        read(&mut reader, step, out)?;
    }
    Some(())
}
