//! Modified UTF-8.
use jc_base::{first_unit, is_modified};
use jc_pool::text_of;
use std::alloc::Global;
use tests_lines::{Answer, bytes};

/// Puts the first unit of the bytes, and the bytes behind it.
fn put_first(bytes: &[u8], out: &mut Answer) -> Option<()> {
    match first_unit(bytes) {
        Some((unit, rest)) => {
            out.hexadecimal(u64::from(unit));
            out.put(" and ");
            out.bytes_0x(rest);
        }
        None => out.put("none"),
    }
    Some(())
}

/// Puts the text that the bytes spell.
fn put_text_of(alloc: Global, bytes: &[u8], out: &mut Answer) -> Option<()> {
    match out.got(text_of(alloc, bytes))? {
        Some(text) => out.debug(&text),
        None => out.put("none"),
    }
    Some(())
}

/// What a call answers.
pub fn answer(alloc: Global, words: &[&str], out: &mut Answer) -> Option<()> {
    let [call, text @ ..] = words else {
        return out.unknown(words);
    };
    let bytes = bytes(alloc, text, out)?;
    match *call {
        "is_modified" => out.answer(&is_modified(&bytes)),
        "first_unit" => put_first(&bytes, out),
        "text_of" => put_text_of(alloc, &bytes, out),
        call => out.unknown_word(call),
    }
}
