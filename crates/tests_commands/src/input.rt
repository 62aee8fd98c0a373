//! Lines that set up a run: files and planned faults.

use crate::setup::{Plan, Setup};
use crate::texts::lined;
use std::alloc::Global;
use tests_lines::{Answer, bytes_up_to, number, numbers};

/// The most bytes that a line spells.
const MOST: usize = 100_000_000;

/// What a path holds before a run.
fn held<'s>(setup: &'s mut Setup, path: &str, out: &mut Answer) -> Option<&'s mut Vec<u8>> {
    match setup.files.get_mut(path) {
        Some(bytes) => Some(bytes),
        None => out.wrong_word("no file", path),
    }
}

/// Makes a path hold the bytes that words spell, and tells how many they are.
fn file(
    alloc: Global,
    setup: &mut Setup,
    path: &str,
    words: &[&str],
    out: &mut Answer,
) -> Option<()> {
    let bytes = bytes_up_to(alloc, MOST, words, out)?;
    setup.place(alloc, path, bytes, out)
}

/// Makes a path hold the text of words, and tells how many bytes it has.
fn text(
    alloc: Global,
    setup: &mut Setup,
    path: &str,
    words: &[&str],
    out: &mut Answer,
) -> Option<()> {
    let text = out.got(lined(alloc, words))?;
    setup.place(alloc, path, text, out)
}

/// Puts bytes behind those of a file, and tells how many it has then.
fn extend(
    alloc: Global,
    setup: &mut Setup,
    path: &str,
    words: &[&str],
    out: &mut Answer,
) -> Option<()> {
    let bytes = bytes_up_to(alloc, MOST, words, out)?;
    let file = held(setup, path, out)?;
    out.got(file.extend_from_slice(&bytes))?;
    out.show(&file.len());
    out.put(" bytes");
    Some(())
}

/// Replaces bytes from an offset on, and tells how many were replaced.
fn put_replaced(file: &mut [u8], offset: u32, bytes: &[u8]) -> u32 {
    let mut count = 0u32;
    for (place, byte) in file.iter_mut().skip(offset as usize).zip(bytes.iter()) {
        *place = *byte;
        count = count.saturating_add(1);
    }
    count
}

/// Replaces bytes of a file from an offset on, and tells how many were replaced.
fn replace(
    alloc: Global,
    setup: &mut Setup,
    [path, at]: [&str; 2],
    words: &[&str],
    out: &mut Answer,
) -> Option<()> {
    let offset = number::<u32>(at, out)?;
    let bytes = bytes_up_to(alloc, MOST, words, out)?;
    let file = held(setup, path, out)?;
    out.show(&put_replaced(file, offset, &bytes));
    out.put(" replaced");
    Some(())
}

/// Places a file that holds what another one holds.
fn copy(alloc: Global, setup: &mut Setup, from: &str, to: &str, out: &mut Answer) -> Option<()> {
    let held = held(setup, from, out)?;
    let bytes = out.got(Vec::from_slice(alloc, held))?;
    setup.place(alloc, to, bytes, out)
}

/// Plans that calls of an object fail in the next run.
fn fail(
    alloc: Global,
    plan: &mut Plan,
    object: &str,
    calls: &[&str],
    out: &mut Answer,
) -> Option<()> {
    let calls = numbers::<u32>(alloc, calls, out)?;
    match object {
        "files" => plan.files = calls,
        "out" => plan.out = calls,
        "err" => plan.err = calls,
        _ => return out.unknown_word(object),
    }
    out.put("planned");
    Some(())
}

/// Forgets all that was set up.
fn clear(alloc: Global, setup: &mut Setup, out: &mut Answer) -> Option<()> {
    *setup = Setup::new(alloc);
    out.put("cleared");
    Some(())
}

/// What the words of a line answer that sets up a run.
pub fn answer(alloc: Global, setup: &mut Setup, words: &[&str], out: &mut Answer) -> Option<()> {
    match words {
        ["file", path, words @ ..] => file(alloc, setup, path, words, out),
        ["lines", path, words @ ..] => text(alloc, setup, path, words, out),
        ["more", path, words @ ..] => extend(alloc, setup, path, words, out),
        ["replace", path, at, words @ ..] => replace(alloc, setup, [path, at], words, out),
        ["copy", from, to] => copy(alloc, setup, from, to, out),
        ["fail", object, calls @ ..] => fail(alloc, &mut setup.plan, object, calls, out),
        ["clear"] => clear(alloc, setup, out),
        words => out.unknown(words),
    }
}
