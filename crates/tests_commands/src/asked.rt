//! Lines that ask for what the files in memory list and for parts of them.

use crate::setup::Setup;
use jc_base::{FileFault, Files, MOST_PART, MOST_READ};
use std::alloc::Global;
use tests_lines::{Answer, number};

/// Puts a fault of a call, in words.
fn put_fault(fault: FileFault, out: &mut Answer) {
    out.put(match fault {
        FileFault::Failed => "failed",
        FileFault::Missing => "missing",
        FileFault::TooLarge => "too large",
        FileFault::Memory => "memory",
    });
}

/// Puts how many paths there are, and in further lines the paths.
fn put_paths(paths: &[String], out: &mut Answer) {
    out.show(&paths.len());
    out.put(" paths");
    for path in paths {
        out.label("\n", path);
    }
}

/// Puts the class files of a folder.
fn list(alloc: Global, setup: &Setup, folder: &str, out: &mut Answer) -> Option<()> {
    let mut files = out.got(setup.for_a_run(alloc))?;
    match files.list(alloc, folder) {
        Ok(paths) => put_paths(&paths, out),
        Err(fault) => put_fault(fault, out),
    }
    Some(())
}

/// Puts how many bytes a part has, the first four of them in hexadecimal digits, and whether the file ends with it.
fn put_part(part: &[u8], ended: bool, out: &mut Answer) {
    out.show(&part.len());
    out.put(" bytes [");
    out.bytes(&part[..part.len().min(4)]);
    out.put(if ended {
        "], the last"
    } else {
        "], not the last"
    });
}

/// The part of a file from an offset on.
fn part(alloc: Global, setup: &Setup, path: &str, at: &str, out: &mut Answer) -> Option<()> {
    let from = u64::from(number::<u32>(at, out)?);
    if from % MOST_PART as u64 != 0 || from >= MOST_READ as u64 {
        return out.wrong_word("no offset of a part", at);
    }
    let mut files = out.got(setup.for_a_run(alloc))?;
    let mut into = Vec::new(alloc);
    match files.read_part(alloc, path, from, &mut into) {
        Ok(ended) => put_part(&into, ended, out),
        Err(fault) => put_fault(fault, out),
    }
    Some(())
}

/// What the words of a line answer that asks for files as they are set up.
pub fn answer(alloc: Global, setup: &Setup, words: &[&str], out: &mut Answer) -> Option<()> {
    match words {
        ["list", folder] => list(alloc, setup, folder, out),
        ["part", path, at] => part(alloc, setup, path, at, out),
        words => out.unknown(words),
    }
}
