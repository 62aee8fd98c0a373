//! Lines that ask for what the latest run left.

use crate::outcome::put_lines;
use crate::setup::Setup;
use std::alloc::Global;
use tests_lines::Answer;

/// Puts the bytes at a path, in hexadecimal digits.
fn show(setup: &Setup, path: &str, out: &mut Answer) -> Option<()> {
    match setup.left_at(path) {
        None => out.put("absent"),
        Some([]) => out.put("no bytes"),
        Some(bytes) => out.bytes(bytes),
    }
    Some(())
}

/// Puts how many bytes stand at a path, and in further lines the text that they spell.
fn text(setup: &Setup, path: &str, out: &mut Answer) -> Option<()> {
    match setup.left_at(path) {
        Some(bytes) => {
            out.show(&bytes.len());
            out.put(" bytes");
            put_lines(path, bytes, out);
        }
        None => out.put("absent"),
    }
    Some(())
}

/// Puts where bytes differ from those that are wanted.
fn put_difference(left: &[u8], wanted: &[u8], out: &mut Answer) -> Option<()> {
    let mut pairs = left.iter().zip(wanted);
    match pairs.position(|(a, b)| *a != *b) {
        Some(place) => out.label("differs at ", &place),
        None if left.len() == wanted.len() => out.put("same"),
        None => {
            out.show(&left.len());
            out.label(" of ", &wanted.len());
            out.put(" bytes");
        }
    }
    Some(())
}

/// Puts how a file that the run left differs from one that was placed.
fn compare(setup: &Setup, path: &str, placed: &str, out: &mut Answer) -> Option<()> {
    match (setup.left_at(path), setup.files.get(placed)) {
        (Some(left), Some(wanted)) => put_difference(left, wanted, out),
        (None, _) => out.wrong_word("no file", path),
        (_, None) => out.wrong_word("no file", placed),
    }
}

/// Places a file that the run left, for further runs.
fn keep(alloc: Global, setup: &mut Setup, path: &str, to: &str, out: &mut Answer) -> Option<()> {
    let Some(left) = setup.left_at(path) else {
        return out.wrong_word("no file", path);
    };
    let bytes = out.got(Vec::from_slice(alloc, left))?;
    setup.place(alloc, to, bytes, out)
}

/// Places files that the run left, for further runs, under the same paths, and tells how many.
fn keep_each(alloc: Global, setup: &mut Setup, paths: &[&str], out: &mut Answer) -> Option<()> {
    for path in paths {
        let Some(left) = setup.left_at(path) else {
            return out.wrong_word("no file", path);
        };
        let bytes = out.got(Vec::from_slice(alloc, left))?;
        let to = out.got(String::from_str(alloc, path))?;
        out.got(setup.files.insert(to, bytes))?;
    }
    out.show(&paths.len());
    out.put(" files");
    Some(())
}

/// What the words of a line answer that asks for what the latest run left.
pub fn answer(alloc: Global, setup: &mut Setup, words: &[&str], out: &mut Answer) -> Option<()> {
    match words {
        ["show", path] => show(setup, path, out),
        ["text", path] => text(setup, path, out),
        ["compare", path, placed] => compare(setup, path, placed, out),
        ["keep", path, to] => keep(alloc, setup, path, to, out),
        ["keep-each", paths @ ..] => keep_each(alloc, setup, paths, out),
        words => out.unknown(words),
    }
}
