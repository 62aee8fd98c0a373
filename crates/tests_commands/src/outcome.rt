//! How a run ended, in words.

use jc_top::{Fault, Status};
use std::str;
use tests_lines::Answer;

/// Puts two inputs that share what stands in front of their numbers.
fn put_pair(label: &str, first: u32, second: u32, out: &mut Answer) {
    out.label(label, &first);
    out.label(" and ", &second);
}

/// Puts which input is refused, counted from 0.
fn put_refused(fault: &Fault, out: &mut Answer) {
    match fault {
        Fault::Exec { path, .. } => out.label("refused: execution data ", path),
        Fault::Plan { line } => out.label("refused: plan at line ", line),
        Fault::Class { path, .. } => out.label("refused: class ", path),
        Fault::SameName { first, second } => {
            put_pair("refused: class names ", *first, *second, out)
        }
        Fault::SameId { first, second } => put_pair("refused: class ids ", *first, *second, out),
        Fault::NoEntry { line } => out.label("refused: no entry at line ", line),
        Fault::Refs { path, .. } => out.label("refused: references of class ", path),
    }
}

/// Puts the status, and which input is refused.
pub fn put_status(status: &Status, out: &mut Answer) {
    match status {
        Status::Done => out.put("done"),
        Status::Refused(fault) => put_refused(fault, out),
        Status::Usage => out.put("usage"),
        Status::ReadFault => out.put("read fault"),
        Status::WriteFault => out.put("write fault"),
        Status::Memory => out.put("memory"),
        Status::Broken => out.put("broken"),
    }
}

/// Puts a line for a piece of a text, behind its name. The last may lack its line feed.
fn put_piece(name: &str, piece: &str, out: &mut Answer) {
    out.put("\n");
    out.put(name);
    match piece.strip_suffix('\n') {
        Some(line) => out.label(": ", &line),
        None => out.label(" part: ", &piece),
    }
}

/// Puts a line for each line of a text, behind its name. The last may lack its line feed.
pub fn put_lines(name: &str, bytes: &[u8], out: &mut Answer) {
    match str::from_utf8(bytes) {
        Ok(text) => {
            for piece in text.split_inclusive('\n') {
                put_piece(name, piece, out);
            }
        }
        Err(_) => {
            out.label("\n", &name);
            out.put(" is no text");
        }
    }
}
