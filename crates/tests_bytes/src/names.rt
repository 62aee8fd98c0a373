//! Names with numbers, and the states in which methods begin.

use crate::kinds::{kinds, put_state};
use jc_base::{
    Names, entry_state, field_type, is_field_descriptor, is_method_descriptor, put_tops,
};
use std::alloc::Global;
use tests_lines::{Answer, number, text};

/// Makes a list of no names.
fn new(alloc: Global, names: &mut Option<Names>, out: &mut Answer) -> Option<()> {
    *names = Some(out.got(Names::new(alloc))?);
    out.put("made");
    Some(())
}

/// Puts the number of a name.
fn put_number(alloc: Global, names: &mut Names, name: &[&str], out: &mut Answer) -> Option<()> {
    let name = text(alloc, name, out)?;
    let number = out.got(names.number(alloc, &name))?;
    out.answer(&number)
}

/// Puts the name of a number.
fn put_name(names: &Names, words: &[&str], out: &mut Answer) -> Option<()> {
    let [word] = words else {
        return out.wrong("no number");
    };
    let number = number::<u32>(word, out)?;
    if number >= names.len() {
        return out.wrong_word("no name of the number", word);
    }
    out.quoted(names.text(number));
    Some(())
}

/// Puts the verification type of a field descriptor.
fn put_kind(alloc: Global, names: &mut Names, words: &[&str], out: &mut Answer) -> Option<()> {
    let [desc] = words else {
        return out.wrong("no field descriptor");
    };
    if !is_field_descriptor(desc.as_bytes()) {
        return out.wrong_word("no field descriptor", desc);
    }
    let kind = out.got(field_type(desc.as_bytes()).kind(alloc, names))?;
    out.debug(&kind);
    out.label(" slots ", &kind.slots());
    Some(())
}

/// The state in which a method begins, by its class, name and descriptor, its flags and its local variables.
fn entry(alloc: Global, names: &mut Names, words: &[&str], out: &mut Answer) -> Option<()> {
    let [owner, name, desc, flags, most] = words else {
        return out.wrong("no method");
    };
    let flags = number::<u16>(flags, out)?;
    let most = number::<u16>(most, out)?;
    let desc = desc.as_bytes();
    if !is_method_descriptor(desc) {
        return out.wrong("no method descriptor");
    }
    let (owner, name) = (owner.as_bytes(), name.as_bytes());
    let state = entry_state(alloc, owner, name, desc, flags, most, names);
    put_state(&out.accepted(state)?, out);
    Some(())
}

/// Puts the local variables with `Top` in those that are left of so many.
fn put_filled(alloc: Global, words: &[&str], out: &mut Answer) -> Option<()> {
    let [most, word] = words else {
        return out.wrong("no local variables");
    };
    let most = number::<usize>(most, out)?;
    let mut locals = kinds(alloc, word, out)?;
    out.got(put_tops(&mut locals, most))?;
    out.debug(&locals.as_slice());
    Some(())
}

/// What a call on the names answers.
fn of_names(
    alloc: Global,
    names: &mut Names,
    call: &str,
    words: &[&str],
    out: &mut Answer,
) -> Option<()> {
    match call {
        "number" => put_number(alloc, names, words, out),
        "len" => out.answer(&names.len()),
        "text" => put_name(names, words, out),
        "kind" => put_kind(alloc, names, words, out),
        "entry_state" => entry(alloc, names, words, out),
        "put_tops" => put_filled(alloc, words, out),
        call => out.unknown_word(call),
    }
}

/// What a call answers. The calls behind `new` are on the names that it makes.
pub fn answer(
    alloc: Global,
    names: &mut Option<Names>,
    words: &[&str],
    out: &mut Answer,
) -> Option<()> {
    let [call, words @ ..] = words else {
        return out.wrong("no call");
    };
    if *call == "new" {
        return new(alloc, names, out);
    }
    match names {
        Some(names) => of_names(alloc, names, call, words, out),
        None => out.wrong("no names"),
    }
}
