//! The bootstrap methods of class files.
ghost use Rattle.std.specs.Prelude.{◌≤◌, length};

use jc_bootstraps::{bootstrap_count, class_bootstraps, last_bootstrap, push_bootstrap};
use jc_class::read_class;
use std::alloc::Global;
use tests_lines::{Answer, bytes, number};

/// Puts how many there are, or that this isn't told.
fn put_count(count: Option<u16>, out: &mut Answer) -> Option<()> {
    match count {
        Some(count) => out.show(&count),
        None => out.put("none"),
    }
    Some(())
}

/// Puts the place of the last handle and how many arguments stand behind it, or that this isn't told.
fn put_last(body: &[u8], out: &mut Answer) -> Option<()> {
    match last_bootstrap(body) {
        Some(last) => {
            out.label("handle ", &last.handle);
            out.label(" arguments ", &last.arguments);
        }
        None => out.put("none"),
    }
    Some(())
}

/// Reads a class file, and puts how many bootstrap methods it has.
fn of_class(alloc: Global, bytes: &[u8], out: &mut Answer) -> Option<()>
    requires { length bytes.now ≤ 1000000 }
{
    let class = out.accepted(read_class(alloc, bytes))?;
    put_count(class_bootstraps(&class), out)
}

/// Puts the body of an attribute with one bootstrap method more, behind so many.
fn push(alloc: Global, words: &[&str], out: &mut Answer) -> Option<()> {
    let [handle, count, text @ ..] = words else {
        return out.unknown_word("push");
    };
    let handle = number::<u16>(handle, out)?;
    let count = number::<u16>(count, out)?;
    let body = bytes(alloc, text, out)?;
    if count == u16::MAX {
        return out.wrong("no room for one more");
    }
    let pushed = out.got(push_bootstrap(alloc, handle, count, &body))?;
    out.bytes(&pushed);
    Some(())
}

/// What a call on the bytes of a class file, or of an attribute's body, answers.
fn of_bytes(alloc: Global, call: &str, words: &[&str], out: &mut Answer) -> Option<()> {
    let bytes = bytes(alloc, words, out)?;
    match call {
        "class" => of_class(alloc, &bytes, out),
        "count" => put_count(bootstrap_count(&bytes), out),
        "last" => put_last(&bytes, out),
        call => out.unknown_word(call),
    }
}

/// What a call answers.
pub fn answer(alloc: Global, words: &[&str], out: &mut Answer) -> Option<()> {
    match words {
        ["push", rest @ ..] => push(alloc, rest, out),
        [call, text @ ..] => of_bytes(alloc, call, text, out),
        [] => out.unknown(words),
    }
}
