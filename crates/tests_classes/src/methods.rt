//! Calls on the constant pool and on the methods of a class file.
ghost use Rattle.std.specs.Prelude.{◌≤◌, length, All};
ghost use Rattle.jc_methods.specs.VerificationTypes.{AreNumberedFrames};
ghost use Rattle.jc_bytes.specs.Reader.{most_read};
ghost use Rattle.jc_methods.specs.WellMade.{IsWellMade};
ghost use Rattle.jc_class.specs.Writable.{IsClassFile};

use crate::emissions::{attribute, emitted, laid};
use crate::texts::text;
use crate::ways::{asked_for, parts};
use jc_body::read_body;
use jc_bytes::Names;
use jc_class::ClassFile;
use jc_emit::straddles;
use jc_instrument_code::first_text;
use jc_kinds::states;
use jc_methods::Body;
use jc_pool::Pool;
use std::alloc::Global;
use tests_lines::{Answer, number};

/// A call on a method: its name, and the words behind the number of the method.
#[derive(Clone, Copy)]
struct Call<'a> {
    command: &'a str,
    rest: &'a [&'a str],
}

/// Whether a word is one of the calls below.
pub fn is_command(word: &str) -> bool {
    matches!(
        word,
        "first" | "states" | "straddles" | "emit" | "layout" | "parts" | "code"
    )
}

/// Puts what a call on the pool or on a method answers.
pub fn answer(
    alloc: Global,
    class: &mut ClassFile,
    command: &str,
    word: &str,
    rest: &[&str],
    out: &mut Answer,
) -> Option<()>
    requires class { IsClassFile class.old }
    requires sizes { All (λ m. All (λ a. length a.body ≤ most_read) m.attributes) class.old.methods }
{
    if command == "first" {
        return first(alloc, &class.pool, word, out);
    }
    in_method(alloc, class, command, word, rest, out)
}

/// Puts the first place of a text in the pool.
fn first(alloc: Global, pool: &Pool, word: &str, out: &mut Answer) -> Option<()> {
    let wanted = text(alloc, word, out)?;
    match first_text(pool, &wanted) {
        Some(place) => out.label("place ", &place),
        None => out.put("nowhere"),
    }
    Some(())
}

/// Puts what a call on the method with this number answers.
fn in_method(
    alloc: Global,
    class: &mut ClassFile,
    command: &str,
    word: &str,
    rest: &[&str],
    out: &mut Answer,
) -> Option<()>
    requires class { IsClassFile class.old }
    requires sizes { All (λ m. All (λ a. length a.body ≤ most_read) m.attributes) class.old.methods }
{
    let method = number::<u16>(word, out)?;
    if usize::from(method) >= class.methods.len() {
        return out.unknown_word(word);
    }
    let mut names = out.got(Names::new(alloc))?;
    match out.accepted(read_body(alloc, class, u32::from(method), &mut names))? {
        Some(body) => {
            let call = Call { command, rest };
            in_body(alloc, &body, &mut names, &mut class.pool, call, out)
        }
        None => out.wrong("no code"),
    }
}

/// Puts what a call on a body answers.
fn in_body(
    alloc: Global,
    body: &Body,
    names: &mut Names,
    pool: &mut Pool,
    call: Call<'_>,
    out: &mut Answer,
) -> Option<()>
    requires body { IsWellMade body.now }
    requires frames { AreNumberedFrames (length names.old) body.now.frames }
{
    match (call.command, call.rest) {
        ("states", []) => state_count(alloc, body, names, out),
        ("straddles", []) => straddling(body, out),
        ("emit", way) => {
            let asked = asked_for(alloc, way, out)?;
            emitted(alloc, body, names, &asked, out)
        }
        ("layout", way) => {
            let asked = asked_for(alloc, way, out)?;
            laid(alloc, body, names, &asked, out)
        }
        ("parts", [wide, way @ ..]) => parts(alloc, body, names, wide, way, out),
        ("code", [place]) => {
            let method = number::<u16>(place, out)?;
            attribute(alloc, body, names, pool, method, out)
        }
        (command, _) => out.unknown_word(command),
    }
}

/// Puts how many states the method has, one before each instruction.
fn state_count(alloc: Global, body: &Body, names: &mut Names, out: &mut Answer) -> Option<()>
    requires body { IsWellMade body.now }
    requires frames { AreNumberedFrames (length names.old) body.now.frames }
{
    let states = out.accepted(states(alloc, body, names))?;
    out.show(&states.len());
    out.put(" states");
    Some(())
}

/// Puts the first instruction that needs the two local variables between which the array of probes would stand.
fn straddling(body: &Body, out: &mut Answer) -> Option<()>
    requires { IsWellMade body.now }
{
    match straddles(body) {
        Some(at) => out.label("at ", &at),
        None => out.put("nowhere"),
    }
    Some(())
}
