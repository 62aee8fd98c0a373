//! Calls on whole class files.
ghost use Rattle.std.specs.Prelude.{◌≤◌, length};

use crate::shown::{put_bytes, put_text};
use crate::{attributes, covering, methods};
use jc_class::read_class;
use jc_instrument::{analyse, instrument};
use jc_methods::Analysed;
use std::alloc::Global;
use tests_lines::{Answer, bytes};

/// The most bytes of a class file.
const MOST: usize = 1_000_000;

/// The bytes of a class file.
#[derive(Drop)]
pub struct ClassBytes {
    bytes: Vec<u8>,
    ghost few: { length bytes.items ≤ 1000000 },
}

impl ClassBytes {
    /// No bytes.
    pub fn new(alloc: Global) -> Self {
        ClassBytes {
            bytes: Vec::new(alloc),
        }
    }

    /// The bytes.
    pub fn as_slice(&self) -> &[u8]
        ensures { length result.now ≤ 1000000 }
    {
        &self.bytes
    }
}

/// Keeps the bytes that the words spell, and tells how many there are.
pub fn keep(alloc: Global, class: &mut ClassBytes, words: &[&str], out: &mut Answer) -> Option<()> {
    let bytes = bytes(alloc, words, out)?;
    out.show(&bytes.len());
    out.put(" bytes");
    *class = ClassBytes { bytes };
    Some(())
}

/// Keeps the class file with its probes, and tells how many there are.
pub fn keep_instrumented(alloc: Global, class: &mut ClassBytes, out: &mut Answer) -> Option<()> {
    let made = out.accepted(instrument(alloc, class.as_slice()))?;
    out.show(&made.probes);
    out.put(" probes");
    let bytes = made.bytes.into_vec();
    if bytes.len() > MOST {
        return out.unknown_word("again");
    }
    *class = ClassBytes { bytes };
    Some(())
}

/// Puts what a call on the class file answers.
pub fn answer(alloc: Global, bytes: &[u8], words: &[&str], out: &mut Answer) -> Option<()>
    requires { length bytes.now ≤ 1000000 }
{
    match words {
        ["analyse"] => put_analysed(alloc, bytes, out),
        ["instrument"] => put_instrumented(alloc, bytes, out),
        [call @ ("init" | "bootstrap" | "merge"), numbers @ ..] => attributes::answer(
            alloc, call, numbers, out,
        ),
        ["covered", _] | ["counters", _] | ["report", _, _] => {
            covering::answer(alloc, bytes, words, out)
        }
        [command, number, rest @ ..] => in_class(alloc, bytes, command, number, rest, out),
        words => out.unknown(words),
    }
}

/// Puts what a call on the pool or a method of the class file answers.
fn in_class(
    alloc: Global,
    bytes: &[u8],
    command: &str,
    word: &str,
    rest: &[&str],
    out: &mut Answer,
) -> Option<()>
    requires { length bytes.now ≤ 1000000 }
{
    if !methods::is_command(command) {
        return out.unknown_word(command);
    }
    let mut class = out.accepted(read_class(alloc, bytes))?;
    methods::answer(alloc, &mut class, command, word, rest, out)
}

/// Puts the name of the superclass, or a dash where there is none, and those of the interfaces.
fn put_supers(class: &Analysed, out: &mut Answer) {
    match &class.super_name {
        Some(name) => put_text(name, out),
        None => out.put("-"),
    }
    out.put("; interfaces");
    for name in &class.interfaces {
        out.put(" ");
        put_text(name, out);
    }
}

/// Puts the first id behind those of each body.
fn put_plans(class: &Analysed, out: &mut Answer) {
    out.label("; bodies ", &class.bodies.len());
    out.put("; next ids");
    for plan in &class.plans {
        out.label(" ", &plan.next);
    }
    out.label("; probes ", &class.probes);
}

/// Puts who the class is, its bodies and its probes.
fn put_analysed(alloc: Global, bytes: &[u8], out: &mut Answer) -> Option<()>
    requires { length bytes.now ≤ 1000000 }
{
    let class = out.accepted(analyse(alloc, bytes))?;
    put_text(&class.name, out);
    out.put("; id ");
    out.id(class.id);
    out.label("; version ", &class.version);
    out.put("; flags ");
    out.flags(class.flags);
    out.put("; superclass ");
    put_supers(&class, out);
    put_plans(&class, out);
    Some(())
}

/// Puts the class file with its probes, or as it was.
fn put_instrumented(alloc: Global, bytes: &[u8], out: &mut Answer) -> Option<()>
    requires { length bytes.now ≤ 1000000 }
{
    let made = out.accepted(instrument(alloc, bytes))?;
    out.put(if made.changed { "changed" } else { "unchanged" });
    out.put("; id ");
    out.id(made.id);
    out.label("; probes ", &made.probes);
    out.put("; name ");
    put_text(&made.name, out);
    out.put("; bytes ");
    put_bytes(&made.bytes, out);
    Some(())
}
