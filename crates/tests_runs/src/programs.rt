//! Programs as answers.
ghost use Rattle.std.specs.Prelude.{◌≤◌, All, IsTrue, length};

use jc_bytes::{Bytes, Fail};
use jc_link::{LinkRefusal, link};
use jc_programs::{Linked, ProbeInit, Program, StaticField};
use std::alloc::Global;
use tests_lines::{Answer, bytes};

/// The most bytes of a class file here.
const MOST: usize = 1_000_000;

/// Puts the probes of a class, if it has any.
fn put_probes(probes: Option<ProbeInit>, out: &mut Answer) {
    if let Some(init) = probes {
        out.label(" ", &init.count);
        out.put(" probes of ");
        out.id(init.id);
    }
}

/// Puts the static fields of a class.
fn put_statics(statics: &[StaticField], out: &mut Answer) {
    for field in statics {
        out.put(" ");
        out.name(&field.name);
        out.put(":");
        out.name(&field.desc);
        out.label("=", &field.first);
    }
}

/// Puts a class: its name, how many methods have code, whether it has an initialization method, its probes, its statics.
fn put_class(class: &Linked, out: &mut Answer) {
    out.name(&class.name);
    out.label(" ", &class.bodies.len());
    if class.has_clinit {
        out.put(" clinit");
    }
    put_probes(class.probes, out);
    put_statics(&class.statics, out);
}

/// Puts the classes of a program.
fn put_program(program: &Program, out: &mut Answer) {
    out.show(&program.classes.len());
    out.put(" classes");
    for class in &program.classes {
        out.put("; ");
        put_class(class, out);
    }
}

/// Puts two files, and what they have in common.
fn put_pair(first: u32, second: u32, common: &str, out: &mut Answer) {
    out.label("files ", &first);
    out.label(" and ", &second);
    out.put(common);
}

/// Puts why files have no program.
fn put_refusal(refusal: &LinkRefusal, out: &mut Answer) {
    match refusal {
        LinkRefusal::Class { index, refusal } => {
            out.label("file ", index);
            out.put(": ");
            out.reason(refusal);
        }
        LinkRefusal::SameName { first, second } => put_pair(*first, *second, ": one name", out),
        LinkRefusal::SameId { first, second } => put_pair(*first, *second, ": one id", out),
    }
}

/// Whether no file is longer than the longest one here.
fn are_short(files: &[Bytes]) -> bool
    ensures { IsTrue result → All (λ file. length file ≤ 1000000) files.now }
{
    files.iter().all(|file| file.len() <= MOST)
}

/// Puts the program of files, or why there is none.
fn put_linked(alloc: Global, files: &[Bytes], out: &mut Answer) -> Option<()> {
    if files.len() > MOST || !are_short(files) {
        return out.wrong("too long");
    }
    match link(alloc, files) {
        Ok(program) => put_program(&program, out),
        Err(Fail::Memory) => return out.lose(),
        Err(Fail::Said(refusal)) => put_refusal(&refusal, out),
    }
    Some(())
}

/// Puts the program of the class files that hexadecimal digits spell, or why there is none.
pub fn put_link(alloc: Global, words: &[&str], out: &mut Answer) -> Option<()> {
    let mut files = Vec::new(alloc);
    for word in words {
        let file = bytes(alloc, &[*word], out)?;
        let pushed = files.push(Bytes::from_vec(file));
        out.got(pushed)?;
    }
    put_linked(alloc, &files, out)
}
