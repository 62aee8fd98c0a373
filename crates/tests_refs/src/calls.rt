//! Calls on class files.
ghost use Rattle.std.specs.Prelude.{◌≡◌, ◌≤◌, length, All, IsTrue, IfSome};
ghost use Rattle.jc_machine_model.specs.Programs.{IsProgram};

use jc_bytes::{Bytes, Fail};
use jc_link::{LinkRefusal, link};
use jc_programs::Program;
use jc_refs_check::check_refs;
use std::alloc::Global;
use tests_lines::{Answer, Calls, bytes};

/// The most bytes of a class file here, and the most files.
const MOST: usize = 1_000_000;

/// No call keeps anything.
#[derive(Drop)]
pub struct Stateless;

impl Calls for Stateless {
    fn answer(&mut self, alloc: Global, words: &[&str], out: &mut Answer) -> Option<()> {
        match words {
            ["refs", files @ ..] => refs(alloc, files, out),
            _ => out.wrong("no call"),
        }
    }
}

/// The class files that digits spell.
fn files_of(alloc: Global, words: &[&str], out: &mut Answer) -> Option<Vec<Bytes>> {
    let mut files = Vec::new(alloc);
    'reading: for digits in words {
        let file = bytes(alloc, &[*digits], out)?;
        let pushed = files.push(Bytes::from_vec(file));
        out.got(pushed)?;
    }
    Some(files)
}

/// Whether no file is longer than the longest one here.
fn are_short(files: &[Bytes]) -> bool
    ensures { IsTrue result → All (λ file. length file ≤ 1000000) files.now }
{
    files.iter().all(|file| file.len() <= MOST)
}

/// Puts why files aren't linked.
fn put_refusal(refusal: LinkRefusal, out: &mut Answer) {
    match refusal {
        LinkRefusal::Class { index, refusal: _ } => out.label("class ", &index),
        LinkRefusal::SameName { first, second } => {
            out.label("same name ", &first);
            out.label(" ", &second);
        }
        LinkRefusal::SameId { first, second } => {
            out.label("same id ", &first);
            out.label(" ", &second);
        }
    }
}

/// The program of the files, unless there is none: then puts why.
fn linked(alloc: Global, files: &[Bytes], out: &mut Answer) -> Option<Program>
    ensures { IfSome result IsProgram }
{
    if files.len() > MOST || !are_short(files) {
        return out.wrong("too long");
    }
    match link(alloc, files) {
        Ok(program) => Some(program),
        Err(Fail::Said(refusal)) => {
            put_refusal(refusal, out);
            None
        }
        Err(Fail::Memory) => out.lose(),
    }
}

/// Checks the program of the files that digits spell, and puts the answer.
fn refs(alloc: Global, words: &[&str], out: &mut Answer) -> Option<()> {
    let files = files_of(alloc, words, out)?;
    let program = linked(alloc, &files, out)?;
    match check_refs(alloc, &program) {
        Ok(()) => out.put("ok"),
        Err(Fail::Said(refusal)) => {
            out.label("class ", &refusal.class);
            out.label(" method ", &refusal.method);
            out.label(" at ", &refusal.at);
        }
        Err(Fail::Memory) => return out.lose(),
    }
    Some(())
}
