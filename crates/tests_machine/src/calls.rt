//! Calls on the class files that lines keep.
ghost use Rattle.std.specs.Prelude.{◌≤◌, length, All, IsTrue, IfSome};
ghost use Rattle.jc_machine_model.specs.Programs.{IsProgram};
ghost use Rattle.jc_programs.specs.Turns.{IsRunPlan};

use crate::cases::{NoEntry, counts, run_cases};
use crate::monitor_cases::run_monitor_cases;
use crate::shown::{put_hits, put_text};
use jc_bytes::{Bytes, Fail};
use jc_link::{LinkRefusal, PlanRefusal, link, read_plan};
use jc_machine::BitSink;
use jc_programs::{Program, RunPlan};
use std::alloc::Global;
use tests_lines::{Answer, Calls, bytes, lines};

/// The most bytes of a class file here, and the most files.
const MOST: usize = 1_000_000;

/// What a line asks for of a run plan.
#[derive(Clone, Copy)]
struct Asked {
    /// Whether its threads take locks.
    has_locks: bool,
    /// Whether it asks for the text of the cases, and not for their hits.
    is_text: bool,
}

/// The class files that lines keep.
#[derive(Drop)]
pub struct ClassFiles {
    files: Vec<Bytes>,
}

impl ClassFiles {
    /// No files.
    pub fn new(alloc: Global) -> ClassFiles {
        ClassFiles {
            files: Vec::new(alloc),
        }
    }

    /// Keeps the file that the digits spell behind the others, and puts how many there are.
    fn keep(&mut self, alloc: Global, digits: &str, out: &mut Answer) -> Option<()> {
        let file = bytes(alloc, &[digits], out)?;
        let pushed = self.files.push(Bytes::from_vec(file));
        out.got(pushed)?;
        out.answer(&self.files.len())
    }
}

/// What the name of a call on a run plan asks for.
fn asked_by(name: &str) -> Option<Asked> {
    let (has_locks, is_text) = match name {
        "run" => (false, true),
        "hits" => (false, false),
        "monitors" => (true, true),
        "monitor-hits" => (true, false),
        _ => return None,
    };
    Some(Asked { has_locks, is_text })
}

impl Calls for ClassFiles {
    fn answer(&mut self, alloc: Global, words: &[&str], out: &mut Answer) -> Option<()> {
        match words {
            ["only", digits] => {
                self.files.clear();
                self.keep(alloc, digits, out)
            }
            ["also", digits] => self.keep(alloc, digits, out),
            [name, words @ ..] => match asked_by(name) {
                Some(asked) => run(alloc, &self.files, words, asked, out),
                None => out.wrong("no call"),
            },
            [] => out.wrong("no call"),
        }
    }
}

/// Whether no file is longer than the longest one here.
fn are_short(files: &[Bytes]) -> bool
    ensures { IsTrue result → All (λ file. length file ≤ 1000000) files.now }
{
    files.iter().all(|file| file.len() <= MOST)
}

/// Puts why files aren't linked.
fn put_refusal(refusal: LinkRefusal, out: &mut Answer) {
    match refusal {
        LinkRefusal::Class { index, refusal: _ } => out.label("class ", &index),
        LinkRefusal::SameName { first, second } => {
            out.label("same name ", &first);
            out.label(" ", &second);
        }
        LinkRefusal::SameId { first, second } => {
            out.label("same id ", &first);
            out.label(" ", &second);
        }
    }
}

/// The program of the files, unless there is none: then puts why.
fn linked(alloc: Global, files: &[Bytes], out: &mut Answer) -> Option<Program>
    ensures { IfSome result IsProgram }
{
    if files.len() > MOST || !are_short(files) {
        return out.wrong("too long");
    }
    match link(alloc, files) {
        Ok(program) => Some(program),
        Err(Fail::Said(refusal)) => {
            put_refusal(refusal, out);
            None
        }
        Err(Fail::Memory) => out.lose(),
    }
}

/// The plan whose text the words spell, unless it is none: then puts where.
fn planned(alloc: Global, words: &[&str], out: &mut Answer) -> Option<RunPlan>
    ensures { IfSome result IsRunPlan }
{
    let text = lines(alloc, words, out)?;
    match read_plan(alloc, &text) {
        Ok(plan) => Some(plan),
        Err(Fail::Said(PlanRefusal { line })) => {
            out.label("bad plan in line ", &line);
            None
        }
        Err(Fail::Memory) => out.lose(),
    }
}

/// Runs the cases of a run plan over a program, and puts their text, or which probes they hit.
fn run_plan(
    alloc: Global,
    program: &Program,
    plan: &RunPlan,
    asked: Asked,
    out: &mut Answer,
) -> Option<()>
    requires program { IsProgram program.now }
    requires plan { IsRunPlan plan.now }
{
    let counts = out.got(counts(alloc, program))?;
    let mut sink = out.got(BitSink::new(alloc, &counts))?;
    let mut text = String::new(alloc);
    let ran = if asked.has_locks {
        run_monitor_cases(alloc, program, plan, &mut sink, &mut text)
    } else {
        run_cases(alloc, program, plan, &mut sink, &mut text)
    };
    match ran {
        Ok(()) if asked.is_text => put_text(&text, out),
        Ok(()) => put_hits(program, &counts, sink.bits(), out),
        Err(Fail::Said(NoEntry { line })) => out.label("no entry in line ", &line),
        Err(Fail::Memory) => return out.lose(),
    }
    Some(())
}

/// Runs the cases of the run plan that the words spell over the files, and puts their text, or which probes they hit.
fn run(
    alloc: Global,
    files: &[Bytes],
    words: &[&str],
    asked: Asked,
    out: &mut Answer,
) -> Option<()> {
    let plan = planned(alloc, words, out)?;
    let program = linked(alloc, files, out)?;
    run_plan(alloc, &program, &plan, asked, out)
}
