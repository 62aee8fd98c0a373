//! Runs of the tool.

use crate::outcome::{put_lines, put_status};
use crate::recorder::Recorder;
use crate::setup::{Plan, Setup};
use jc_base::{Memory, MemorySink};
use jc_top::{OpenGate, Status, run_tool};
use std::alloc::{AllocError, Global};
use std::marker::Sync;
use std::thread::Threads;
use tests_lines::{Answer, WatchedFiles};

/// What a run reads and writes.
#[derive(Drop)]
struct Outside {
    files: WatchedFiles<Recorder>,
    out: MemorySink,
    err: MemorySink,
}

/// What a run reads and writes, as it is set up.
fn make_outside(alloc: Global, setup: &Setup) -> Result<Outside, Memory> {
    let out = MemorySink::new(alloc, &setup.plan.out)?;
    let err = MemorySink::new(alloc, &setup.plan.err)?;
    let files = WatchedFiles {
        inner: setup.for_a_run(alloc)?,
        writes: Recorder::new(alloc),
    };
    Ok(Outside { files, out, err })
}

/// The words as texts, where `''` stands for a word without a letter.
fn owned(alloc: Global, words: &[&str]) -> Result<Vec<String>, AllocError> {
    let mut owned = Vec::new(alloc);
    for word in words {
        let text = if *word == "''" { "" } else { *word };
        owned.push(String::from_str(alloc, text)?)?;
    }
    Ok(owned)
}

/// Runs the tool.
fn call(
    rt: &(impl Threads + Sync),
    alloc: Global,
    words: &[&str],
    outside: &mut Outside,
) -> Result<Status, AllocError> {
    let words = owned(alloc, words)?;
    Ok(run_tool(
        rt,
        alloc,
        &words,
        &mut outside.files,
        &mut outside.out,
        &mut outside.err,
        &OpenGate,
    ))
}

/// Puts the status, and in further lines the texts and the writes.
fn put_run(status: &Status, outside: &Outside, out: &mut Answer) {
    put_status(status, out);
    put_lines("out", outside.out.bytes(), out);
    put_lines("err", outside.err.bytes(), out);
    match outside.files.writes.lines.text() {
        Ok(lines) => out.put(lines),
        Err(_) => out.put("\nmemory"),
    }
}

/// Runs the tool on what is set up. What was planned to fail is planned for this run alone.
pub fn run(
    rt: &(impl Threads + Sync),
    alloc: Global,
    setup: &mut Setup,
    words: &[&str],
    out: &mut Answer,
) -> Option<()> {
    let mut outside = out.got(make_outside(alloc, setup))?;
    let status = out.got(call(rt, alloc, words, &mut outside))?;
    put_run(&status, &outside, out);
    setup.plan = Plan::new(alloc);
    let Outside { files, .. } = outside;
    setup.left = Some(files.inner);
    Some(())
}
