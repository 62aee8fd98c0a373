//! The commands `run` and `cover` on workers.

use crate::hold::Hold;
use crate::work::{class_file, plan_text};
use jc_base::{MemoryFiles, MemorySink};
use jc_top::{Status, run_tool};
use std::alloc::{AllocError, Global};
use std::marker::Sync;
use std::test::Fail;
use std::thread::Threads;

/// Words, which spaces part.
fn words(alloc: Global, line: &str) -> Result<Vec<String>, AllocError> {
    let mut words = Vec::new(alloc);
    for word in line.split_whitespace() {
        words.push(String::from_str(alloc, word)?)?;
    }
    Ok(words)
}

/// The class and the run plan of forty cases, in files.
pub fn forty_files(alloc: Global) -> Result<MemoryFiles, Fail> {
    let mut files = MemoryFiles::new(alloc, &[])?;
    files.with(alloc, "C.class", &class_file(alloc)?)?;
    files.with(alloc, "p.txt", plan_text(alloc)?.as_bytes())?;
    Ok(files)
}

/// Runs a command over files, and answers whether it was done.
pub fn is_done<R: Threads + Sync>(
    rt: &R,
    alloc: Global,
    files: &mut MemoryFiles,
    gate: &Hold,
    line: &str,
) -> Result<bool, Fail> {
    let mut out = MemorySink::new(alloc, &[])?;
    let mut err = MemorySink::new(alloc, &[])?;
    let words = words(alloc, line)?;
    let status = run_tool(rt, alloc, &words, files, &mut out, &mut err, gate);
    Ok(matches!(status, Status::Done))
}

/// Runs a command over the class and the run plan of forty cases, and answers whether it was done.
fn is_done_on_forty<R: Threads + Sync>(
    rt: &R,
    alloc: Global,
    gate: &Hold,
    line: &str,
) -> Result<bool, Fail> {
    let mut files = forty_files(alloc)?;
    is_done(rt, alloc, &mut files, gate, line)
}

/// Whether each of the forty cases passed once, the first behind all others.
pub fn held_first(gate: &Hold) -> bool {
    gate.each_once() && !gate.gave_up() && gate.passed_before() == 39
}

// What the words leave is the same on each number of workers. That there are so many shows only where one is held.
#[test]
fn run_has_as_many_workers_as_its_words_say(rt: HostRuntime) -> Result<(), Fail> {
    let line = "run --plan p.txt --destfile o --workers 2 C.class";
    let gate = Hold::until(rt.alloc(), 40, 39)?;
    assert!(rt; is_done_on_forty(&rt, rt.alloc(), &gate, line)?);
    assert!(rt; held_first(&gate));
    Ok(())
}

#[test]
fn cover_has_as_many_workers_as_its_words_say(rt: HostRuntime) -> Result<(), Fail> {
    let line = "cover --dest out --plan p.txt --destfile o --csv r --workers 2 C.class";
    let gate = Hold::until(rt.alloc(), 40, 39)?;
    assert!(rt; is_done_on_forty(&rt, rt.alloc(), &gate, line)?);
    assert!(rt; held_first(&gate));
    Ok(())
}
