//! Work that is shared among threads.
ghost use Rattle.std.specs.Prelude.{◌≡◌, ◌<◌, IfOk, length, map, Ok};
ghost use Rattle.std.specs.List.{AllZip, flat_map};
ghost use Rattle.std.specs.Fn.{FnReturnsAt};
ghost use Rattle.jc_command_classes.specs.Each.{TakesEach};

use jc_bytes::{Bytes, Memory};
use std::alloc::Global;
use std::marker::{Send, Sync};
use std::thread;
use std::thread::Threads;

/// So many processors are counted at most, since each run may start a thread.
const MOST_PROCESSORS: usize = 32;

/// How many files a run has, so that there are at most two runs for each processor.
fn run_length(rt: &impl Threads, files: usize) -> usize
    ensures { 0 < result }
{
    let processors = match thread::available_parallelism(rt) {
        Ok(count) => count.get().min(MOST_PROCESSORS),
        Err(_) => 1,
    };
    files.div_ceil(2 * processors).max(1)
}

/// What a function answers to each file of a run, in order.
fn run_answers<X: Drop, F: Fn(&Bytes) -> X>(
    alloc: Global,
    run: &[Bytes],
    answer: &F,
) -> Result<Vec<X>, Memory>
    requires { TakesEach (F.pre answer.now) run.now }
    ensures { IfOk result (λ answers. AllZip (FnReturnsAt F.Fn answer.now) run.now answers.items) }
{
    let mut answers = Vec::with_capacity(alloc, run.len())?;
    'answering: for bytes in run {
        answers.push(answer(bytes))?;
    }
    Ok(answers)
}

/// What each result holds, in order, where none is Memory.
pub fn all_made<X: Drop>(alloc: Global, results: Vec<Result<X, Memory>>) -> Result<Vec<X>, Memory>
    ensures { IfOk result (λ made. results.items ≡ map Ok made.items) }
{
    let mut made = Vec::with_capacity(alloc, results.len())?;
    'taking: for result in results {
        made.push(result?)?;
    }
    Ok(made)
}

/// The answers of the runs, one run behind the other.
fn joined<X: Drop>(alloc: Global, runs: Vec<Vec<X>>) -> Result<Vec<X>, Memory>
    ensures { IfOk result (λ answers. answers.items ≡ flat_map (λ run. run.items) runs.items) }
{
    let mut answers = Vec::new(alloc);
    'joining: for mut run in runs {
        answers.append(&mut run)?;
    }
    Ok(answers)
}

/// What a function answers to each file, in order. Files that stand beside each other are a run, and each run has a thread of
/// its own where one can be started.
pub fn each_answer<R: Threads + Sync, X: Send + Drop, F: Fn(&Bytes) -> X + Sync>(
    rt: &R,
    alloc: Global,
    files: &[Bytes],
    answer: &F,
) -> Result<Vec<X>, Memory>
    requires { TakesEach (F.pre answer.now) files.now }
    ensures each { IfOk result (λ answers. AllZip (FnReturnsAt F.Fn answer.now) files.now answers.items) }
    ensures len { IfOk result (λ answers. length answers.items ≡ length files.now) }
{
    let size = run_length(rt, files.len());
    let answer_run = move |_: usize, run: &[Bytes]| -> Result<Vec<X>, Memory>
        requires { TakesEach (F.pre answer.now) run.now }
        ensures { IfOk result (λ answers. AllZip (FnReturnsAt F.Fn answer.entry.now) run.entry.now answers.items) }
    { run_answers(alloc, run, answer) };
    let runs = thread::map_chunks(rt, alloc, files, size, &answer_run)?;
    joined(alloc, all_made(alloc, runs)?)
}
