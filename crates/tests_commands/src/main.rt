//! Runs of the tool whose outcomes are known. Each line of the standard input places files, plans a fault, runs a command
//! or asks for what a run left, and is printed with its answer. Empty lines, and those that begin with `#`, are printed as
//! they are.
#![tactic(auto)]

mod asked;
mod calls;
mod input;
mod outcome;
mod recorder;
mod run;
mod setup;
mod shown;
mod texts;

use calls::answer;
use setup::Setup;
use std::alloc::{AllocError, Global};
use std::io;
use std::marker::Sync;
use std::thread::Threads;
use tests_lines::Answer;

/// The answer to a line. The calls want a runtime that starts threads, so the loop over the lines stands here.
fn answered(
    rt: &(impl Threads + Sync),
    alloc: Global,
    setup: &mut Setup,
    line: &str,
) -> Result<Answer, AllocError> {
    let words: Vec<&str> = line.split_whitespace().collect(alloc)?;
    let mut out = Answer::new(alloc);
    answer(rt, alloc, setup, &words, &mut out);
    Ok(out)
}

fn main(rt: HostRuntime) -> io::Result<()> {
    let alloc = rt.alloc();
    let mut setup = Setup::new(alloc);
    for line in rt.lines(alloc) {
        let line = line?;
        if line.is_empty() || line.starts_with("#") {
            println!(rt; "{line}")?;
        } else {
            let answer = answered(&rt, alloc, &mut setup, line.as_str())?;
            let text = answer.text()?;
            println!(rt; "{line} = {text}")?;
        }
    }
    Ok(())
}
