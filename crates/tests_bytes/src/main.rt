//! Rows of calls on bytes whose answers are known from the JVM Specification and from JaCoCo's format.
//!
//! Each line of the standard input is a call, and is printed with its answer: a group, the name of the call, and
//! its values. Some calls make a value that the lines behind them are about. Empty lines, and lines that begin
//! with `#`, are printed as they are.
#![tactic(auto)]

mod bootstraps;
mod classes;
mod codes;
mod copies;
mod descriptors;
mod feeds;
mod files;
mod insns;
mod kept;
mod kinds;
mod lists;
mod names;
mod pools;
mod readers;
mod same;
mod stores;
mod texts;
mod uses;

use kept::Kept;
use std::io;
use tests_lines::answer_lines;

fn main(rt: HostRuntime) -> io::Result<()> {
    let mut kept = Kept::new(rt.alloc());
    answer_lines(&rt, &mut kept)
}
