//! Rows of calls of the machine whose answers are known from its rules and the JVM Specification.
//!
//! Each line of the standard input is a call, and is printed with its answer: `only HEX` and `also HEX` keep class files,
//! alone or behind those that are kept, and answer how many there are; `run PLAN` answers the text of the run plan's cases over
//! them, and `hits PLAN` which probes they hit; `monitors PLAN` and `monitor-hits PLAN` answer the same of threads that take
//! locks. The words of a run plan spell its text, one behind the other: `|` is LF, `_` is a space, and `3*x` is three times
//! `x`. A text is answered with `|` for each LF. Empty lines, and those that begin with `#`, are printed as they are.
#![tactic(auto)]

mod calls;
mod cases;
mod monitor_cases;
mod shown;

use calls::ClassFiles;
use std::io;
use tests_lines::answer_lines;

fn main(rt: HostRuntime) -> io::Result<()> {
    let mut files = ClassFiles::new(rt.alloc());
    answer_lines(&rt, &mut files)
}
