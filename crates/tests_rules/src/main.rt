//! Rows of calls on lines, totals and rules whose answers are known from JaCoCo's documentation on coverage counters. Each
//! line of the standard input is a call, and is printed with its answer. Empty lines and lines that begin with `#` are
//! printed as they are.
#![tactic(auto)]

mod adding;
mod kept;
mod lines;
mod rules;
mod slow;

use kept::Kept;
use std::io;
use tests_lines::answer_lines;

fn main(rt: HostRuntime) -> io::Result<()> {
    let mut kept = Kept::new(rt.alloc());
    answer_lines(&rt, &mut kept)
}
