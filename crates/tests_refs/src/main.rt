//! Rows of calls of the reference check whose answers are known from its rules and the JVM Specification.
//!
//! Each line of the standard input is a call, and is printed with its answer: `refs HEX ..` links class files, and answers `ok` or the
//! first instruction at which a reference doesn't suit. Empty lines, and those that begin with `#`, are printed as they are.
#![tactic(auto)]

mod calls;

use calls::Stateless;
use std::io;
use tests_lines::answer_lines;

fn main(rt: HostRuntime) -> io::Result<()> {
    answer_lines(&rt, &mut Stateless)
}
