//! Rows of calls of the crates that read the bodies of methods, check their types and place their probes, whose answers
//! are known from the JVM Specification and from JaCoCo. Each line of the standard input is a call, and is printed with
//! its answer. Empty lines and lines that begin with `#` are printed as they are.
#![tactic(auto)]

mod bodies;
mod insns;
mod kept;
mod kinds;
mod mnemonic;
mod plans;
mod states;
mod tables;

use kept::Kept;
use std::io;
use tests_lines::answer_lines;

fn main(rt: HostRuntime) -> io::Result<()> {
    let mut kept = Kept::new(rt.alloc());
    answer_lines(&rt, &mut kept)
}
