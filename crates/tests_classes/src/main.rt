//! Rows of calls on class files whose answers are known from the JVM Specification and from JaCoCo's documentation. Each
//! line of the standard input is a call, and is printed with its answer. Empty lines and lines that begin with `#` are
//! printed as they are.
#![tactic(auto)]

mod attributes;
mod classes;
mod codes;
mod covering;
mod emissions;
mod kept;
mod methods;
mod reports;
mod shown;
mod texts;
mod ways;

use kept::Kept;
use std::io;
use tests_lines::answer_lines;

fn main(rt: HostRuntime) -> io::Result<()> {
    let mut kept = Kept::new(rt.alloc());
    answer_lines(&rt, &mut kept)
}
