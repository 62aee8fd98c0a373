//! Lists of words whose command is known from the form of the command line.
//!
//! Each line of the standard input is a command line, and is printed with the command that it calls, or with `Usage`.
//! Behind `jcov` stand the words: `''` is the empty word, and `_` is a space. Empty lines, and lines that begin with `#`,
//! are printed as they are.
#![tactic(auto)]

mod command_lines;
mod shown;
mod spelled;

use command_lines::CommandLines;
use std::io;
use tests_lines::answer_lines;

fn main(rt: HostRuntime) -> io::Result<()> {
    answer_lines(&rt, &mut CommandLines)
}
