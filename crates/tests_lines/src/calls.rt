//! The loop over the lines of the standard input.

use crate::answer::Answer;
use std::alloc::Global;
use std::io;

/// The calls of a program, and what lines make for the lines behind them.
pub trait Calls {
    /// Puts what the call of a line answers, whose words these are. `None` says that the answer is why there is no
    /// other.
    fn answer(&mut self, alloc: Global, words: &[&str], out: &mut Answer) -> Option<()>;
}

/// Prints a line, with its answer if it is a call.
fn print_row<C: Calls>(
    rt: &(impl Print + AllocGlobal),
    calls: &mut C,
    line: &str,
) -> io::Result<()> {
    if line.is_empty() || line.starts_with("#") {
        return println!(rt; "{line}");
    }
    let words: Vec<&str> = line.split_whitespace().collect(rt.alloc())?;
    let mut answer = Answer::new(rt.alloc());
    calls.answer(rt.alloc(), &words, &mut answer);
    let text = answer.text()?;
    println!(rt; "{line} = {text}")
}

/// Prints each line of the standard input, with its answer if it is a call. Empty lines, and lines that begin with `#`,
/// are printed as they are.
pub fn answer_lines<C: Calls>(
    rt: &(impl Input + Print + AllocGlobal),
    calls: &mut C,
) -> io::Result<()> {
    for line in rt.lines(rt.alloc()) {
        print_row(rt, calls, line?.as_str())?;
    }
    Ok(())
}
