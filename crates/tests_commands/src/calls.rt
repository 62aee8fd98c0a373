//! The calls.

use crate::setup::Setup;
use crate::{asked, input, run, shown};
use std::alloc::Global;
use std::marker::Sync;
use std::thread::Threads;
use tests_lines::Answer;

/// Puts what the call of a line answers, whose words these are, by what lines before it set up. `None` says that the answer
/// is why there is no other.
pub fn answer(
    rt: &(impl Threads + Sync),
    alloc: Global,
    setup: &mut Setup,
    words: &[&str],
    out: &mut Answer,
) -> Option<()> {
    match words {
        ["run", words @ ..] => run::run(rt, alloc, setup, words, out),
        ["show" | "text" | "compare" | "keep" | "keep-each", ..] => shown::answer(
            alloc, setup, words, out,
        ),
        ["list" | "part", ..] => asked::answer(alloc, setup, words, out),
        words => input::answer(alloc, setup, words, out),
    }
}
