//! Values that are equal.

use crate::kinds::{kind, state};
use crate::uses::{use_of, what};
use std::alloc::Global;
use tests_lines::Answer;

/// Whether two types are one.
fn kinds(first: &str, second: &str, out: &mut Answer) -> Option<()> {
    let first = kind(first, out)?;
    let second = kind(second, out)?;
    out.answer(&first.is_same(second))
}

/// Whether two states are equal.
fn states(alloc: Global, first: &str, second: &str, out: &mut Answer) -> Option<()> {
    let first = state(alloc, first, out)?;
    let second = state(alloc, second, out)?;
    out.answer(&first.is_same(&second))
}

/// Whether the same stands at two places.
fn whats(alloc: Global, first: &str, second: &str, out: &mut Answer) -> Option<()> {
    let first = what(alloc, first, out)?;
    let second = what(alloc, second, out)?;
    out.answer(&first.is_same(&second))
}

/// Whether two uses are equal.
fn uses(alloc: Global, first: &str, second: &str, out: &mut Answer) -> Option<()> {
    let first = use_of(alloc, first, out)?;
    let second = use_of(alloc, second, out)?;
    out.answer(&first.is_same(&second))
}

/// What a call answers.
pub fn answer(alloc: Global, words: &[&str], out: &mut Answer) -> Option<()> {
    match words {
        ["kind", first, second] => kinds(first, second, out),
        ["state", first, second] => states(alloc, first, second, out),
        ["what", first, second] => whats(alloc, first, second, out),
        ["use", first, second] => uses(alloc, first, second, out),
        words => out.unknown(words),
    }
}
