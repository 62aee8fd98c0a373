//! The lines of threads and of schedules.
ghost use Rattle.std.specs.Prelude.{◌≡◌, ◌≤◌, [], IfOk, MatchOption};
ghost use Rattle.std.specs.List.{before_last, after_last};
ghost use Rattle.jc_run_plans.specs.PlanWords.{is_some_text, decimal_up_to, words_of};
ghost use Rattle.jc_run_plans.specs.PlanReading.{Gives};
ghost use Rattle.jc_run_plans.specs.Plans.{is_dot, named_in, with_slashes, thread_of, schedule_of, robin_in, seed_in};

use crate::plan_numbers::{MOST_TURNS, decimal_up_to, numbers, turns};
use crate::plan_words::{has_no_word, next_word};
use jc_bytes::{Bytes, Fail, List, Memory, Unfit};
use jc_programs::{Schedule, ThreadLine};
use std::alloc::Global;

/// What stands in front of the last dot, and behind it.
fn cut_at_last_dot(name: &[u8]) -> Option<(&[u8], &[u8])>
    ensures { MatchOption result (before_last is_dot name.now ≡ [])
        (λ cut. (cut.0.now ≡ before_last is_dot name.now) × (cut.1.now ≡ after_last is_dot name.now)) }
{
    match name.iter().rposition(|b| *b == b'.') {
        Some(place) => Some((&name[..place], &name[place + 1..])),
        None => None,
    }
}

/// The text with `/` for each dot.
fn with_slashes(alloc: Global, text: &[u8]) -> Result<Bytes, Memory>
    ensures { IfOk result (λ made. made ≡ with_slashes text.now) }
{
    let made = text.iter().map(|b| if *b == b'.' { b'/' } else { *b });
    Ok(List::from_vec(made.collect(alloc)?))
}

/// Whether there is a byte.
fn is_some_text(text: &[u8]) -> bool
    ensures { result ≡ is_some_text text.now }
{
    match text {
        [] => false,
        _ => true,
    }
}

/// The class and the method that the word behind `thread` names, the class as it stands there.
#[tactic(auto, unfolding(crate::specs::Plans::named_in))]
fn named(name: &[u8]) -> Option<(&[u8], &[u8])>
    ensures { MatchOption result (named_in name.now ≡ None)
        (λ cut. named_in name.now ≡ Some (record { class = with_slashes cut.0.now; method = cut.1.now })) }
{
    match cut_at_last_dot(name) {
        Some((class, method)) => {
            if is_some_text(class) && is_some_text(method) {
                Some((class, method))
            } else {
                None
            }
        }
        None => None,
    }
}

/// The line of a thread, from its number and what stands behind the word `thread`.
pub fn thread_of(alloc: Global, number: u32, words: &[u8]) -> Result<ThreadLine, Fail<Unfit>>
    ensures { Gives result (thread_of number (words_of words.now)) }
{
    let Some((name, rest)) = next_word(words) else {
        return Err(Fail::Said(Unfit));
    };
    let Some((class, method)) = named(name) else {
        return Err(Fail::Said(Unfit));
    };
    let args = numbers(alloc, rest)?;
    Ok(ThreadLine {
        class: with_slashes(alloc, class)?,
        method: Bytes::copy_of(alloc, method)?,
        args,
        line: number,
    })
}

/// The schedule `robin`, from what stands behind that word.
fn robin(words: &[u8]) -> Option<Schedule>
    ensures { result ≡ robin_in (words_of words.now) }
{
    let (word, rest) = next_word(words)?;
    if !has_no_word(rest) {
        return None;
    }
    match decimal_up_to(MOST_TURNS, word) {
        Some(turns) => Some(Schedule::Robin(turns as u32)),
        None => None,
    }
}

/// The schedule `seed`, from what stands behind that word.
fn seed(words: &[u8]) -> Option<Schedule>
    ensures { result ≡ seed_in (words_of words.now) }
{
    let (first, rest) = next_word(words)?;
    let (second, rest) = next_word(rest)?;
    if !has_no_word(rest) {
        return None;
    }
    let seed = decimal_up_to(u64::MAX, first)?;
    let turns = decimal_up_to(MOST_TURNS, second)?;
    Some(Schedule::Seeded {
        seed,
        turns: turns as u32,
    })
}

/// The schedule of so many threads, from what stands behind the word `schedule`.
pub fn schedule_of(alloc: Global, threads: usize, words: &[u8]) -> Result<Schedule, Fail<Unfit>>
    requires { threads ≤ 8 }
    ensures { Gives result (schedule_of threads (words_of words.now)) }
{
    let Some((how, rest)) = next_word(words) else {
        return Err(Fail::Said(Unfit));
    };
    if how == b"list".as_slice() {
        return Ok(Schedule::Listed(turns(alloc, threads, rest)?));
    }
    let read = if how == b"robin".as_slice() {
        robin(rest)
    } else if how == b"seed".as_slice() {
        seed(rest)
    } else {
        None
    };
    read.ok_or(Fail::Said(Unfit))
}
