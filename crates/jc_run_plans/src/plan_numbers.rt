//! Numbers in a run plan.
ghost use Rattle.std.specs.Prelude.{◌≡◌, ◌≤◌, ◌+◌, ◌-◌, ◌*◌, true, Some, IfSome, pos, neg_ℤ};
ghost use Rattle.jc_bytes.specs.Digits.{is_digit};
ghost use Rattle.jc_run_plans.specs.PlanWords.{decimal_behind, decimal_up_to, signed_in, words_of, up_to};
ghost use Rattle.jc_run_plans.specs.PlanReading.{Gives};
ghost use Rattle.jc_run_plans.specs.Plans.{numbers_in, thread_number, turns_in, few_turns};

use crate::plan_words::next_word;
use jc_bytes::{Fail, List, Unfit, is_digit};
use std::alloc::Global;

/// The most turns of a schedule.
pub const MOST_TURNS: u64 = 1_000_000;

/// The greatest number of 64 bits with a sign.
const GREATEST: u64 = 9_223_372_036_854_775_807;

/// The number that is spelled with one more digit, if it has 64 bits.
fn with_digit(number: u64, digit: u8) -> Option<u64>
    requires digit { is_digit digit ≡ true }
    ensures gives { result ≡ up_to 18446744073709551615 (Some (number * 10 + (digit - 48))) }
    ensures bound { IfSome result (λ n. n ≤ 18446744073709551615) }
{
    match number.checked_mul(10) {
        Some(tens) => tens.checked_add(u64::from(digit - b'0')),
        None => None,
    }
}

/// The number that decimal digits spell behind those of this number, if it has 64 bits.
fn decimal_behind(number: u64, digits: &[u8]) -> Option<u64>
    ensures { result ≡ up_to 18446744073709551615 (decimal_behind number digits.now) }
{
    let mut read = number;
    let mut rest = digits;
    'digits: while let [digit, after @ ..] = rest {
        if !is_digit(*digit) {
            return None;
        }
        match with_digit(read, *digit) {
            Some(more) => read = more,
            None => return None,
        }
        rest = after;
    }
    Some(read)
}

/// The number that decimal digits spell, if it is at most so much.
#[tactic(auto, using(crate::proofs::PlanNumbersLaws::bounds))]
pub fn decimal_up_to(most: u64, word: &[u8]) -> Option<u64>
    ensures { result ≡ decimal_up_to most word.now }
{
    if word.is_empty() {
        return None;
    }
    match decimal_behind(0, word) {
        Some(number) => { if number <= most { Some(number) } else { None } }
        None => None,
    }
}

/// The negative of a number, if it has 64 bits.
fn negative(number: u64) -> i64
    requires { number ≤ 9223372036854775808 }
    ensures { result ≡ neg_ℤ (pos number) }
{
    if number == 0 {
        0
    } else {
        -((number - 1) as i64) - 1
    }
}

/// The number of 64 bits with a sign that a word spells.
fn signed(word: &[u8]) -> Option<i64>
    ensures { result ≡ signed_in word.now }
{
    match word {
        [b'-', digits @ ..] => match decimal_up_to(GREATEST + 1, digits) {
            Some(number) => Some(negative(number)),
            None => None,
        },
        _ => match decimal_up_to(GREATEST, word) {
            Some(number) => Some(number as i64),
            None => None,
        },
    }
}

/// The numbers of 64 bits with a sign that the words of a line spell.
pub fn numbers(alloc: Global, line: &[u8]) -> Result<List<i64>, Fail<Unfit>>
    ensures { Gives result (numbers_in (words_of line.now)) }
{
    let mut numbers = List::new(alloc);
    let mut rest = line;
    'words: while let Some((word, after)) = next_word(rest) {
        match signed(word) {
            Some(number) => numbers.push(number)?,
            None => return Err(Fail::Said(Unfit)),
        }
        rest = after;
    }
    Ok(numbers)
}

/// The number of one of so many threads.
fn thread_number(threads: usize, word: &[u8]) -> Option<u8>
    requires { threads ≤ 8 }
    ensures { result ≡ thread_number threads word.now }
{
    match decimal_up_to(7, word) {
        Some(number) => {
            if number < threads as u64 {
                Some(number as u8)
            } else {
                None
            }
        }
        None => None,
    }
}

/// The numbers of threads that the words of a line spell, if they are few enough.
pub fn turns(alloc: Global, threads: usize, line: &[u8]) -> Result<List<u8>, Fail<Unfit>>
    requires { threads ≤ 8 }
    ensures { Gives result (few_turns (turns_in threads (words_of line.now))) }
{
    let mut turns = List::new(alloc);
    let mut rest = line;
    'words: while let Some((word, after)) = next_word(rest) {
        if turns.len() >= MOST_TURNS as usize {
            return Err(Fail::Said(Unfit));
        }
        match thread_number(threads, word) {
            Some(thread) => turns.push(thread)?,
            None => return Err(Fail::Said(Unfit)),
        }
        rest = after;
    }
    Ok(turns)
}
