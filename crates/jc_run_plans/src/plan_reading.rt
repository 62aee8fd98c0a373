//! Reading a run plan.
ghost use Rattle.std.specs.Prelude.{◌≡◌, ◌≤◌, ◌⊎◌, ⊤, ◌∷◌, ℕ, None, Some, length, IfOk, IfErr, MatchResult};
ghost use Rattle.jc_bytes.specs.Reader.{most_read};
ghost use Rattle.jc_bytes.specs.Failing.{Said};
ghost use Rattle.jc_programs.specs.Turns.{IsRunPlan};
ghost use Rattle.jc_programs.specs.declared.run_plan.RunPlan.{RunPlan};
ghost use Rattle.jc_run_plans.specs.PlanWords.{is_comment, words_of};
ghost use Rattle.jc_run_plans.specs.PlanReading.{Gives, AreFew, IsRead, plan_read, ended, opening, in_case, with_thread, with_schedule, with_line, with_words};
ghost use Rattle.jc_run_plans.specs.Plans.{thread_by, IsPlanText, FirstUnfit};

use crate::PlanRefusal;
use crate::begun::Begun;
use crate::plan_lines::{schedule_of, thread_of};
use crate::plan_words::{has_no_word, next_line, next_word};
use jc_bytes::{Fail, List, Unfit};
use jc_programs::{Case, RunPlan, Schedule, ThreadLine};
use std::alloc::Global;

/// The most cases of a run plan.
const MOST_CASES: usize = 256;

/// The most threads of a case.
const MOST_THREADS: usize = 8;

/// What is begun with a line behind whole cases, from its first word and what stands behind that.
fn opened(alloc: Global, cases: List<Case>, word: &[u8], rest: &[u8]) -> Result<Begun, Fail<Unfit>>
    ensures gives { Gives result (opening cases (word.now ∷ words_of rest.now)) }
    ensures few { IfOk result (λ b. AreFew b.threads) }
{
    if word == b"case".as_slice() && has_no_word(rest) && cases.len() < MOST_CASES {
        Ok(Begun {
            cases,
            threads: Some(List::new(alloc)),
        })
    } else {
        Err(Fail::Said(Unfit))
    }
}

/// What is begun with one more thread.
fn with_thread(
    cases: List<Case>,
    threads: List<ThreadLine>,
    thread: ThreadLine,
) -> Result<Begun, Fail<Unfit>>
    ensures gives { Gives result (with_thread cases threads thread) }
    ensures few { IfOk result (λ b. AreFew b.threads) }
{
    if threads.len() >= MOST_THREADS {
        return Err(Fail::Said(Unfit));
    }
    let mut threads = threads;
    threads.push(thread)?;
    Ok(Begun {
        cases,
        threads: Some(threads),
    })
}

/// What is begun with one more whole case.
fn with_schedule(
    cases: List<Case>,
    threads: List<ThreadLine>,
    schedule: Schedule,
) -> Result<Begun, Fail<Unfit>>
    ensures gives { Gives result (with_schedule cases threads (Some schedule)) }
    ensures few { IfOk result (λ b. AreFew b.threads) }
{
    if threads.is_empty() {
        return Err(Fail::Said(Unfit));
    }
    let mut cases = cases;
    cases.push(Case { threads, schedule })?;
    Ok(Begun {
        cases,
        threads: None,
    })
}

/// What is begun with a line of a case, from its number, its first word and what stands behind that.
fn continued(
    alloc: Global,
    cases: List<Case>,
    threads: List<ThreadLine>,
    number: u32,
    word: &[u8],
    rest: &[u8],
) -> Result<Begun, Fail<Unfit>>
    requires { length threads ≤ 8 }
    ensures gives { Gives result (in_case cases threads (record { number = number; words = word.now ∷ words_of rest.now })
        (thread_by number (word.now ∷ words_of rest.now))) }
    ensures few { IfOk result (λ b. AreFew b.threads) }
{
    if word == b"thread".as_slice() {
        let thread = thread_of(alloc, number, rest)?;
        with_thread(cases, threads, thread)
    } else if word == b"schedule".as_slice() {
        let schedule = schedule_of(alloc, threads.len(), rest)?;
        with_schedule(cases, threads, schedule)
    } else {
        Err(Fail::Said(Unfit))
    }
}

/// Whether the word begins a comment.
fn is_comment(word: &[u8]) -> bool
    ensures { result ≡ is_comment word.now }
{
    matches!(word, [b'#', ..])
}

/// What is begun with a line of the text.
fn with_text(alloc: Global, begun: Begun, number: u32, line: &[u8]) -> Result<Begun, Fail<Unfit>>
    requires { AreFew begun.threads }
    ensures gives { Gives result (with_words begun number (words_of line.now)) }
    ensures few { IfOk result (λ b. AreFew b.threads) }
{
    let Some((word, rest)) = next_word(line) else {
        return Ok(begun);
    };
    if is_comment(word) {
        return Ok(begun);
    }
    let Begun { cases, threads } = begun;
    match threads {
        None => opened(alloc, cases, word, rest),
        Some(threads) => continued(alloc, cases, threads, number, word, rest),
    }
}

/// The run plan, behind the last line, by the number of the line that would follow.
fn ended(begun: Begun, number: u32) -> Result<RunPlan, Fail<PlanRefusal>>
    ensures { IsRead result (ended number begun) }
{
    let Begun { cases, threads } = begun;
    if threads.is_some() || cases.is_empty() {
        return Err(Fail::Said(PlanRefusal { line: number }));
    }
    Ok(RunPlan { cases })
}

/// The run plan, or the number of the first line that doesn't fit.
fn plan_read(alloc: Global, text: &[u8]) -> Result<RunPlan, Fail<PlanRefusal>>
    requires { length text.now ≤ most_read }
    ensures { IsRead result (plan_read text.now) }
{
    let mut begun = Begun {
        cases: List::new(alloc),
        threads: None,
    };
    let mut number = 1;
    let mut rest = text;
    'lines: while let Some((line, after)) = next_line(rest) {
        begun = match with_text(alloc, begun, number, line) {
            Ok(begun) => begun,
            Err(Fail::Memory) => return Err(Fail::Memory),
            Err(Fail::Said(Unfit)) => return Err(Fail::Said(PlanRefusal { line: number })),
        };
        number += 1;
        rest = after;
    }
    ended(begun, number)
}

/// The run plan that a text is.
///
/// Lines end with LF, and the last may lack it; a CR before the LF is dropped. A line without a word, and one whose
/// first word begins with `#`, is skipped. Words are parted by one or more spaces. A run plan is 1 to 256 cases: each is
/// the line `case`, then 1 to 8 lines `thread Class.method number..`, then one line `schedule list t t ..`,
/// `schedule robin n` or `schedule seed s n`.
///
/// Dots and `/` part the name of the class, and the method stands behind the last dot; there is a dot, and neither is
/// empty. Each t is the number of a thread of the case, from 0. n, and the number of t, is at most 1,000,000. Numbers
/// are one or more decimal digits, also with zeros in front: those of a thread are numbers of 64 bits with a sign, `-`
/// in front of a negative one, and s is one of 64 bits without a sign.
///
/// # Errors
///
/// `Memory` where memory was refused. Else `Said`, with the first line that doesn't fit: the lines before it begin a
/// run plan, and with it they don't. Where all lines begin a run plan and aren't one, it is the line behind the last.
pub fn read_plan(alloc: Global, text: &[u8]) -> Result<RunPlan, Fail<PlanRefusal>>
    requires size { length text.now ≤ most_read }
    // What is answered is so.
    ensures plan { IfOk result (IsPlanText text.now) }
    ensures fits { IfOk result IsRunPlan }
    ensures refused { IfErr result (λ e. Said e (λ r. FirstUnfit text.now r.line)) }
    // What is so is answered, unless memory runs out.
    ensures accepted { (p : RunPlan) → IsPlanText text.now p → MatchResult result (λ q. q ≡ p) (λ e. e ≡ Fail.Memory) }
    ensures reason { (line : ℕ) → FirstUnfit text.now line
        → MatchResult result (λ _. ⊥) (λ e. (e ≡ Fail.Memory) ⊎ Said e (λ r. r.line ≡ line)) }
{
    plan_read(alloc, text)
}
