//! The line of a rule.
ghost use Rattle.std.specs.Prelude.{◌≡◌, ◌+◌, string_bytes, IfOk};
ghost use Rattle.jc_rules.specs.Rules.{total_for};
ghost use Rattle.jc_command_rules.specs.CheckAnswers.{counter_word, verdict_word, rule_text};

use jc_rules::{CounterKind, Total, Totals};
use std::alloc::{AllocError, Global};

fn counter_word(counter: CounterKind) -> &'static str
    ensures { result.now ≡ counter_word counter }
{
    match counter {
        CounterKind::Instruction => "instruction",
        CounterKind::Branch => "branch",
        CounterKind::Line => "line",
        CounterKind::Complexity => "complexity",
        CounterKind::Method => "method",
        CounterKind::Class => "class",
    }
}

fn verdict_word(holds: bool) -> &'static str
    ensures { result.now ≡ verdict_word holds }
{
    if holds { "ok" } else { "below" }
}

/// The total of what is counted.
pub fn total_for(totals: &Totals, counter: CounterKind) -> Total
    ensures { result ≡ total_for counter totals.now }
{
    match counter {
        CounterKind::Instruction => totals.instruction,
        CounterKind::Branch => totals.branch,
        CounterKind::Line => totals.line,
        CounterKind::Complexity => totals.complexity,
        CounterKind::Method => totals.method,
        CounterKind::Class => totals.class,
    }
}

/// How many items there are.
fn items(total: Total) -> u128
    ensures { result ≡ total.missed + total.covered }
{
    u128::from(total.missed) + u128::from(total.covered)
}

/// The line of a rule: what it counts, how many of these items are covered and of how many, and whether it holds.
pub fn rule_text(
    alloc: Global,
    counter: CounterKind,
    total: Total,
    holds: bool,
) -> Result<String, AllocError>
    ensures { IfOk result (λ line. string_bytes line ≡ rule_text counter total holds) }
{
    let counter = counter_word(counter);
    let covered = total.covered;
    let all = items(total);
    let verdict = verdict_word(holds);
    format!(in alloc; "rule {counter} {covered} of {all}: {verdict}\n")
}
