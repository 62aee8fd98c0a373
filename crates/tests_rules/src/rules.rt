//! Calls on rules.

use jc_rules::{CounterKind, Rule, Total, Totals, holds};
use tests_lines::{Answer, number};

/// The counter of this name.
fn counter_of(word: &str, out: &mut Answer) -> Option<CounterKind> {
    match word {
        "instruction" => Some(CounterKind::Instruction),
        "branch" => Some(CounterKind::Branch),
        "line" => Some(CounterKind::Line),
        "complexity" => Some(CounterKind::Complexity),
        "method" => Some(CounterKind::Method),
        "class" => Some(CounterKind::Class),
        word => out.unknown_word(word),
    }
}

/// Totals in which this counter alone has this total; of all others missed and covered are exchanged.
fn totals_with(counter: CounterKind, total: Total) -> Totals {
    let other = Total {
        missed: total.covered,
        covered: total.missed,
    };
    let mut totals = Totals {
        instruction: other,
        branch: other,
        line: other,
        complexity: other,
        method: other,
        class: other,
    };
    match counter {
        CounterKind::Instruction => totals.instruction = total,
        CounterKind::Branch => totals.branch = total,
        CounterKind::Line => totals.line = total,
        CounterKind::Complexity => totals.complexity = total,
        CounterKind::Method => totals.method = total,
        CounterKind::Class => totals.class = total,
    }
    totals
}

/// Puts whether a rule holds, of a counter with so many missed and so many covered items.
pub fn answer(
    counter: &str,
    [least, of]: [&str; 2],
    [missed, covered]: [&str; 2],
    out: &mut Answer,
) -> Option<()> {
    let counter = counter_of(counter, out)?;
    let rule = Rule {
        counter,
        least: number::<u32>(least, out)?,
        of: number::<u32>(of, out)?,
    };
    let total = Total {
        missed: number::<u64>(missed, out)?,
        covered: number::<u64>(covered, out)?,
    };
    let held = holds(&totals_with(counter, total), &rule);
    out.put(if held { "ok" } else { "below" });
    Some(())
}
