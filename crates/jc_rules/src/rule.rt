//! Rules on how much has to be covered.
ghost use Rattle.std.specs.Prelude.{◌≡◌, ◌+◌, ◌*◌, ◌<◌, ◌≤◌, ◌^◌, ◌↔◌, IsTrue};
ghost use Rattle.jc_rules.specs.Rules.{total_for, Holds};

use crate::total::{Total, Totals};

/// What is counted.
#[derive(Clone, Copy, Debug, PartialEq, Eq)]
pub enum CounterKind {
    Instruction,
    Branch,
    Line,
    Complexity,
    Method,
    Class,
}

/// How much of what is counted has to be covered: at least the fraction `least` / `of`.
#[derive(Clone, Copy, Debug, PartialEq, Eq)]
pub struct Rule {
    pub counter: CounterKind,
    pub least: u32,
    pub of: u32,
}

/// The total of what is counted.
fn total_for(totals: &Totals, counter: CounterKind) -> Total
    ensures { result ≡ total_for counter totals.now }
{
    match counter {
        CounterKind::Instruction => totals.instruction,
        CounterKind::Branch => totals.branch,
        CounterKind::Line => totals.line,
        CounterKind::Complexity => totals.complexity,
        CounterKind::Method => totals.method,
        CounterKind::Class => totals.class,
    }
}

/// The product of a number of four bytes and the sum of two of eight.
fn product(factor: u32, items: u128) -> u128
    requires { items < 2 ^ 65 }
    ensures { result ≡ factor * items }
{
    u128::from(factor) * items
}

/// Whether a rule holds: of the items that it counts at least its fraction is covered. It is judged in whole
/// numbers, so no rounding takes part; where there is no item it holds.
pub fn holds(totals: &Totals, rule: &Rule) -> bool
    ensures { IsTrue result ↔ Holds totals.now rule.now }
{
    let total = total_for(totals, rule.counter);
    let all = u128::from(total.missed) + u128::from(total.covered);
    product(rule.least, all) <= product(rule.of, u128::from(total.covered))
}
