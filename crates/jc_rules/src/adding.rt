//! What the counters of classes add up to.
ghost use Rattle.std.specs.Prelude.{◌≡◌, ◌+◌, ◌-◌, ◌<◌, ◌≤◌, ◌^◌, ℕ, length};
ghost use Rattle.jc_rules.specs.Totals.{totals_of};
ghost use Rattle.jc_rules.specs.Adding.{AreAtMost, no_total, no_totals, plus_count, plus_class, class_count};

use crate::total::{Total, Totalled, Totals};
use jc_cover::{Count, Counters};

/// No item.
fn no_total() -> Total
    ensures { result ≡ no_total }
{
    Total {
        missed: 0,
        covered: 0,
    }
}

/// The totals of no class.
fn no_totals() -> Totals
    ensures { result ≡ no_totals }
{
    Totals {
        instruction: no_total(),
        branch: no_total(),
        line: no_total(),
        complexity: no_total(),
        method: no_total(),
        class: no_total(),
    }
}

/// A total and a count more.
fn plus_count(total: Total, count: Count) -> Total
    requires missed { total.missed + 2 ^ 32 ≤ 2 ^ 64 }
    requires covered { total.covered + 2 ^ 32 ≤ 2 ^ 64 }
    ensures { result ≡ plus_count total count }
{
    Total {
        missed: total.missed + u64::from(count.missed),
        covered: total.covered + u64::from(count.covered),
    }
}

/// One class, if an instruction of it counts; it is covered where one of its methods is.
fn class_count(counters: Counters) -> Count
    ensures { result ≡ class_count counters }
{
    let counts = counters.instruction.missed > 0 || counters.instruction.covered > 0;
    let covered = counters.method.covered > 0;
    Count {
        missed: u32::from(counts && !covered),
        covered: u32::from(counts && covered),
    }
}

/// The totals with one class more.
fn plus_class(totals: Totals, counters: Counters) -> Totals
    requires { AreAtMost (2 ^ 64 - 2 ^ 32) totals }
    ensures sum { result ≡ plus_class totals counters }
    ensures small { (most : ℕ) → AreAtMost most totals → AreAtMost (most + 4294967295) result }
{
    Totals {
        instruction: plus_count(totals.instruction, counters.instruction),
        branch: plus_count(totals.branch, counters.branch),
        line: plus_count(totals.line, counters.line),
        complexity: plus_count(totals.complexity, counters.complexity),
        method: plus_count(totals.method, counters.method),
        class: plus_count(totals.class, class_count(counters)),
    }
}

/// The totals of classes: the sums of their counters, and a counter of the classes. There each class with an
/// instruction that counts counts 1, covered where one of its methods is (JaCoCo's documentation on
/// coverage counters).
pub fn totals(classes: &[Totalled]) -> Totals
    requires { length classes.now < 2 ^ 32 }
    ensures { result ≡ totals_of classes.now }
{
    let mut totals = no_totals();
    'adding: for class in classes {
        totals = plus_class(totals, class.counters);
    }
    totals
}
