//! Calls on totals.

use jc_cover::{Count, Counters};
use jc_rules::{Total, Totalled, Totals, totals};
use std::alloc::Global;
use tests_lines::{Answer, numbers};

/// Tells how many classes are kept.
fn put_count(kept: &[Totalled], out: &mut Answer) -> Option<()> {
    out.show(&kept.len());
    out.put(" classes");
    Some(())
}

/// Keeps no class.
pub fn forget(kept: &mut Vec<Totalled>, out: &mut Answer) -> Option<()> {
    kept.clear();
    put_count(kept, out)
}

/// A number of missed and one of covered items.
const fn count(missed: u32, covered: u32) -> Count {
    Count { missed, covered }
}

/// Counters, spelled as in a row of a report, if they are so many numbers.
fn counters_of(counts: &[u32]) -> Option<Counters> {
    match counts {
        [a, b, c, d, e, f, g, h, i, j] => Some(Counters {
            instruction: count(*a, *b),
            branch: count(*c, *d),
            line: count(*e, *f),
            complexity: count(*g, *h),
            method: count(*i, *j),
        }),
        _ => None,
    }
}

/// Keeps a class with these counters behind the others, and tells how many there are.
pub fn keep(
    alloc: Global,
    kept: &mut Vec<Totalled>,
    words: &[&str],
    out: &mut Answer,
) -> Option<()> {
    let counts = numbers::<u32>(alloc, words, out)?;
    let Some(counters) = counters_of(&counts) else {
        return out.unknown_word("counted");
    };
    let pushed = kept.push(Totalled { counters });
    out.got(pushed)?;
    put_count(kept, out)
}

/// Puts the missed and the covered items.
fn put_total(name: &str, total: Total, out: &mut Answer) {
    out.separate("; ");
    out.put(name);
    out.label(" ", &total.missed);
    out.label(" ", &total.covered);
}

/// Puts totals.
fn put_totals(totals: &Totals, out: &mut Answer) {
    put_total("instruction", totals.instruction, out);
    put_total("branch", totals.branch, out);
    put_total("line", totals.line, out);
    put_total("complexity", totals.complexity, out);
    put_total("method", totals.method, out);
    put_total("class", totals.class, out);
}

/// Puts the totals of the classes that are kept.
pub fn answer(kept: &[Totalled], out: &mut Answer) -> Option<()> {
    if kept.len() >= 1_000_000 {
        return out.wrong("too many classes");
    }
    put_totals(&totals(kept), out);
    Some(())
}
