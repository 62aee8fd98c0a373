//! Calls on the classes of a report.

use crate::shown::put_text;
use crate::texts::text;
use jc_bytes::{Bytes, List};
use jc_cover::{Count, Counters};
use jc_report::{Counted, Row, csv_text, rows};
use std::alloc::Global;
use tests_lines::{Answer, number, numbers};

/// Puts what a call on the classes of a report answers.
pub fn answer(
    alloc: Global,
    kept: &mut Vec<Counted>,
    words: &[&str],
    out: &mut Answer,
) -> Option<()> {
    match words {
        ["forget"] => forget(kept, out),
        ["counted", id, name, super_name, interface, counts @ ..] => {
            let counted = counted(alloc, id, [name, super_name, interface], counts, out)?;
            keep(kept, counted, out)
        }
        ["rows", group] => made_rows(alloc, kept, group, out),
        ["csv", group] => made_text(alloc, kept, group, out),
        words => out.unknown(words),
    }
}

/// Tells how many classes are kept.
fn put_count(kept: &[Counted], out: &mut Answer) -> Option<()> {
    out.show(&kept.len());
    out.put(" classes");
    Some(())
}

/// Keeps no class.
fn forget(kept: &mut Vec<Counted>, out: &mut Answer) -> Option<()> {
    kept.clear();
    put_count(kept, out)
}

/// Keeps a class behind the others, and tells how many there are.
fn keep(kept: &mut Vec<Counted>, counted: Counted, out: &mut Answer) -> Option<()> {
    let pushed = kept.push(counted);
    out.got(pushed)?;
    put_count(kept, out)
}

/// A number of missed and one of covered items.
const fn count(missed: u32, covered: u32) -> Count {
    Count { missed, covered }
}

/// Counters, spelled as in a row of a report, if they are so many numbers.
fn counters_of(counts: &[u32]) -> Option<Counters> {
    match counts {
        [a, b, c, d, e, f, g, h, i, j] => Some(Counters {
            instruction: count(*a, *b),
            branch: count(*c, *d),
            line: count(*e, *f),
            complexity: count(*g, *h),
            method: count(*i, *j),
        }),
        _ => None,
    }
}

/// Counters, spelled as in a row of a report.
fn counters_by(alloc: Global, words: &[&str], out: &mut Answer) -> Option<Counters> {
    let counts = numbers::<u32>(alloc, words, out)?;
    match counters_of(&counts) {
        Some(counters) => Some(counters),
        None => out.unknown_word("counted"),
    }
}

/// A name.
fn name_of(alloc: Global, word: &str, out: &mut Answer) -> Option<Bytes> {
    Some(List::from_vec(text(alloc, word, out)?))
}

/// The one interface, or none where a dash stands there.
fn interfaces(alloc: Global, word: &str, out: &mut Answer) -> Option<List<Bytes>> {
    let mut interfaces = List::new(alloc);
    if word != "-" {
        let name = name_of(alloc, word, out)?;
        let pushed = interfaces.push(name);
        out.got(pushed)?;
    }
    Some(interfaces)
}

/// A class of a report: its name, its superclass, or none where a dash stands there, and its interface.
fn counted(
    alloc: Global,
    id: &str,
    [name, super_name, interface]: [&str; 3],
    counts: &[&str],
    out: &mut Answer,
) -> Option<Counted> {
    let id = number::<u64>(id, out)?;
    let counters = counters_by(alloc, counts, out)?;
    let interfaces = interfaces(alloc, interface, out)?;
    let mut counted = Counted {
        id,
        name: name_of(alloc, name, out)?,
        super_name: None,
        interfaces,
        counters,
    };
    if super_name != "-" {
        counted.super_name = Some(name_of(alloc, super_name, out)?);
    }
    Some(counted)
}

/// Puts counters as in a row of a report.
pub fn put_counters(counters: &Counters, out: &mut Answer) {
    let counts = [
        counters.instruction,
        counters.branch,
        counters.line,
        counters.complexity,
        counters.method,
    ];
    for Count { missed, covered } in counts {
        out.label(" ", &missed);
        out.label(" ", &covered);
    }
}

/// Puts a row: the report, the package, the class, the class id and the counters.
fn put_row(row: &Row, out: &mut Answer) {
    put_text(&row.group, out);
    out.put(" ");
    put_text(&row.package, out);
    out.put(" ");
    put_text(&row.class, out);
    out.label(" ", &row.id);
    put_counters(&row.counters, out);
}

/// Puts the rows of the classes that are kept.
fn made_rows(alloc: Global, kept: &[Counted], group: &str, out: &mut Answer) -> Option<()> {
    let group = text(alloc, group, out)?;
    let rows = out.got(rows(alloc, &group, kept))?;
    out.show(&rows.len());
    out.put(" rows");
    for row in &rows {
        out.put("; ");
        put_row(row, out);
    }
    Some(())
}

/// Puts the text of the report of classes.
pub fn made_text(alloc: Global, kept: &[Counted], group: &str, out: &mut Answer) -> Option<()> {
    let group = text(alloc, group, out)?;
    let rows = out.got(rows(alloc, &group, kept))?;
    let text = out.got(csv_text(alloc, &rows))?;
    put_text(&text, out);
    Some(())
}
