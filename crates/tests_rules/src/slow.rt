//! A slow program for small classes, straight from the definitions: for each line number each instruction is looked at,
//! and the line of an instruction is looked for in each entry of the table.
ghost use Rattle.std.specs.Prelude.{◌≡◌};
ghost use Rattle.jc_plan.specs.Analysed.{IsAnalysed};
ghost use Rattle.jc_cover.specs.Covered.{HasShape};
ghost use Rattle.jc_cover.specs.Counters.{is_counted, counted_methods, is_better, line_of, methods_of};
ghost use Rattle.std.specs.List.{list_any};
ghost use Rattle.jc_rules.specs.Status.{IsLineStatus};
ghost use Rattle.tests_rules.specs.Slow.{is_value, has_value, has_item, is_line, better, is_here, any_from, is_in_counted};

use jc_bytes::{List, Memory};
use jc_cover::Coverage;
use jc_methods::{Analysed, Body, LineAt};
use jc_rules::{LineState, LineStatus};
use std::alloc::Global;

/// Whether a method counts.
fn is_counted(body: &Body) -> bool
    ensures { result ≡ is_counted body.now }
{
    body.flags & 0x1000 == 0 || body.name.starts_with(b"lambda$")
}

/// Whether the entry starts no later than the instruction, and no earlier than the best one in front of it.
fn is_better(at: usize, best: Option<LineAt>, entry: LineAt) -> bool
    ensures { result ≡ is_better at best entry }
{
    match best {
        Some(best) => entry.at as usize <= at && best.at <= entry.at,
        None => entry.at as usize <= at,
    }
}

/// The better one of an entry and the best one in front of it.
fn better(at: usize, best: Option<LineAt>, entry: LineAt) -> Option<LineAt>
    ensures { result ≡ better at best entry }
{
    if is_better(at, best, entry) {
        Some(entry)
    } else {
        best
    }
}

/// The line of an instruction.
fn line_of(table: &[LineAt], at: usize) -> Option<u32>
    ensures { result ≡ line_of table.now at }
{
    let mut best = None;
    'looking: for entry in table {
        best = better(at, best, *entry);
    }
    match best {
        Some(best) => Some(u32::from(best.line)),
        None => None,
    }
}

/// Whether the value is true, or false, as is asked for.
fn is_value(covered: bool, value: bool) -> bool
    ensures { result ≡ is_value covered value }
{
    if covered { value } else { !value }
}

/// Whether one of the values is.
fn has_value(covered: bool, values: &[bool]) -> bool
    ensures { result ≡ has_value covered values.now }
{
    values.iter().any(|value| is_value(covered, *value))
}

/// Whether the instruction is covered, or missed, or a branch of it is where it has two or more.
fn has_item(covered: bool, values: &[bool]) -> bool
    ensures { result ≡ has_item covered values.now }
{
    is_value(covered, has_value(true, values)) || values.len() >= 2 && has_value(covered, values)
}

/// Whether the line has this number.
fn is_line(number: u32, line: Option<u32>) -> bool
    ensures { result ≡ is_line number line }
{
    match line {
        Some(line) => line == number,
        None => false,
    }
}

/// Whether the instruction has the line, and is covered or missed, or a branch of it is.
fn is_here(table: &[LineAt], number: u32, covered: bool, at: usize, values: &[bool]) -> bool
    ensures { result ≡ is_here table.now number covered at values.now }
{
    is_line(number, line_of(table, at)) && has_item(covered, values)
}

/// Whether an instruction of the method is here.
fn is_in_method(table: &[LineAt], insns: &[List<bool>], number: u32, covered: bool) -> bool
    ensures { result ≡ any_from (is_here table.now number covered) 0 insns.now }
{
    'looking: for (at, values) in insns.iter().enumerate() {
        if is_here(table, number, covered, at, values) {
            return true;
        }
    }
    false
}

/// Whether the method counts, and an instruction of it is here.
fn is_in_counted(body: &Body, insns: &[List<bool>], number: u32, covered: bool) -> bool
    ensures { result ≡ is_in_counted number covered (record { body = body.now; insns = insns.now }) }
{
    is_counted(body) && is_in_method(&body.lines, insns, number, covered)
}

/// Whether an instruction of a method that counts is here.
fn is_in_class(class: &Analysed, coverage: &Coverage, number: u32, covered: bool) -> bool
    requires analysed { IsAnalysed class.now }
    requires shape { HasShape class.now.bodies coverage.now }
    ensures { result ≡ list_any (is_in_counted number covered) (methods_of class.now.bodies coverage.now.edges) }
{
    'looking: for (n, body) in class.bodies.iter().enumerate() {
        if is_in_counted(body, &coverage.edges[n], number, covered) {
            return true;
        }
    }
    false
}

/// The status of a line.
fn status_of(class: &Analysed, coverage: &Coverage, number: u32) -> LineState
    requires analysed { IsAnalysed class.now }
    requires shape { HasShape class.now.bodies coverage.now }
    ensures { IsLineStatus (counted_methods class.now.bodies coverage.now) number result }
{
    let covered = is_in_class(class, coverage, number, true);
    let missed = is_in_class(class, coverage, number, false);
    match (covered, missed) {
        (false, false) => LineState::Empty,
        (false, true) => LineState::Not,
        (true, true) => LineState::Partly,
        (true, false) => LineState::Fully,
    }
}

/// The least and the greatest of the lines so far and of the lines of a method with so many instructions.
fn with_method(table: &[LineAt], count: usize, span: Option<(u32, u32)>) -> Option<(u32, u32)> {
    let mut span = span;
    'looking: for at in 0..count {
        span = match (line_of(table, at), span) {
            (Some(line), Some((least, greatest))) => Some((least.min(line), greatest.max(line))),
            (Some(line), None) => Some((line, line)),
            (None, span) => span,
        };
    }
    span
}

/// The least and the greatest line of the methods that count, if there is one.
fn span_of(class: &Analysed) -> Option<(u32, u32)> {
    let mut span = None;
    'looking: for body in &class.bodies {
        if is_counted(body) {
            span = with_method(&body.lines, body.code.len(), span);
        }
    }
    span
}

/// The lines of a class, each with its status.
pub fn line_list(
    alloc: Global,
    class: &Analysed,
    coverage: &Coverage,
) -> Result<Vec<LineStatus>, Memory>
    requires analysed { IsAnalysed class.now }
    requires shape { HasShape class.now.bodies coverage.now }
{
    let mut list = Vec::new(alloc);
    if let Some((least, greatest)) = span_of(class) {
        'listing: for line in least..=greatest {
            let status = status_of(class, coverage, line);
            list.push(LineStatus { line, status })?;
        }
    }
    Ok(list)
}
