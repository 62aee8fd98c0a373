//! The least and the greatest line of instructions.
ghost use Rattle.jc_rules.specs.Spans.{IsSpanOf, IsWidened};

use crate::status::LineStatus;

/// A line, and one that isn't less.
#[derive(Clone, Copy, Debug, PartialEq, Eq)]
pub struct Span {
    pub least: u32,
    pub greatest: u32,
}

/// The span of the lines so far and of one line more.
fn widened(lines: Option<Span>, line: u32) -> Span
    ensures { IsWidened lines line result }
{
    match lines {
        Some(lines) => Span {
            least: lines.least.min(line),
            greatest: lines.greatest.max(line),
        },
        None => Span {
            least: line,
            greatest: line,
        },
    }
}

/// The least line and the greatest, if there is one.
pub fn span_of(placed: &[LineStatus]) -> Option<Span>
    ensures { IsSpanOf placed.now result }
{
    let mut lines = None;
    'widening: for placed in placed {
        lines = Some(widened(lines, placed.line));
    }
    lines
}
