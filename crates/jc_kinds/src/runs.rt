//! Runs of equal types in one local variable, instruction by instruction.
ghost use Rattle.std.specs.Prelude.{◌≡◌, ◌<◌, ◌≤◌, ◌+◌, false, true, length, IfOk};
ghost use Rattle.jc_kinds.specs.Runs.{key_of, IsEnd, AreEnds, HasRuns, IsFirstUnfit};

use crate::fits::fits;
use jc_bytes::Memory;
use jc_methods::Kind;
use std::alloc::Global;

/// The types of one local variable before each instruction, and where each one's run ends.
#[derive(Drop)]
pub struct Column {
    pub kinds: Vec<Kind>,
    /// The ends of the runs of equal types.
    pub tight: Vec<usize>,
    /// The ends of the runs in which null and all objects are alike.
    pub loose: Vec<usize>,
}

/// The type, or one that stands for null and for all objects where these are to be alike.
fn key(loose: bool, kind: Kind) -> Kind
    ensures { result ≡ key_of loose kind }
{
    match kind {
        Kind::Null | Kind::Object(_) if loose => Kind::Object(0),
        _ => kind,
    }
}

/// Where one run ends, by the ends of those behind it.
fn end_at(loose: bool, column: &[Kind], ends: &[usize], i: usize) -> usize
    requires within { i < length column.now }
    requires small { length column.now < 4294967296 }
    requires next { AreEnds loose column.now (i + 1) ends.now }
    ensures { IsEnd loose column.now i result }
{
    let next = i + 1;
    if next >= column.len() {
        return next;
    }
    if key(loose, column[i]).is_same(key(loose, column[next])) {
        ends[next]
    } else {
        next
    }
}

/// Where the run of each instruction's type ends.
fn run_ends(alloc: Global, loose: bool, column: &[Kind]) -> Result<Vec<usize>, Memory>
    requires { length column.now < 4294967296 }
    ensures { IfOk result (λ ends. AreEnds loose column.now 0 ends.items) }
{
    let count = column.len();
    let mut ends = vec![in alloc; count; count]?;
    let mut i = count;
    'ending: while i > 0 {
        i -= 1;
        ends[i] = end_at(loose, column, &ends, i);
    }
    Ok(ends)
}

/// These types, with the ends of their runs.
///
/// # Errors
///
/// `Memory` where memory was refused.
pub fn with_runs(alloc: Global, kinds: Vec<Kind>) -> Result<Column, Memory>
    requires { length kinds.items < 4294967296 }
    ensures kinds { IfOk result (λ column. column.kinds.items ≡ kinds.items) }
    ensures runs { IfOk result HasRuns }
{
    let tight = run_ends(alloc, false, &kinds)?;
    let loose = run_ends(alloc, true, &kinds)?;
    Ok(Column {
        kinds,
        tight,
        loose,
    })
}

/// The first instruction of a range whose type doesn't fit, or the range's end.
pub fn first_unfit(
    column: &[Kind],
    tight: &[usize],
    loose: &[usize],
    start: usize,
    end: usize,
    want: Kind,
) -> usize
    requires start { start < end }
    requires end { end ≤ length column.now }
    requires tight { AreEnds false column.now 0 tight.now }
    requires loose { AreEnds true column.now 0 loose.now }
    ensures { IsFirstUnfit column.now want start end result }
{
    if want.is_same(Kind::Top) {
        return end;
    }
    if !fits(column[start], want) {
        return start;
    }
    let run_end = match want {
        Kind::Object(_) => loose[start],
        _ => tight[start],
    };
    if run_end < end { run_end } else { end }
}
