//! The first instruction whose local variables don't fit a handler that guards it (JVM Specification 4.10.1.6).
//! For each local variable the work is in proportion to the instructions and the distinct handlers together, and for a
//! handler to the runs of equal types in the local variable, or to its rows, where these are fewer.
ghost use Rattle.std.specs.Prelude.{◌≡◌, ◌≢◌, ◌<◌, ◌≤◌, [], ◌∷◌, length, All, IfOk};
ghost use Rattle.jc_kinds.specs.First.{IsFirstOrBound};
ghost use Rattle.jc_kinds.specs.Frames.{frame_in, IsNumbered};
ghost use Rattle.jc_kinds.specs.Runs.{HasRuns, IsFirstUnfit};
ghost use Rattle.jc_kinds.specs.Guarded.{column_of, local_at, wanted_at, catches, frame_catches};
ghost use Rattle.jc_kinds.specs.Guarded.{IsUncaught, IsUnfitInColumn, IsUnfitInRow, IsUnguarded, IsUnguardedIn};
ghost use Rattle.jc_kinds.specs.Rows.{AreRising, IsGroup, IsUnfitInRows, IsUnfitInGroups, rows_of};

use crate::fits::fits;
use crate::frames::{Framed, frame_at};
use crate::rows::{first_ending_behind, row_groups};
use crate::runs::{Column, first_unfit, with_runs};
use jc_bytes::Memory;
use jc_methods::{Handler, Kind, State};
use std::alloc::Global;

/// Whether a reference that is caught may stand alone on a stack.
fn catches(stack: &[Kind]) -> bool
    ensures { result ≡ catches stack.now }
{
    match stack {
        [kind] => matches!(kind, Kind::Top | Kind::Object(_)),
        _ => false,
    }
}

/// Whether the frame at which a handler begins takes the reference that is caught.
fn frame_catches(framed: &Framed<'_>, target: u32) -> bool
    requires { IsNumbered framed.now }
    ensures { result ≡ frame_catches (frame_in framed.now.body.now.frames target) }
{
    match frame_at(framed, target) {
        Some(frame) => catches(&frame.stack),
        None => true,
    }
}

/// The first instruction that a row guards whose handler doesn't take the reference that is caught, or the bound.
fn first_uncaught(framed: &Framed<'_>, handlers: &[Handler], bound: usize) -> usize
    requires rows { All (λ h. h.start < h.end) handlers.now }
    requires numbers { IsNumbered framed.now }
    ensures { IsFirstOrBound (IsUncaught framed.now.body.now.frames handlers.now) bound result }
{
    let mut first = bound;
    'catching: for handler in handlers {
        first = first_in_range(framed, *handler, first);
    }
    first
}

/// The first instruction that a row guards where its handler doesn't take the reference that is caught, or the
/// bound.
fn first_in_range(framed: &Framed<'_>, handler: Handler, bound: usize) -> usize
    requires row { handler.start < handler.end }
    requires numbers { IsNumbered framed.now }
    ensures { IsFirstOrBound (IsUncaught framed.now.body.now.frames (handler ∷ [])) bound result }
{
    let start = handler.start as usize;
    if start < bound && !frame_catches(framed, handler.target) {
        start
    } else {
        bound
    }
}

/// The types of one local variable before each instruction.
fn column_of(alloc: Global, states: &[State], slot: usize) -> Result<Vec<Kind>, Memory>
    ensures { IfOk result (λ kinds. kinds.items ≡ column_of states.now slot) }
{
    let mut kinds = Vec::new(alloc);
    'taking: for state in states {
        kinds.push(local_at(state, slot))?;
    }
    Ok(kinds)
}

/// The type of a local variable.
fn local_at(state: &State, slot: usize) -> Kind
    ensures { result ≡ local_at slot state.now }
{
    let locals = state.locals.as_slice();
    if slot < locals.len() {
        locals[slot]
    } else {
        Kind::Top
    }
}

/// The type that the frame at an instruction has for a local variable.
fn wanted_at(framed: &Framed<'_>, target: u32, slot: usize) -> Kind
    requires { IsNumbered framed.now }
    ensures { result ≡ wanted_at slot (frame_in framed.now.body.now.frames target) }
{
    match frame_at(framed, target) {
        Some(frame) => local_at(frame, slot),
        None => Kind::Top,
    }
}

/// The first instruction that one of the rows guards whose type in a column doesn't fit, or the bound. Where a type
/// doesn't fit that no row guards, the rows that end in front of it need no look.
fn first_in_rows(column: &Column, rows: &[Handler], want: Kind, bound: usize) -> usize
    requires bound { bound ≤ length column.now.kinds.items }
    requires runs { HasRuns column.now }
    requires rows { AreRising rows.now }
    ensures { IsFirstOrBound (IsUnfitInRows column.now.kinds.items rows.now want) bound result }
{
    let mut at = 0;
    'looking: while at < rows.len() {
        let row = rows[at];
        let start = row.start as usize;
        if start >= bound {
            return bound;
        }
        let unfit = first_unfit(
            &column.kinds,
            &column.tight,
            &column.loose,
            start,
            bound,
            want,
        );
        if unfit < row.end as usize {
            return unfit;
        }
        at = first_ending_behind(rows, at + 1, unfit);
    }
    bound
}

/// The first instruction that a row of one handler guards whose type in a column doesn't fit the handler's frame, or
/// the bound.
fn first_in_group(
    column: &Column,
    framed: &Framed<'_>,
    rows: &[Handler],
    slot: usize,
    bound: usize,
) -> usize
    requires bound { bound ≤ length column.now.kinds.items }
    requires runs { HasRuns column.now }
    requires numbers { IsNumbered framed.now }
    requires group { IsGroup rows.now }
    ensures { IsFirstOrBound (IsUnfitInColumn column.now.kinds.items framed.now.body.now.frames slot rows.now) bound result }
{
    if rows.is_empty() {
        return bound;
    }
    let want = wanted_at(framed, rows[0].target, slot);
    first_in_rows(column, rows, want, bound)
}

/// The first instruction that a row guards whose type in a column doesn't fit the handler's frame, or the bound.
fn first_in_column(
    column: &Column,
    framed: &Framed<'_>,
    groups: &[Vec<Handler>],
    slot: usize,
    bound: usize,
) -> usize
    requires bound { bound ≤ length column.now.kinds.items }
    requires runs { HasRuns column.now }
    requires numbers { IsNumbered framed.now }
    requires groups { All IsGroup (rows_of groups.now) }
    ensures { IsFirstOrBound (IsUnfitInGroups column.now.kinds.items framed.now.body.now.frames slot (rows_of groups.now)) bound result }
{
    let mut first = bound;
    'looking: for rows in groups {
        first = first_in_group(column, framed, rows, slot, first);
    }
    first
}

/// The first instruction that a row guards whose type of a local variable doesn't fit the handler's frame, or the
/// bound. The column is made, and the rows look at its runs.
fn first_by_runs(
    alloc: Global,
    states: &[State],
    framed: &Framed<'_>,
    groups: &[Vec<Handler>],
    slot: usize,
    bound: usize,
) -> Result<usize, Memory>
    requires small { length states.now < 4294967296 }
    requires bound { bound ≤ length states.now }
    requires numbers { IsNumbered framed.now }
    requires groups { All IsGroup (rows_of groups.now) }
    ensures { IfOk result
        (IsFirstOrBound (IsUnfitInGroups (column_of states.now slot) framed.now.body.now.frames slot (rows_of groups.now)) bound) }
{
    let column = with_runs(alloc, column_of(alloc, states, slot)?)?;
    Ok(first_in_column(&column, framed, groups, slot, bound))
}

/// The first state of a range whose type of a local variable doesn't fit, or the range's end.
fn first_in_states(states: &[State], slot: usize, start: usize, end: usize, want: Kind) -> usize
    requires start { start < end }
    requires end { end ≤ length states.now }
    ensures { IsFirstUnfit (column_of states.now slot) want start end result }
{
    'looking: for at in start..end {
        if !fits(local_at(&states[at], slot), want) {
            return at;
        }
    }
    end
}

/// The first instruction that a row guards whose type of a local variable isn't the one that is wanted, or the bound.
fn first_by_row(states: &[State], handler: Handler, slot: usize, want: Kind, bound: usize) -> usize
    requires bound { bound ≤ length states.now }
    ensures { IsFirstOrBound (IsUnfitInRow (column_of states.now slot) handler want) bound result }
{
    if want.is_same(Kind::Top) {
        return bound;
    }
    let start = handler.start as usize;
    let last = if (handler.end as usize) < bound {
        handler.end as usize
    } else {
        bound
    };
    if start >= last {
        return bound;
    }
    let first = first_in_states(states, slot, start, last, want);
    if first < last { first } else { bound }
}

/// The first instruction that a row guards whose type of a local variable doesn't fit the handler's frame, or the
/// bound. Each row looks at each state that it guards, and no list is made.
fn first_by_rows(
    states: &[State],
    framed: &Framed<'_>,
    handlers: &[Handler],
    slot: usize,
    bound: usize,
) -> usize
    requires bound { bound ≤ length states.now }
    requires numbers { IsNumbered framed.now }
    ensures { IsFirstOrBound (IsUnfitInColumn (column_of states.now slot) framed.now.body.now.frames slot handlers.now) bound result }
{
    let mut first = bound;
    'looking: for handler in handlers {
        let want = wanted_at(framed, handler.target, slot);
        first = first_by_row(states, *handler, slot, want, first);
    }
    first
}

/// Whether the rows together guard no more than so many instructions, each as often as rows guard it.
fn guard_few(handlers: &[Handler], most: usize) -> bool {
    let mut left = most;
    'counting: for handler in handlers {
        let guarded = handler.end.saturating_sub(handler.start) as usize;
        if guarded > left {
            return false;
        }
        left -= guarded;
    }
    true
}

/// The first instruction whose state before it doesn't fit a handler that guards it, or the number of states, where
/// the first one whose handler doesn't take what is caught is known: row by row, for rows that guard few instructions.
fn first_of_few(
    states: &[State],
    framed: &Framed<'_>,
    handlers: &[Handler],
    slots: usize,
    uncaught: usize,
) -> usize
    requires numbers { IsNumbered framed.now }
    requires uncaught { IsFirstOrBound (IsUncaught framed.now.body.now.frames handlers.now) (length states.now) uncaught }
    ensures { IsFirstOrBound (IsUnguarded states.now framed.now.body.now.frames handlers.now slots) (length states.now) result }
{
    let mut first = uncaught;
    'slots: for slot in 0..slots {
        first = first_by_rows(states, framed, handlers, slot, first);
    }
    first
}

/// The first instruction whose state before it doesn't fit a handler that guards it, or the number of states, where
/// the first one whose handler doesn't take what is caught is known: by the runs of equal types in each local
/// variable, for rows that guard many instructions.
fn first_of_many(
    alloc: Global,
    states: &[State],
    framed: &Framed<'_>,
    handlers: &[Handler],
    slots: usize,
    uncaught: usize,
) -> Result<usize, Memory>
    requires small { length states.now < 4294967296 }
    requires numbers { IsNumbered framed.now }
    requires uncaught { IsFirstOrBound (IsUncaught framed.now.body.now.frames handlers.now) (length states.now) uncaught }
    ensures { IfOk result (IsFirstOrBound (IsUnguarded states.now framed.now.body.now.frames handlers.now slots) (length states.now)) }
{
    let groups = row_groups(alloc, handlers)?;
    let mut first = uncaught;
    'slots: for slot in 0..slots {
        first = first_by_runs(alloc, states, framed, &groups, slot, first)?;
    }
    Ok(first)
}

/// How many states the rows may look at for one local variable, for each instruction, before columns are made.
const LOOKS: usize = 4;

/// The first instruction whose state before it doesn't fit a handler that guards it, or the number of states.
fn first_of_states(alloc: Global, states: &[State], framed: &Framed<'_>) -> Result<usize, Memory>
    requires small { length states.now < 4294967296 }
    requires rows { All (λ h. h.start < h.end) framed.now.body.now.handlers }
    requires numbers { IsNumbered framed.now }
    ensures { IfOk result (IsFirstOrBound (IsUnguardedIn framed.now.body.now states.now) (length states.now)) }
{
    let handlers = framed.body.handlers.as_slice();
    let slots = usize::from(framed.body.max_locals);
    let uncaught = first_uncaught(framed, handlers, states.len());
    if guard_few(handlers, states.len().saturating_mul(LOOKS)) {
        return Ok(first_of_few(states, framed, handlers, slots, uncaught));
    }
    first_of_many(alloc, states, framed, handlers, slots, uncaught)
}

/// The first of so many instructions whose state before it doesn't fit a handler that guards it, or their number. The
/// states are looked at only where there is a handler.
///
/// # Errors
///
/// `Memory` where memory was refused.
pub fn first_unguarded(
    alloc: Global,
    states: &[State],
    framed: &Framed<'_>,
    count: usize,
) -> Result<usize, Memory>
    requires small { count < 4294967296 }
    requires states { framed.now.body.now.handlers ≢ [] → length states.now ≡ count }
    requires rows { All (λ h. h.start < h.end) framed.now.body.now.handlers }
    requires numbers { IsNumbered framed.now }
    ensures { IfOk result (IsFirstOrBound (IsUnguardedIn framed.now.body.now states.now) count) }
{
    if framed.body.handlers.is_empty() {
        return Ok(count);
    }
    Ok(first_of_states(alloc, states, framed)?)
}
