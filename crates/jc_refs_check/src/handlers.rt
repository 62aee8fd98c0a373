//! The first instruction whose references don't suit a handler that guards it (JVM Specification 4.10.1.6). For each local variable the
//! work is in proportion to the instructions and the rows together: an object suits few classes, so that few handlers that
//! want different ones guard it, and where rows want the same class each instruction is looked at once.
ghost use Rattle.std.specs.Prelude.{◌≡◌, ◌≢◌, ◌⊎◌, ◌<◌, ◌≤◌, ℕ, Some, length, slice_index, All, IfOk, OnOk};
ghost use Rattle.std.specs.List.Sorted.{IsNonDecreasingBy};
ghost use Rattle.jc_methods.specs.VerificationTypes.{Names as NameList, Grows, AreNumberedFrames, IsNumberedState};
ghost use Rattle.jc_methods.specs.WellMade.{IsWellMade};
ghost use Rattle.jc_kinds.specs.First.{IsFirstOrBound};
ghost use Rattle.jc_refs_check.specs.declared.guards.Guard.{Guard as GuardOf};
ghost use Rattle.jc_refs_check.specs.Classes.{AreKnown};
ghost use Rattle.jc_refs_check.specs.Unguarded.{AreNumberedClasses, classes_of, HaveNext, wanted_at, IsUnsuitedRange, IsUnsuitedGuard, IsUnsuitedIn};
ghost use Rattle.jc_refs_check.specs.Unguarded.{AreReached, IsWantedBy, IsNothingReached, IsFirstUnguarded};

use crate::caught::Caught;
use crate::classes::Classes;
use crate::columns::Column;
use crate::guards::{Guard, Guards, guards_of};
use jc_bytes::Memory;
use jc_methods::{Body, State};
use std::alloc::Global;

/// The first instruction of a range whose object doesn't suit the class that is wanted, or the bound.
fn first_in_range(
    column: &Column,
    classes: &Classes,
    start: usize,
    end: usize,
    want: u32,
    bound: usize,
) -> usize
    requires known { AreKnown classes.now }
    requires bound { bound ≤ length column.now.classes.items }
    requires next { HaveNext column.now }
    requires numbers { AreNumberedClasses (length classes.now.names) column.now.classes.items }
    requires want { want < length classes.now.names }
    ensures { IsFirstOrBound (IsUnsuitedRange classes.now.names column.now.classes.items want start end) bound result }
{
    let last = end.min(bound);
    if start >= last {
        return bound;
    }
    let first = column.first_unsuited(classes, start, last, want);
    if first < last { first } else { bound }
}

/// The first instruction that a row guards whose object doesn't suit the class that is wanted, or the bound. Those in front of where
/// earlier rows that want the class have reached aren't looked at again.
fn first_in_guard(
    column: &Column,
    classes: &Classes,
    guard: Guard,
    want: u32,
    bound: usize,
    reached: &mut Vec<u32>,
) -> usize
    requires known { AreKnown classes.now }
    requires bound { bound ≤ length column.now.classes.items }
    requires next { HaveNext column.now }
    requires numbers { AreNumberedClasses (length classes.now.names) column.now.classes.items }
    requires want { want < length classes.now.names }
    requires room { length classes.now.names ≤ length reached.old.items }
    requires reached { AreReached classes.now.names column.now.classes.items guard.start bound reached.old.items }
    ensures first { IsFirstOrBound (IsUnsuitedRange classes.now.names column.now.classes.items want guard.start guard.end) bound result }
    ensures reached { AreReached classes.now.names column.now.classes.items guard.start result reached.new.items }
    ensures room { length reached.new.items ≡ length reached.old.items }
    ensures others { (class : ℕ) → class ≢ want → slice_index reached.new.items class ≡ slice_index reached.old.items class }
{
    let from = reached[want as usize];
    if guard.end <= from {
        return bound;
    }
    reached[want as usize] = guard.end;
    let start = from.max(guard.start);
    first_in_range(
        column,
        classes,
        start as usize,
        guard.end as usize,
        want,
        bound,
    )
}

impl Guards<'_> {
    /// The first instruction that a row guards whose object in a local variable doesn't suit the handler's frame, or the bound.
    fn first_in_row(
        &self,
        column: &Column,
        slot: usize,
        guard: Guard,
        bound: usize,
        reached: &mut Vec<u32>,
    ) -> usize
        requires known { AreKnown self.now.classes.now }
        requires frames { AreNumberedFrames (length self.now.classes.now.names) self.now.body.now.frames }
        requires room { length self.now.classes.now.names ≤ length reached.old.items }
        requires reached { AreReached self.now.classes.now.names column.now.classes.items guard.start bound reached.old.items }
        requires bound { bound ≤ length column.now.classes.items }
        requires next { HaveNext column.now }
        requires numbers { AreNumberedClasses (length self.now.classes.now.names) column.now.classes.items }
        ensures first { IsFirstOrBound
            (IsUnsuitedGuard self.now.classes.now.names column.now.classes.items self.now.body.now.frames slot guard) bound result }
        ensures reached { AreReached self.now.classes.now.names column.now.classes.items guard.start result reached.new.items }
        ensures room { length reached.new.items ≡ length reached.old.items }
        ensures others { (class : ℕ) → (wanted_at self.now.classes.now.names self.now.body.now.frames guard.frame slot ≡ Some class)
            ⊎ (slice_index reached.new.items class ≡ slice_index reached.old.items class) }
    {
        match self.wanted(guard, slot) {
            Some(want) => first_in_guard(column, self.classes, guard, want, bound, reached),
            None => bound,
        }
    }

    /// The first instruction that one of the rows guards whose object in a local variable doesn't suit the handler's frame, or the
    /// bound.
    fn first_in_column(
        &self,
        column: &Column,
        slot: usize,
        bound: usize,
        reached: &mut Vec<u32>,
    ) -> usize
        requires known { AreKnown self.now.classes.now }
        requires frames { AreNumberedFrames (length self.now.classes.now.names) self.now.body.now.frames }
        requires starts { IsNonDecreasingBy (λ (g : GuardOf). g.start) self.now.rows.now }
        requires room { length self.now.classes.now.names ≤ length reached.old.items }
        requires reached { IsNothingReached reached.old.items }
        requires bound { bound ≤ length column.now.classes.items }
        requires next { HaveNext column.now }
        requires numbers { AreNumberedClasses (length self.now.classes.now.names) column.now.classes.items }
        ensures first { IsFirstOrBound
            (IsUnsuitedIn self.now.classes.now.names column.now.classes.items self.now.body.now.frames slot self.now.rows.now) bound result }
        ensures room { length reached.new.items ≡ length reached.old.items }
        ensures forgotten { (class : ℕ) → IsWantedBy self.now.classes.now.names self.now.body.now.frames slot self.now.rows.now class
            ⊎ (slice_index reached.new.items class ≡ 0) }
    {
        let mut first = bound;
        'looking: for guard in self.rows {
            first = self.first_in_row(column, slot, *guard, first, reached);
        }
        first
    }

    /// Nothing is reached for the class that a row's handler wants in a local variable.
    fn forget_wanted(&self, slot: usize, guard: Guard, reached: &mut Vec<u32>)
        requires known { AreKnown self.now.classes.now }
        requires frames { AreNumberedFrames (length self.now.classes.now.names) self.now.body.now.frames }
        requires room { length self.now.classes.now.names ≤ length reached.old.items }
        ensures room { length reached.new.items ≡ length reached.old.items }
        ensures wanted { (class : ℕ) → wanted_at self.now.classes.now.names self.now.body.now.frames guard.frame slot ≡ Some class
            → slice_index reached.new.items class ≡ 0 }
        ensures others { (class : ℕ) → slice_index reached.old.items class ≡ 0 → slice_index reached.new.items class ≡ 0 }
    {
        let Some(want) = self.wanted(guard, slot) else {
            return;
        };
        reached[want as usize] = 0;
    }

    /// Nothing is reached for the classes that the handlers want in a local variable.
    fn forget(&self, slot: usize, reached: &mut Vec<u32>)
        requires known { AreKnown self.now.classes.now }
        requires frames { AreNumberedFrames (length self.now.classes.now.names) self.now.body.now.frames }
        requires room { length self.now.classes.now.names ≤ length reached.old.items }
        requires others { (class : ℕ) → IsWantedBy self.now.classes.now.names self.now.body.now.frames slot self.now.rows.now class
            ⊎ (slice_index reached.old.items class ≡ 0) }
        ensures room { length reached.new.items ≡ length reached.old.items }
        ensures reached { IsNothingReached reached.new.items }
    {
        'forgetting: for guard in self.rows {
            self.forget_wanted(slot, *guard, reached);
        }
    }

    /// The first instruction that one of the rows guards whose object in a local variable doesn't suit the handler's frame, or the
    /// bound.
    fn first_in_slot(
        &self,
        alloc: Global,
        states: &[State],
        slot: usize,
        bound: usize,
        reached: &mut Vec<u32>,
    ) -> Result<usize, Memory>
        requires known { AreKnown self.now.classes.now }
        requires frames { AreNumberedFrames (length self.now.classes.now.names) self.now.body.now.frames }
        requires starts { IsNonDecreasingBy (λ (g : GuardOf). g.start) self.now.rows.now }
        requires room { length self.now.classes.now.names ≤ length reached.old.items }
        requires reached { IsNothingReached reached.old.items }
        requires small { length states.now < 4294967296 }
        requires bound { bound ≤ length states.now }
        requires states { All (IsNumberedState (length self.now.classes.now.names)) states.now }
        ensures first { IfOk result (IsFirstOrBound
            (IsUnsuitedIn self.now.classes.now.names (classes_of states.now slot) self.now.body.now.frames slot self.now.rows.now) bound) }
        ensures room { OnOk result (length reached.new.items ≡ length reached.old.items) }
        ensures reached { OnOk result (IsNothingReached reached.new.items) }
    {
        if !self.want(slot) {
            return Ok(bound);
        }
        let column = Column::of(alloc, states, slot)?;
        let first = self.first_in_column(&column, slot, bound, reached);
        self.forget(slot, reached);
        Ok(first)
    }
}

/// Room for a number for each of so many classes.
fn make_room(reached: &mut Vec<u32>, count: usize) -> Result<(), Memory>
    requires { IsNothingReached reached.old.items }
    ensures reached { IsNothingReached reached.new.items }
    ensures room { OnOk result (count ≤ length reached.new.items) }
{
    'growing: while reached.len() < count {
        reached.push(0)?;
    }
    Ok(())
}

/// The first of some instructions whose references don't suit a handler that guards it, or their number. Of each instruction there is
/// the state, and the body passes the kind check.
///
/// # Errors
///
/// `Memory` where memory was refused, or where there are 4,294,967,295 names.
pub fn first_unguarded(
    alloc: Global,
    states: &[State],
    body: &Body,
    classes: &mut Classes,
    reached: &mut Vec<u32>,
) -> Result<usize, Memory>
    requires known { AreKnown classes.old }
    requires made { IsWellMade body.now }
    requires small { length states.now ≤ length body.now.code }
    requires frames { AreNumberedFrames (length classes.old.names) body.now.frames }
    requires states { All (IsNumberedState (length classes.old.names)) states.now }
    requires reached { IsNothingReached reached.old.items }
    ensures first { (old : NameList) → Grows old classes.old.names → IfOk result (IsFirstUnguarded old classes.old.names body.now states.now) }
    ensures known { OnOk result (AreKnown classes.new) }
    ensures names { OnOk result (Grows classes.old.names classes.new.names) }
    ensures reached { OnOk result (IsNothingReached reached.new.items) }
{
    let caught = Caught::of(alloc, body, classes)?;
    make_room(reached, classes.len())?;
    let rows = guards_of(alloc, body)?;
    let mut first = caught.first_untaken(classes, body, states.len());
    let guards = Guards {
        classes,
        body,
        rows: &rows,
    };
    'slots: for slot in 0..usize::from(body.max_locals) {
        first = guards.first_in_slot(alloc, states, slot, first, reached)?;
    }
    Ok(first)
}
