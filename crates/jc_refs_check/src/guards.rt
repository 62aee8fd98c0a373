//! The rows of the exception table by where they begin, with the frames of their handlers.
ghost use Rattle.std.specs.Prelude.{◌≡◌, ◌<◌, ◌≤◌, ◌∷◌, ◌++◌, [], length, slice_index, set, All, IfOk, OnOk, IsTrue};
ghost use Rattle.std.specs.List.Sorted.{IsNonDecreasingBy};
ghost use Rattle.jc_methods.specs.WellMade.{IsWellMade};
ghost use Rattle.jc_refs_check.specs.Classes.{AreKnown};
ghost use Rattle.jc_refs_check.specs.declared.guards.Guard.{Guard as GuardOf};
ghost use Rattle.jc_refs_check.specs.Unguarded.{wanted_at, WantAlike, AreAlike, IsFrameFor, IsGuardOf, AreSortedGuards, AreFurther, AreGuards, AreWanted};

use crate::classes::Classes;
use crate::columns::class_at;
use crate::frames::frame_number;
use jc_bytes::Memory;
use jc_methods::{Body, FrameAt, Handler, State};
use std::alloc::Global;

/// A row of the exception table.
#[derive(Clone, Copy, Debug)]
pub struct Guard {
    /// The first instruction that is guarded.
    pub start: u32,
    /// The first instruction behind it that isn't guarded.
    pub end: u32,
    /// The number of a frame that wants what the one does at which the handler begins.
    pub frame: usize,
}

/// The rows of a method, and the classes of its frames.
#[derive(Clone, Copy)]
pub struct Guards<'a> {
    pub classes: &'a Classes,
    pub body: &'a Body,
    pub rows: &'a [Guard],
}

/// Whether the local variables of two frames have the same types.
fn have_same_locals(one: &State, other: &State) -> bool
    ensures { IsTrue result → one.now.locals ≡ other.now.locals }
{
    one.locals == other.locals
}

/// The number of a frame that wants what the one with a number does, by those in front of it: that of the one in front of it where the
/// local variables of the two have the same types, else its own.
fn alike_at(frames: &[FrameAt], numbers: &[usize], number: usize) -> usize
    requires within { number < length frames.now }
    requires numbers { AreAlike frames.now number numbers.now }
    ensures within { result ≤ number }
    ensures alike { WantAlike frames.now result number }
{
    if number == 0 {
        return number;
    }
    if have_same_locals(&frames[number - 1].state, &frames[number].state) {
        numbers[number - 1]
    } else {
        number
    }
}

/// For each frame the number of the first of those in front of it whose local variables have its types, one behind the other.
fn alike_numbers(alloc: Global, frames: &[FrameAt]) -> Result<Vec<usize>, Memory>
    ensures { IfOk result (λ numbers. AreAlike frames.now (length frames.now) numbers.items) }
{
    let mut numbers = Vec::new(alloc);
    'numbering: for number in 0..frames.len() {
        let alike = alike_at(frames, &numbers, number);
        numbers.push(alike)?;
    }
    Ok(numbers)
}

/// The number of a frame that wants what the frame at an instruction does.
fn frame_for(body: &Body, alike: &[usize], at: u32) -> usize
    requires made { IsWellMade body.now }
    requires alike { AreAlike body.now.frames (length body.now.frames) alike.now }
    ensures { IsFrameFor body.now.frames at result }
{
    let number = frame_number(body, at);
    if number < alike.len() {
        alike[number]
    } else {
        number
    }
}

/// One row, with the number of a frame that wants what its handler's frame does.
fn guard_of(body: &Body, alike: &[usize], row: Handler) -> Guard
    requires made { IsWellMade body.now }
    requires alike { AreAlike body.now.frames (length body.now.frames) alike.now }
    ensures { IsGuardOf body.now row result }
{
    Guard {
        start: row.start,
        end: row.end,
        frame: frame_for(body, alike, row.target),
    }
}

/// All rows by where they begin.
fn sorted_guards(alloc: Global, body: &Body) -> Result<Vec<Guard>, Memory>
    requires { IsWellMade body.now }
    ensures { IfOk result (λ guards. AreSortedGuards body.now guards.items) }
{
    let alike = alike_numbers(alloc, &body.frames)?;
    let mut guards = Vec::new(alloc);
    'taking: for row in body.handlers.as_slice() {
        guards.push(guard_of(body, &alike, *row))?;
    }
    guards.sort_unstable_by_key(|guard| guard.start);
    Ok(guards)
}

/// Keeps a row that ends behind all that are kept with its frame. `ends` has for each frame where those end.
fn keep_further(guard: Guard, kept: &mut Vec<Guard>, ends: &mut Vec<u32>) -> Result<(), Memory>
    requires within { guard.frame < length ends.old.items }
    ensures further { slice_index ends.old.items guard.frame < guard.end
        → OnOk result ((kept.new.items ≡ kept.old.items ++ guard ∷ []) × (ends.new.items ≡ set ends.old.items guard.frame guard.end)) }
    ensures room { OnOk result (length ends.new.items ≡ length ends.old.items) }
    ensures near { guard.end ≤ slice_index ends.old.items guard.frame
        → OnOk result ((kept.new.items ≡ kept.old.items) × (ends.new.items ≡ ends.old.items)) }
{
    if guard.end > ends[guard.frame] {
        kept.push(guard)?;
        ends[guard.frame] = guard.end;
    }
    Ok(())
}

/// The rows without those that end no later than one of the same frame that begins no later. There are so many frames.
fn further_guards(alloc: Global, guards: &[Guard], count: usize) -> Result<Vec<Guard>, Memory>
    requires few { count < 4294967296 }
    requires within { All (λ (g : GuardOf). g.frame ≤ count) guards.now }
    requires starts { IsNonDecreasingBy (λ (g : GuardOf). g.start) guards.now }
    ensures { IfOk result (λ kept. AreFurther guards.now kept.items) }
{
    let mut kept = Vec::new(alloc);
    let mut ends = vec![in alloc; 0; count + 1]?;
    'keeping: for guard in guards {
        keep_further(*guard, &mut kept, &mut ends)?;
    }
    Ok(kept)
}

/// The rows by where they begin, without those that end no later than one that begins no later and whose handler's frame has the same
/// local variables.
///
/// # Errors
///
/// `Memory` where memory was refused.
pub fn guards_of(alloc: Global, body: &Body) -> Result<Vec<Guard>, Memory>
    requires { IsWellMade body.now }
    ensures { IfOk result (λ guards. AreGuards body.now guards.items) }
{
    let sorted = sorted_guards(alloc, body)?;
    Ok(further_guards(alloc, &sorted, body.frames.len())?)
}

impl Guards<'_> {
    /// The class that a row's handler wants in a local variable, if it wants one that not all objects suit.
    pub fn wanted(&self, guard: Guard, slot: usize) -> Option<u32>
        requires { AreKnown self.now.classes.now }
        ensures { result ≡ wanted_at self.now.classes.now.names self.now.body.now.frames guard.frame slot }
    {
        let frame = self.body.frames.get(guard.frame)?;
        let class = class_at(&frame.state, slot)?;
        if self.classes.is_object(class) {
            None
        } else {
            Some(class)
        }
    }

    /// Whether a row's handler wants a class in a local variable that not all objects suit.
    pub fn want(&self, slot: usize) -> bool
        requires { AreKnown self.now.classes.now }
        ensures { AreWanted result self.now.classes.now.names self.now.body.now.frames slot self.now.rows.now }
    {
        'looking: for guard in self.rows {
            if self.wanted(*guard, slot).is_some() {
                return true;
            }
        }
        false
    }
}
