//! The classes of the objects in one local variable, instruction by instruction.
ghost use Rattle.std.specs.Prelude.{◌≡◌, ◌<◌, ◌≤◌, length, is_some, IfOk, if◌then◌else◌};
ghost use Rattle.std.specs.Bool.{MatchBool};
ghost use Rattle.jc_refs_check.specs.Classes.{AreKnown};
ghost use Rattle.jc_refs_check.specs.Unguarded.{class_at, classes_of, class_before, AreNext, HaveNext, AreNumberedClasses};
ghost use Rattle.jc_refs_check.specs.Unguarded.{IsColumn, IsUnsuited, IsFirstUnsuited};

use crate::classes::Classes;
use jc_bytes::Memory;
use jc_methods::{Kind, State};
use std::alloc::Global;

/// The classes of the objects in one local variable before each instruction.
#[derive(Drop)]
pub struct Column {
    /// The class of the object, where there is one.
    pub classes: Vec<Option<u32>>,
    /// The first instruction from each on where there is one, or the number of instructions.
    pub next: Vec<usize>,
}

/// The class of the object in a local variable, if there is one.
pub fn class_at(state: &State, slot: usize) -> Option<u32>
    ensures { result ≡ class_at slot state.now }
{
    let locals = state.locals.as_slice();
    if slot >= locals.len() {
        return None;
    }
    match locals[slot] {
        Kind::Object(class) => Some(class),
        Kind::Top | Kind::Int | Kind::Float | Kind::Double | Kind::Long => None,
        Kind::Null | Kind::UninitThis | Kind::Uninit(_) => None,
    }
}

/// The classes of the objects in a local variable before each instruction.
fn classes_of(alloc: Global, states: &[State], slot: usize) -> Result<Vec<Option<u32>>, Memory>
    ensures { IfOk result (λ classes. classes.items ≡ classes_of states.now slot) }
{
    let mut classes = Vec::new(alloc);
    'taking: for state in states {
        classes.push(class_at(state, slot))?;
    }
    Ok(classes)
}

/// The first instruction from one on at which there is an object, by that from the next one on.
fn next_at(class: Option<u32>, at: usize, behind: usize) -> usize
    ensures { result ≡ (if is_some class then at else behind) }
{
    match class {
        Some(_) => at,
        None => behind,
    }
}

/// The first instruction from each on at which there is an object, or the number of instructions.
fn next_of(alloc: Global, classes: &[Option<u32>]) -> Result<Vec<usize>, Memory>
    requires { length classes.now < 4294967296 }
    ensures { IfOk result (λ next. AreNext classes.now 0 next.items) }
{
    let count = classes.len();
    let mut next = vec![in alloc; count; count]?;
    let mut object = count;
    let mut at = count;
    'seeking: while at > 0 {
        at -= 1;
        object = next_at(classes[at], at, object);
        next[at] = object;
    }
    Ok(next)
}

impl Column {
    /// The classes of the objects in a local variable before each instruction.
    ///
    /// # Errors
    ///
    /// `Memory` where memory was refused.
    pub fn of(alloc: Global, states: &[State], slot: usize) -> Result<Column, Memory>
        requires { length states.now < 4294967296 }
        ensures { IfOk result (IsColumn states.now slot) }
    {
        let classes = classes_of(alloc, states, slot)?;
        let next = next_of(alloc, &classes)?;
        Ok(Column { classes, next })
    }

    /// Whether the object before an instruction, if there is one, may stand where one of a class is expected.
    fn suits_at(&self, known: &Classes, at: usize, want: u32) -> bool
        requires known { AreKnown known.now }
        requires within { at < length self.now.classes.items }
        requires numbers { AreNumberedClasses (length known.now.names) self.now.classes.items }
        requires want { want < length known.now.names }
        ensures { MatchBool result (IsUnsuited known.now.names (class_before self.now.classes.items at) want → ⊥)
            (IsUnsuited known.now.names (class_before self.now.classes.items at) want) }
    {
        match self.classes[at] {
            Some(class) => known.suits(class, want),
            None => true,
        }
    }

    /// The first instruction of a range at which an object may not stand where one of a class is expected, or the range's end. It
    /// looks at objects alone.
    pub fn first_unsuited(&self, known: &Classes, start: usize, end: usize, want: u32) -> usize
        requires known { AreKnown known.now }
        requires range { start ≤ end }
        requires end { end ≤ length self.now.classes.items }
        requires next { HaveNext self.now }
        requires numbers { AreNumberedClasses (length known.now.names) self.now.classes.items }
        requires want { want < length known.now.names }
        ensures { IsFirstUnsuited known.now.names self.now.classes.items want start end result }
    {
        let mut at = start;
        'looking: while at < end {
            let object = self.next[at];
            if object >= end {
                return end;
            }
            if !self.suits_at(known, object, want) {
                return object;
            }
            at = object + 1;
        }
        end
    }
}
