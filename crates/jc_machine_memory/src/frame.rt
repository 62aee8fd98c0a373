//! Frames.
ghost use Rattle.std.specs.Prelude.{◌≡◌, ◌+◌, ◌-◌, ◌<◌, ◌≤◌, [], ◌∷◌, ◌++◌, None, length, drop, replicate, slice_get, slice_set, slice_index_or, option_map, IfOk};
ghost use Rattle.jc_machine_memory.specs.Values.{value_of};

use crate::cell::Cell;
use crate::value::Value;
use jc_bytes::Memory;
use jc_programs::Entry;
use std::alloc::Global;
use std::marker::Model;

/// The most local variables and operands that a frame has room for: the slots of the widest method that the machine
/// executes, and six more. No instruction pushes more than six operands, so a frame whose values are at most those slots
/// has room for what any instruction pushes.
pub const MOST_CELLS: usize = 1010;

/// A frame (JVM Specification 2.6), in cells that are taken once.
#[derive(Drop)]
pub struct Frame {
    method: Entry,
    place: u32,
    locals: usize,
    height: usize,
    cells: Vec<Cell>,
}

impl Model for Frame {
    ghost use Rattle.jc_machine_memory.specs.Frames.{FrameSeen};

    ghost Value = { FrameSeen };

    ghost use Rattle.jc_machine_memory.specs.Frames.{frame_of, IsFrame};

    ghost view = { frame_of };

    ghost invariant = { IsFrame };
}

/// Empties so many cells, from the first on.
fn clear(cells: &mut [Cell], count: usize)
    requires { count ≤ length cells.old }
    ensures { cells.new ≡ replicate count Cell.Empty ++ drop count cells.old }
{
    cells[..count].fill(Cell::Empty);
}

impl Frame {
    /// A frame without local variables and operands, and room for as many as a frame may have.
    ///
    /// # Errors
    ///
    /// `Memory` where memory was refused.
    pub fn new(alloc: Global, method: Entry) -> Result<Frame, Memory>
        ensures { IfOk result (λ frame. frame.content ≡ record { method = method; place = 0; locals = []; stack = [] }) }
    {
        let cells = vec![in alloc; Cell::Empty; MOST_CELLS]?;
        Ok(Frame {
            method,
            place: 0,
            locals: 0,
            height: 0,
            cells,
        })
    }

    /// The frame of a method that is called: so many local variables without a value, and no operands.
    pub fn enter(&mut self, method: Entry, locals: u16)
        requires { locals ≤ 1010 }
        ensures { self.new ≡ record self.old { content = record { method = method; place = 0; locals = replicate locals None; stack = [] } } }
    {
        self.method = method;
        self.place = 0;
        self.locals = locals as usize;
        self.height = 0;
        clear(&mut self.cells, locals as usize);
    }

    /// The body of its method.
    pub fn method(&self) -> Entry
        ensures { result ≡ self.now.content.method }
    {
        self.method
    }

    /// The instruction that comes next.
    pub fn place(&self) -> u32
        ensures { result ≡ self.now.content.place }
    {
        self.place
    }

    /// Goes on at an instruction.
    pub fn go_to(&mut self, place: u32)
        ensures { self.new ≡ record self.old { content = record self.old.content { place = place } } }
    {
        self.place = place;
    }

    /// How many values the operand stack has.
    pub fn height(&self) -> usize
        ensures { result ≡ length self.now.content.stack }
    {
        self.height
    }

    /// How many local variables there are.
    pub fn locals(&self) -> usize
        ensures { result ≡ length self.now.content.locals }
    {
        self.locals
    }

    /// The value that begins in a local variable, if one does. There is none past the last.
    pub fn local(&self, slot: usize) -> Option<Value>
        ensures { option_map value_of result ≡ slice_index_or self.now.content.locals slot None }
    {
        if slot >= self.locals {
            return None;
        }
        self.cells[slot].value()
    }

    /// Puts a value into a local variable, or empties it. Nothing changes past the last.
    pub fn set_local(&mut self, slot: usize, value: Option<Value>)
        ensures { self.new ≡ record self.old { content = record self.old.content { locals = slice_set self.old.content.locals slot (option_map value_of value) } } }
    {
        if slot < self.locals {
            let cell = Cell::of_local(value);
            self.cells[slot] = cell;
        }
    }

    /// The value so far below the top of the operand stack, if there is one.
    pub fn peek(&self, depth: usize) -> Option<Value>
        ensures { option_map value_of result ≡ slice_get self.now.content.stack depth }
    {
        if depth >= self.height {
            return None;
        }
        let top = self.locals + self.height;
        Some(self.cells[top - 1 - depth].on_stack())
    }

    /// Puts a value on the operand stack.
    pub fn push(&mut self, value: Value)
        requires { length self.old.content.locals + length self.old.content.stack < 1010 }
        ensures { self.new ≡ record self.old { content = record self.old.content { stack = value_of value ∷ self.old.content.stack } } }
    {
        let top = self.locals + self.height;
        let cell = Cell::of(value);
        self.cells[top] = cell;
        self.height += 1;
    }

    /// Takes so many values off the operand stack, or all that there are.
    pub fn cut(&mut self, count: usize)
        ensures { self.new ≡ record self.old { content = record self.old.content { stack = drop count self.old.content.stack } } }
    {
        self.height = self.height.saturating_sub(count);
    }
}
