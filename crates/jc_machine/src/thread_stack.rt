//! The frames of a thread.
ghost use Rattle.std.specs.Prelude.{◌≡◌, ◌<◌, ◌≤◌, List, [], ◌∷◌, length, replicate, None, Some, option_map, is_some, drop, slice_get, slice_set, IfOk, MatchBool};
ghost use Rattle.jc_bytes.specs.Descriptor.{FieldType};
ghost use Rattle.jc_methods.specs.Insn.{IsWellFormed};
ghost use Rattle.jc_programs.specs.declared.program.Program.{Program};
ghost use Rattle.jc_machine_model.specs.Operations as operations;
ghost use Rattle.jc_machine_model.specs.Calls.{Arguments, taken_for, spread_values};
ghost use Rattle.jc_machine_model.specs.Results.{next_with};
ghost use Rattle.jc_machine_model.specs.Step.{counted_frames, given_back, new_frame};
ghost use Rattle.jc_machine_model.specs.Locked.{callee_of_frame};
ghost use Rattle.jc_machine_memory.specs.Values.{value_of};
ghost use Rattle.jc_machine_code.specs.Shown.{Shows};
ghost use Rattle.jc_machine_code.specs.Prepared.{IsPrepared};
ghost use Rattle.jc_machine_code.specs.Invoked.{GoesByKey, IsSwitch};
ghost use Rattle.jc_machine_turn.specs.Nexts.{ComesTo, KeepsFrame, KeepsShared};
ghost use Rattle.jc_machine_turn.specs.Parameters.{AreParameters};
ghost use Rattle.jc_machine.specs.Room.{IsBounded};
ghost use Rattle.jc_machine.specs.Threads.{called};

use jc_bytes::Memory;
use jc_machine_code::{Operation, PreparedMethod, PreparedProgram};
use jc_machine_memory::{Frame, Value};
use jc_machine_turn::{Next, Shared, arguments_fit, enter_callee, perform};
use jc_methods::Insn;
use jc_programs::Entry;
use std::alloc::Global;
use std::marker::Model;
use std::mem;

/// How many frames of a thread wait at most, each for the one above it.
const MOST_WAITING: usize = 128;

/// The frames of a thread (JVM Specification 2.5.2), in memory that is taken once.
#[derive(Drop)]
pub struct ThreadStack {
    top: Frame,
    // Those that wait, the lowest first, and behind them those that aren't in use.
    others: Vec<Frame>,
    waiting: usize,
}

impl Model for ThreadStack {
    ghost use Rattle.jc_machine.specs.Threads.{ThreadFrames};

    ghost Value = { ThreadFrames };

    ghost use Rattle.jc_machine.specs.Stacks.{frames_of, IsThreadStack};

    ghost view = { frames_of };

    ghost invariant = { IsThreadStack };
}

/// Frames that aren't in use.
fn unused(alloc: Global, count: usize) -> Result<Vec<Frame>, Memory>
    ensures { IfOk result (λ frames. length frames.items ≡ count) }
{
    let mut frames = Vec::with_capacity(alloc, count)?;
    'making: for k in 0..count {
        let nowhere = Entry {
            class: 0,
            method: 0,
        };
        frames.push(Frame::new(alloc, nowhere)?)?;
    }
    Ok(frames)
}

impl ThreadStack {
    /// Room for 129 frames. No frame waits.
    ///
    /// # Errors
    ///
    /// `Memory` where memory was refused.
    pub fn new(alloc: Global) -> Result<ThreadStack, Memory>
        ensures { IfOk result (λ frames. frames.waiting ≡ []) }
    {
        let nowhere = Entry {
            class: 0,
            method: 0,
        };
        Ok(ThreadStack {
            top: Frame::new(alloc, nowhere)?,
            others: unused(alloc, MOST_WAITING)?,
            waiting: 0,
        })
    }

    /// How many frames wait.
    pub fn waiting(&self) -> usize
        ensures { result ≡ length self.now.waiting }
    {
        self.waiting
    }

    /// How many frames there are, those of `$jacocoInit` not counted, of which only the one on top may be one.
    pub fn depth(&self, prepared: &PreparedProgram) -> u32
        ensures { (program : Program) → IsPrepared program prepared.now → counted_frames program self.now.waiting ≡ length self.now.waiting
            → result ≡ counted_frames program (self.now.top ∷ self.now.waiting) }
    {
        let waiting = self.waiting as u32;
        if prepared.is_init(self.top.method()) {
            waiting
        } else {
            waiting + 1
        }
    }

    /// The operand on top, if there is one.
    pub fn top_value(&self) -> Option<Value>
        ensures { option_map value_of result ≡ slice_get self.now.top.stack 0 }
    {
        self.top.peek(0)
    }

    /// Drops the operand on top, and goes on at the next instruction.
    pub fn drop_top(&mut self)
        requires { IsBounded self.old.top }
        ensures { self.new ≡ record self.old { top = next_with self.old.top (drop 1 self.old.top.stack) } }
    {
        self.top.cut(1);
        let place = self.top.place();
        self.top.go_to(place + 1);
    }

    /// The method that the instruction calls at which the frame on top stands, if only its being synchronized keeps it from being
    /// called.
    pub fn locked_callee(&self, prepared: &PreparedProgram) -> Option<Entry>
        ensures { (program : Program) → IsPrepared program prepared.now → result ≡ callee_of_frame program self.now.top }
    {
        prepared.locked_callee(self.top.method(), self.top.place())
    }

    /// Whether the operands on top are arguments for the parameters of a method.
    pub fn arguments_fit(&self, method: &PreparedMethod) -> bool
        ensures { (types : List FieldType) → AreParameters types method.now.parameters → result ≡ is_some (taken_for types self.now.top.stack) }
    {
        arguments_fit(&self.top, method.parameters.as_slice())
    }

    /// Makes the frame on top wait, and puts the frame of a method that it calls on top. The operands on top of its stack
    /// become the arguments.
    pub fn enter(&mut self, callee: Entry, method: &PreparedMethod)
        requires fit { (types : List FieldType) × (a : Arguments) × AreParameters types method.now.parameters
            × (taken_for types self.old.top.stack ≡ Some a) × (length (spread_values a.values) ≤ method.now.max_locals) }
        requires few { method.now.max_locals ≤ 1004 }
        requires room { length self.old.waiting < 128 }
        ensures { (types : List FieldType) (a : Arguments) → AreParameters types method.now.parameters
            → taken_for types self.old.top.stack ≡ Some a → self.new ≡ called callee method.now.max_locals a self.old }
    {
        let frame = &mut self.others[self.waiting];
        enter_callee(
            &mut self.top,
            frame,
            callee,
            method.parameters.as_slice(),
            method.max_locals,
        );
        mem::swap(&mut self.top, frame);
        self.waiting += 1;
    }

    /// Leaves the frame on top. Says whether a frame waited, which is then on top; where none did nothing changes.
    pub fn leave(&mut self) -> bool
        ensures left { MatchBool result (self.old.waiting ≡ self.new.top ∷ self.new.waiting) ((self.old.waiting ≡ []) × (self.new ≡ self.old)) }
        ensures memory { self.new.memory ≡ self.old.memory }
    {
        if self.waiting == 0 {
            return false;
        }
        self.waiting -= 1;
        mem::swap(&mut self.top, &mut self.others[self.waiting]);
        true
    }

    // Leaves all frames but the lowest.
    fn leave_all(&mut self)
        ensures waiting { self.new.waiting ≡ [] }
        ensures memory { self.new.memory ≡ self.old.memory }
    {
        'leaving: while self.leave() {}
    }

    /// The method of the frame on top.
    pub fn method(&self) -> Entry
        ensures { result ≡ self.now.top.method }
    {
        self.top.method()
    }

    /// The instruction that comes next in the frame on top.
    pub fn place(&self) -> u32
        ensures { result ≡ self.now.top.place }
    {
        self.top.place()
    }

    /// Goes on at the handler of a throwable, which stands alone on the operand stack.
    pub fn handle(&mut self, target: u32, value: Value)
        requires { IsBounded self.old.top }
        ensures { self.new ≡ record self.old { top = record self.old.top { place = target; stack = value_of value ∷ [] } } }
    {
        let height = self.top.height();
        self.top.cut(height);
        self.top.push(value);
        self.top.go_to(target);
    }

    /// Goes on behind the call at which the frame on top waited, with the value that came back.
    pub fn give_back(&mut self, value: Option<Value>)
        requires { IsBounded self.old.top }
        ensures { self.new ≡ record self.old { top = given_back (option_map value_of value) self.old.top } }
    {
        if let Some(value) = value {
            self.top.push(value);
        }
        let place = self.top.place();
        self.top.go_to(place + 1);
    }

    /// Does what the instruction does at which the frame on top stands.
    pub fn perform(&mut self, operation: Operation, insn: &Insn, shared: &mut Shared) -> Next
        requires insn { IsWellFormed insn.now }
        requires bounds { IsBounded self.old.top }
        ensures result { (d : operations.Operation) → Shows operation d
            → (IsSwitch operation → GoesByKey d insn.now shared.old.content self.old.top)
            → ComesTo result shared.new.content self.new.top d shared.old.content self.old.top }
        ensures frame_kept { KeepsFrame result self.old.top self.new.top }
        ensures waiting_kept { self.new.waiting ≡ self.old.waiting }
        ensures shared_kept { KeepsShared result shared.old.content shared.new.content }
        ensures memory { self.new.memory ≡ self.old.memory }
        ensures shared_memory { shared.new.memory ≡ shared.old.memory }
    {
        perform(operation, insn, shared, &mut self.top)
    }

    /// One frame, of a method with so many local variables, none of which has a value.
    pub fn begin(&mut self, method: Entry, locals: u16)
        requires { locals ≤ 1004 }
        ensures { self.new ≡ record self.old { top = new_frame method (replicate locals None); waiting = [] } }
    {
        self.leave_all();
        self.top.enter(method, locals);
    }

    /// Puts a value into a local variable of the frame on top.
    pub fn set_local(&mut self, slot: usize, value: Value)
        ensures { self.new ≡ record self.old { top = record self.old.top { locals = slice_set self.old.top.locals slot (Some (value_of value)) } } }
    {
        self.top.set_local(slot, Some(value));
    }
}
