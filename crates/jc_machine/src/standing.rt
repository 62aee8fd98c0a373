//! Where a thread stands, as those see it who decide on its turn (JVM Specification 2.6).
ghost use Rattle.std.specs.Prelude.{◌≡◌, ◌∷◌, ◌<◌, List, Some, length, slice_get, option_map};
ghost use Rattle.jc_programs.specs.declared.program.Program.{Program as ProgramSeen};
ghost use Rattle.jc_machine_code.specs.Prepared.{IsPrepared};
ghost use Rattle.jc_machine_model.specs.Programs.{IsProgram};
ghost use Rattle.jc_machine_model.specs.Values.{Value as ModelValue};
ghost use Rattle.jc_machine_model.specs.World.{running};
ghost use Rattle.jc_machine_model.specs.Step.{counted_frames};
ghost use Rattle.jc_machine_model.specs.Standings.{standing_of, stands, top_of, top_in};
ghost use Rattle.jc_machine_model.specs.Locked.{callee};
ghost use Rattle.jc_machine_memory.specs.Values.{value_of};
ghost use Rattle.jc_machine.specs.Machines.{world_of, Fits};
ghost use Rattle.jc_machine.specs.Standings.{standing_in, standing_seen, top_seen, callee_seen};

use crate::thread_stack::ThreadStack;
use crate::world::World;
use jc_machine_code::PreparedProgram;
use jc_machine_memory::Value;
use jc_machine_turn::Shared;
use jc_programs::{End, Entry, Program};

/// The frame on top of a thread, and how many frames there are.
#[derive(Clone, Copy, Debug, PartialEq, Eq)]
pub struct Standing {
    /// The number of the class of its method.
    pub class: u32,
    /// The number of its method's body in the class.
    pub body: u32,
    /// The instruction that comes next.
    pub at: u32,
    /// How many frames there are, those of `$jacocoInit` not counted.
    pub depth: u32,
}

/// The operand on top of a thread.
#[derive(Clone, Copy, Debug, PartialEq, Eq)]
pub enum Top {
    /// There is none.
    Empty,
    Null,
    /// An array or a throwable of the heap, by how many words those take that were made before it.
    Object(u32),
    /// A number, or a reference to something that takes no word of the heap.
    Other,
}

/// A synchronized method that a thread is about to call.
#[derive(Clone, Copy, Debug, PartialEq, Eq)]
pub struct Callee {
    /// The number of its class.
    pub class: u32,
    /// The number of its body in the class.
    pub body: u32,
}

/// Where a thread stands that runs.
fn frame_standing(prepared: &PreparedProgram, frames: &ThreadStack) -> Standing
    ensures { (program : ProgramSeen) → IsPrepared program prepared.now → counted_frames program frames.now.waiting ≡ length frames.now.waiting
        → Some (standing_in result) ≡ standing_of program (running frames.now.top frames.now.waiting) }
{
    let method = frames.method();
    Standing {
        class: method.class,
        body: method.method,
        at: frames.place(),
        depth: frames.depth(prepared),
    }
}

/// What a value on top of a stack is.
fn top_value(shared: &Shared, value: Value) -> Top
    ensures { (stack : List ModelValue) → top_seen result ≡ top_of shared.now.content.heap (value_of value ∷ stack) }
{
    match value {
        Value::Null => Top::Null,
        Value::Object(number) => Top::Object(shared.words_before(number)),
        Value::Int(_)
        | Value::Long(_)
        | Value::MemoryError
        | Value::PrintStream
        | Value::Probes { .. }
        | Value::Text { .. } => Top::Other,
    }
}

/// What the value on top of a stack is, if there is one.
fn top_operand(shared: &Shared, value: Option<Value>) -> Top
    ensures { (stack : List ModelValue) → option_map value_of value ≡ slice_get stack 0 → top_seen result ≡ top_of shared.now.content.heap stack }
{
    match value {
        Some(value) => top_value(shared, value),
        None => Top::Empty,
    }
}

/// A method that is called, if one is.
fn callee_of(method: Option<Entry>) -> Option<Callee>
    ensures { callee_seen result ≡ method }
{
    match method {
        Some(method) => Some(Callee {
            class: method.class,
            body: method.method,
        }),
        None => None,
    }
}

impl World {
    /// Where a thread stands. `None` exactly where it doesn't run. Takes no memory.
    pub fn stands(&self, thread: u32) -> Option<Standing>
        requires thread { thread < length self.now.threads }
        // It is told without the program, of each program for which the world was made.
        ensures { (program : ProgramSeen) → IsProgram program → Fits program self.now → standing_seen result ≡ stands program (world_of self.now) thread }
    {
        let t = thread as usize;
        match self.ends[t] {
            End::Running => Some(frame_standing(&self.prepared, &self.stacks[t])),
            _ => None,
        }
    }

    /// The operand on top of a thread; `Empty` where it doesn't run. Takes no memory.
    pub fn top(&self, thread: u32) -> Top
        requires thread { thread < length self.now.threads }
        ensures { top_seen result ≡ top_in (world_of self.now) thread }
    {
        let t = thread as usize;
        match self.ends[t] {
            End::Running => top_operand(&self.shared, self.stacks[t].top_value()),
            _ => Top::Empty,
        }
    }

    /// The method that a thread is about to call, if only its being synchronized keeps it from being called: by an `invokestatic`
    /// outside of `$jacocoInit`, of a method of another name. Takes no memory.
    pub fn callee(&self, program: &Program, thread: u32) -> Option<Callee>
        requires fits { Fits program.now self.now }
        requires thread { thread < length self.now.threads }
        ensures { callee_seen result ≡ callee program.now (world_of self.now) thread }
    {
        let t = thread as usize;
        match self.ends[t] {
            End::Running => callee_of(self.stacks[t].locked_callee(&self.prepared)),
            _ => None,
        }
    }
}
