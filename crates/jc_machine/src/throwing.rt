//! Throwing (JVM Specification 2.10, 2.6.5).
ghost use Rattle.std.specs.Prelude.{◌≡◌, ◌∷◌};
ghost use Rattle.std.specs.List.{AllByRecursion};
ghost use Rattle.jc_programs.specs.declared.program.Program.{Program};
ghost use Rattle.jc_machine_code.specs.Prepared.{IsPrepared};
ghost use Rattle.jc_machine_model.specs.Step.{unwound, placed, thrown_in};
ghost use Rattle.jc_machine_memory.specs.Values.{value_of};
ghost use Rattle.jc_machine.specs.Room.{AreBounded};
ghost use Rattle.jc_machine.specs.Turned.{after_of, raised_with, thrown_to};

use crate::thread_stack::ThreadStack;
use crate::thread_turn::ThreadTurn;
use jc_machine_code::PreparedProgram;
use jc_machine_memory::Value;
use jc_machine_turn::Shared;
use jc_programs::{End, Thrown};

/// A throwable, and its class.
#[derive(Clone, Copy, Debug)]
pub struct Throwable {
    pub thrown: Thrown,
    pub value: Value,
}

/// Leaves frames until one has a handler, and goes on there. Says whether one was found; else the thread has ended.
fn unwind(prepared: &PreparedProgram, frames: &mut ThreadStack, throwable: Throwable) -> bool
    requires { AreBounded frames.old.top frames.old.waiting }
    ensures thread { (program : Program) → IsPrepared program prepared.now
        → thrown_to result throwable.thrown frames.new ≡ unwound program throwable.thrown (value_of throwable.value) (frames.old.top ∷ frames.old.waiting) }
    ensures memory { frames.new.memory ≡ frames.old.memory }
{
    'leaving: loop {
        let handler = prepared.handler(frames.method(), frames.place(), throwable.thrown);
        if let Some(target) = handler {
            frames.handle(target, throwable.value);
            return true;
        }
        if !frames.leave() {
            return false;
        }
    }
}

/// Throws a throwable in the frame on top.
pub fn throw(
    prepared: &PreparedProgram,
    shared: &mut Shared,
    frames: &mut ThreadStack,
    throwable: Throwable,
) -> ThreadTurn
    requires { AreBounded frames.old.top frames.old.waiting }
    ensures turn { (program : Program) → IsPrepared program prepared.now
        → after_of result frames.new shared.new.content
        ≡ thrown_in program (raised_with throwable shared.old.content) (frames.old.top ∷ frames.old.waiting) }
    ensures memory { frames.new.memory ≡ frames.old.memory }
    ensures shared_memory { shared.new.memory ≡ shared.old.memory }
{
    shared.set_raised();
    if unwind(prepared, frames, throwable) {
        ThreadTurn::to(End::Running)
    } else {
        ThreadTurn::to(End::Threw(throwable.thrown))
    }
}

/// The throwable of a class that is raised: a new one, or the one OutOfMemoryError where no room is left.
fn place(shared: &mut Shared, thrown: Thrown) -> Throwable
    ensures throwable { raised_with result shared.new.content ≡ placed thrown shared.old.content }
    ensures memory { shared.new.memory ≡ shared.old.memory }
{
    let memory_error = Throwable {
        thrown: Thrown::OutOfMemoryError,
        value: Value::MemoryError,
    };
    if let Thrown::OutOfMemoryError = thrown {
        return memory_error;
    }
    match shared.make_throwable(thrown) {
        Some(number) => Throwable {
            thrown,
            value: Value::Object(number),
        },
        None => memory_error,
    }
}

/// Makes a throwable of a class, and throws it in the frame on top.
pub fn raise(
    prepared: &PreparedProgram,
    shared: &mut Shared,
    frames: &mut ThreadStack,
    thrown: Thrown,
) -> ThreadTurn
    requires { AreBounded frames.old.top frames.old.waiting }
    ensures turn { (program : Program) → IsPrepared program prepared.now
        → after_of result frames.new shared.new.content ≡ thrown_in program (placed thrown shared.old.content) (frames.old.top ∷ frames.old.waiting) }
    ensures memory { frames.new.memory ≡ frames.old.memory }
    ensures shared_memory { shared.new.memory ≡ shared.old.memory }
{
    let throwable = place(shared, thrown);
    throw(prepared, shared, frames, throwable)
}
