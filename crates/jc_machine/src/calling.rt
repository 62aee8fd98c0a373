//! Calls and returns (JVM Specification 2.6.4, 2.6.5).
ghost use Rattle.std.specs.Prelude.{◌≡◌, ◌∷◌, ◌≤◌, ℕ, length, option_map};
ghost use Rattle.std.specs.List.{AllByRecursion};
ghost use Rattle.jc_programs.specs.declared.program.Program.{Program as ProgramSeen};
ghost use Rattle.jc_programs.specs.Members.{body_of};
ghost use Rattle.jc_machine_code.specs.Prepared.{IsPrepared};
ghost use Rattle.jc_machine_model.specs.World as world;
ghost use Rattle.jc_machine_model.specs.Programs.{IsProgram};
ghost use Rattle.jc_machine_model.specs.Step.{after, after_result, left, counted_frames, overflows};
ghost use Rattle.jc_machine_model.specs.Locked.{call_of};
ghost use Rattle.jc_machine_memory.specs.Values.{value_of};
ghost use Rattle.jc_machine.specs.Room.{IsBounded, AreBounded};
ghost use Rattle.jc_machine.specs.Turned.{after_of, FitsAfter};

use crate::seen::seen;
use crate::thread_stack::ThreadStack;
use crate::thread_turn::ThreadTurn;
use crate::throwing::raise;
use jc_machine_code::PreparedProgram;
use jc_machine_memory::Value;
use jc_machine_turn::Shared;
use jc_programs::{End, Entry, Program, Thrown};

/// Leaves the frame on top, with a value or without.
pub fn leave(frames: &mut ThreadStack, value: Option<Value>) -> ThreadTurn
    requires { AllByRecursion IsBounded frames.old.waiting }
    ensures turn { (s : world.Shared) → after_of result frames.new s ≡ after (left (option_map value_of value) frames.old.waiting) s }
    ensures memory { frames.new.memory ≡ frames.old.memory }
{
    if frames.leave() {
        frames.give_back(value);
        return ThreadTurn::to(End::Running);
    }
    match value {
        Some(value) => ThreadTurn::to(End::Returned(Some(seen(value)))),
        None => ThreadTurn::to(End::Returned(None)),
    }
}

/// Whether a frame of the method would be one too many. Frames of `$jacocoInit` don't count.
fn overflows(prepared: &PreparedProgram, frames: &ThreadStack, callee: Entry) -> bool
    ensures { (program : ProgramSeen) → IsPrepared program prepared.now → counted_frames program frames.now.waiting ≡ length frames.now.waiting
        → result ≡ overflows program callee (frames.now.top ∷ frames.now.waiting) }
{
    if prepared.is_init(callee) {
        return false;
    }
    if prepared.is_init(frames.method()) {
        frames.waiting() >= 128
    } else {
        frames.waiting() >= 127
    }
}

/// Calls a method with the operands on top, in a turn of a thread whose frames fit the program then.
pub fn call(
    prepared: &PreparedProgram,
    program: &Program,
    shared: &mut Shared,
    frames: &mut ThreadStack,
    callee: Entry,
) -> ThreadTurn
    requires program { IsProgram program.now }
    requires prepared { IsPrepared program.now prepared.now }
    requires bounds { AreBounded frames.old.top frames.old.waiting }
    requires counted { counted_frames program.now frames.old.waiting ≡ length frames.old.waiting }
    requires fits { FitsAfter program.now
        (after_result program.now (call_of (body_of program.now callee) callee frames.old.top) shared.old.content frames.old.top frames.old.waiting) }
    ensures turn { after_of result frames.new shared.new.content
        ≡ after_result program.now (call_of (body_of program.now callee) callee frames.old.top) shared.old.content frames.old.top frames.old.waiting }
    ensures memory { frames.new.memory ≡ frames.old.memory }
    ensures shared_memory { shared.new.memory ≡ shared.old.memory }
{
    let Some(method) = prepared.method(callee) else {
        return ThreadTurn::to(End::Stuck);
    };
    if !frames.arguments_fit(method) {
        return ThreadTurn::to(End::Stuck);
    }
    if overflows(prepared, frames, callee) {
        return raise(prepared, shared, frames, Thrown::StackOverflowError);
    }
    frames.enter(callee, method);
    ThreadTurn::to(End::Running)
}
