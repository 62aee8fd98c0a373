//! The turn of a thread that runs (JVM Specification 2.11).
ghost use Rattle.std.specs.Prelude.{◌≡◌, None, MatchOption};
ghost use Rattle.jc_machine_code.specs.Prepared.{IsPrepared};
ghost use Rattle.jc_machine_turn.specs.Nexts.{ComesTo, KeepsFrame, KeepsShared};
ghost use Rattle.jc_machine_model.specs.World.{running};
ghost use Rattle.jc_machine_model.specs.Programs.{IsProgram};
ghost use Rattle.jc_machine_model.specs.Fits.{FitsWorld};
ghost use Rattle.jc_machine_model.specs.Step.{located, operation_at, turn_of};
ghost use Rattle.jc_machine.specs.Turned.{alone, after_of, StandsBefore};

use crate::calling::{call, leave};
use crate::thread_stack::ThreadStack;
use crate::thread_turn::{ProbeHit, ThreadTurn};
use crate::throwing::{Throwable, raise, throw};
use jc_machine_code::PreparedProgram;
use jc_machine_turn::{Next, Shared};
use jc_methods::Insn;
use jc_programs::{End, Entry, Program};

/// The instruction at a place of a method, if there is one.
fn insn_at(program: &Program, method: Entry, place: u32) -> Option<&Insn>
    ensures { MatchOption result (located program.now method place ≡ None) (λ insn. StandsBefore (located program.now method place) insn.now) }
{
    let class = program.classes.as_slice().get(method.class as usize)?;
    let body = class.bodies.as_slice().get(method.method as usize)?;
    body.code.as_slice().get(place as usize)
}

/// Does what the instruction does at which a thread stands that fits the program, but for the frames below.
fn act(
    prepared: &PreparedProgram,
    program: &Program,
    shared: &mut Shared,
    frames: &mut ThreadStack,
) -> Next
    requires program { IsProgram program.now }
    requires prepared { IsPrepared program.now prepared.now }
    requires fits { FitsWorld program.now (alone shared.old.content frames.old) }
    ensures result { ComesTo result shared.new.content frames.new.top (operation_at program.now (located program.now frames.old.top.method frames.old.top.place))
        shared.old.content frames.old.top }
    ensures frame_kept { KeepsFrame result frames.old.top frames.new.top }
    ensures waiting_kept { frames.new.waiting ≡ frames.old.waiting }
    ensures shared_kept { KeepsShared result shared.old.content shared.new.content }
    ensures memory { frames.new.memory ≡ frames.old.memory }
    ensures shared_memory { shared.new.memory ≡ shared.old.memory }
{
    let method = frames.method();
    let place = frames.place();
    let Some(insn) = insn_at(program, method, place) else {
        return Next::Stuck;
    };
    let operation = prepared.operation(method, place);
    frames.perform(operation, insn, shared)
}

/// One turn of a thread that runs, and fits the program.
pub fn turn_thread(
    prepared: &PreparedProgram,
    program: &Program,
    shared: &mut Shared,
    frames: &mut ThreadStack,
) -> ThreadTurn
    requires program { IsProgram program.now }
    requires prepared { IsPrepared program.now prepared.now }
    requires fits { FitsWorld program.now (alone shared.old.content frames.old) }
    ensures turn { after_of result frames.new shared.new.content ≡ turn_of program.now shared.old.content (running frames.old.top frames.old.waiting) }
    ensures memory { frames.new.memory ≡ frames.old.memory }
    ensures shared_memory { shared.new.memory ≡ shared.old.memory }
{
    match act(prepared, program, shared, frames) {
        Next::Goes => ThreadTurn::to(End::Running),
        Next::Hits { class, id } => ThreadTurn {
            end: End::Running,
            hit: Some(ProbeHit { class, id }),
        },
        Next::Calls { callee } => call(prepared, program, shared, frames, callee),
        Next::Leaves(value) => leave(frames, value),
        Next::Raises(thrown) => raise(prepared, shared, frames, thrown),
        Next::Throws { thrown, value } => {
            throw(prepared, shared, frames, Throwable { thrown, value })
        }
        Next::Stuck => ThreadTurn::to(End::Stuck),
    }
}
