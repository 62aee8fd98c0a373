//! One instruction.
ghost use Rattle.std.specs.Prelude.{◌≡◌, ◌+◌, ◌<◌, ◌≤◌, ◌^◌, length};
ghost use Rattle.jc_methods.specs.Insn.{IsWellFormed};
ghost use Rattle.jc_machine_model.specs.Operations as operations;
ghost use Rattle.jc_machine_code.specs.Shown.{Shows};
ghost use Rattle.jc_machine_code.specs.Invoked.{GoesByKey, IsSwitch};
ghost use Rattle.jc_machine_turn.specs.Nexts.{ComesTo, KeepsFrame, KeepsShared};

use crate::arrays::{make_array, measure, read, write};
use crate::calls::return_top;
use crate::effects::compute;
use crate::frames::push;
use crate::jumps::{branch, jump, switch};
use crate::locals::{count, load, store};
use crate::objects::{build, cast, fetch, make, throw_top};
use crate::output::print_top;
use crate::statics::{get, put};
use crate::{Next, Shared};
use jc_machine_code::Operation;
use jc_machine_memory::{Frame, Value};
use jc_methods::Insn;

/// Does what an instruction does to its frame and to what all threads share (JVM Specification 6.5). `insn` is the
/// instruction itself, whose arms a switch goes by. A call is left to be made. No memory is taken.
#[tactic(auto, unfolding(jc_machine_model::specs::Perform::perform))]
pub fn perform(operation: Operation, insn: &Insn, shared: &mut Shared, frame: &mut Frame) -> Next
    requires insn { IsWellFormed insn.now }
    requires place { frame.old.content.place + 1 < 2 ^ 32 }
    requires room { length frame.old.content.locals + length frame.old.content.stack ≤ 1004 }
    ensures result { (d : operations.Operation) → Shows operation d
        → (IsSwitch operation → GoesByKey d insn.now shared.old.content frame.old.content)
        → ComesTo result shared.new.content frame.new.content d shared.old.content frame.old.content }
    ensures frame_kept { KeepsFrame result frame.old.content frame.new.content }
    ensures shared_kept { KeepsShared result shared.old.content shared.new.content }
    ensures memory { frame.new.memory ≡ frame.old.memory }
    ensures shared_memory { shared.new.memory ≡ shared.old.memory }
{
    match operation {
        Operation::PushInt(x) => push(Value::Int(x), frame),
        Operation::PushLong(x) => push(Value::Long(x), frame),
        Operation::PushPrintStream => push(Value::PrintStream, frame),
        Operation::PushText { class } => push(Value::Text { class }, frame),
        Operation::PushProbes { class, count } => push(Value::Probes { class, count }, frame),
        Operation::Computes(op) => compute(frame, op),
        Operation::Loads { kind, slot } => load(frame, kind, slot),
        Operation::Stores { kind, slot } => store(frame, kind, slot),
        Operation::Counts { slot, by } => count(frame, slot, by),
        Operation::Tests { op, to } => branch(frame, op, to),
        Operation::Jumps { to } => jump(frame, to),
        Operation::Indexes | Operation::Matches => switch(frame, insn),
        Operation::Reads(types) => read(types, shared, frame),
        Operation::Writes(types) => write(types, shared, frame),
        Operation::MakesArray(kind) => make_array(kind, shared, frame),
        Operation::Measures => measure(shared, frame),
        Operation::Gets { class, field } => get(class, field, shared, frame),
        Operation::Puts {
            class,
            field,
            kind,
            narrowing,
        } => put(class, field, kind, narrowing, shared, frame),
        Operation::Invokes(callee) => Next::Calls { callee },
        Operation::Makes(thrown) => make(thrown, shared, frame),
        Operation::Builds(thrown) => build(thrown, shared, frame),
        Operation::Prints(line) => print_top(line, shared, frame),
        Operation::Fetches { class, init } => fetch(class, init, frame),
        Operation::Casts { class } => cast(class, frame),
        Operation::Returns { kind, narrowing } => return_top(kind, narrowing, frame),
        Operation::ReturnsNothing => Next::Leaves(None),
        Operation::ThrowsTop => throw_top(shared, frame),
        Operation::Outside => Next::Stuck,
    }
}
