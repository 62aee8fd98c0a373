//! Calls and returns (JVM Specification 2.6.4, 2.11.8; 6.5, invokestatic, ireturn, lreturn, areturn).
ghost use Rattle.std.specs.Prelude.{◌≡◌, ◌+◌, ◌<◌, ◌≤◌, List, Option, Some, length, take, reverse, is_some, option_map};
ghost use Rattle.jc_bytes.specs.Descriptor.{FieldType};
ghost use Rattle.jc_machine_model.specs.World.{Shared};
ghost use Rattle.jc_machine_model.specs.Calls.{Arguments, taken_for, spread_value, spread_values, locals_for, by_return};
ghost use Rattle.jc_machine_model.specs.Step.{new_frame};
ghost use Rattle.jc_machine_code.specs.Types.{computational, return_narrowing};
ghost use Rattle.jc_machine_memory.specs.Values.{value_of};
ghost use Rattle.jc_machine_turn.specs.Nexts.{result_of, Settles};
ghost use Rattle.jc_machine_turn.specs.Parameters.{AreParameters, is_argument, with_slots};

use crate::Next;
use crate::values::{is_of, is_pair, stored};
use jc_machine_code::ComputationalType;
use jc_machine_memory::{Frame, Value};
use jc_machine_numbers::Narrowing;
use jc_programs::Entry;

/// Whether a value is an argument for a parameter.
fn is_argument(value: Option<Value>, parameter: Option<ComputationalType>) -> bool
    ensures { result ≡ is_argument (option_map value_of value) (option_map computational parameter) }
{
    match value {
        Some(value) => match parameter {
            Some(kind) => is_of(value, kind),
            None => false,
        },
        None => false,
    }
}

/// Whether the operands on top are arguments for these parameters, the last of which stands on top.
pub fn arguments_fit(frame: &Frame, parameters: &[Option<ComputationalType>]) -> bool
    ensures { (types : List FieldType) → AreParameters types parameters.now → result ≡ is_some (taken_for types frame.now.content.stack) }
{
    match parameters {
        [] => true,
        [first, rest @ ..] => {
            let value = frame.peek(rest.len());
            arguments_fit(frame, rest) && is_argument(value, *first)
        }
    }
}

/// Puts an argument into the local variables of a callee, and says which slot comes next.
fn put_argument(frame: &mut Frame, slot: usize, value: Value) -> usize
    requires { slot < 1004 }
    ensures put { frame.new
        ≡ record frame.old { content = record frame.old.content { locals = with_slots frame.old.content.locals slot (spread_value (value_of value)) } } }
    ensures next { result ≡ slot + length (spread_value (value_of value)) }
{
    frame.set_local(slot, Some(value));
    if is_pair(value) {
        frame.set_local(slot + 1, None);
        slot + 2
    } else {
        slot + 1
    }
}

/// Puts the arguments into the local variables of a callee, from a slot on. They are the values on top of the caller's
/// stack, the last of them the topmost.
fn put_arguments(caller: &Frame, frame: &mut Frame, count: usize, slot: usize)
    requires there { count ≤ length caller.now.content.stack }
    requires room { slot + length (spread_values (reverse (take count caller.now.content.stack))) ≤ 1004 }
    ensures { frame.new
        ≡ record frame.old {
          content = record frame.old.content {
            locals = with_slots frame.old.content.locals slot (spread_values (reverse (take count caller.now.content.stack)));
          };
        } }
{
    if count == 0 {
        return;
    }
    let Some(value) = caller.peek(count - 1) else {
        return;
    };
    let next = put_argument(frame, slot, value);
    put_arguments(caller, frame, count - 1, next);
}

/// Makes the frame of a method that is called: the arguments, which are taken off the caller's stack, in their slots, and
/// nothing in the other local variables.
pub fn enter_callee(
    caller: &mut Frame,
    frame: &mut Frame,
    callee: Entry,
    parameters: &[Option<ComputationalType>],
    max_locals: u16,
)
    requires fit { (types : List FieldType) × (a : Arguments) × AreParameters types parameters.now
        × (taken_for types caller.old.content.stack ≡ Some a) × (length (spread_values a.values) ≤ max_locals) }
    requires few { max_locals ≤ 1004 }
    ensures caller { (types : List FieldType) (a : Arguments) → AreParameters types parameters.now → taken_for types caller.old.content.stack ≡ Some a
        → caller.new.content ≡ record caller.old.content { stack = a.rest } }
    ensures callee { (types : List FieldType) (a : Arguments) → AreParameters types parameters.now → taken_for types caller.old.content.stack ≡ Some a
        → frame.new.content ≡ new_frame callee (locals_for max_locals a.values) }
    ensures memory { (caller.new.memory ≡ caller.old.memory) × (frame.new.memory ≡ frame.old.memory) }
{
    frame.enter(callee, max_locals);
    put_arguments(caller, frame, parameters.len(), 0);
    caller.cut(parameters.len());
}

/// Returns the top value, if it is of the type; an int as the type has it that the method returns.
pub fn return_top(kind: ComputationalType, narrowing: Narrowing, frame: &Frame) -> Next
    ensures result { (type : Option FieldType) (s : Shared) → return_narrowing type ≡ narrowing
        → result_of result s frame.now.content ≡ by_return (computational kind) type frame.now.content.stack }
    ensures kept { Settles result frame.now.content frame.now.content }
{
    let Some(value) = frame.peek(0) else {
        return Next::Stuck;
    };
    if !is_of(value, kind) {
        return Next::Stuck;
    }
    Next::Leaves(Some(stored(value, narrowing)))
}
