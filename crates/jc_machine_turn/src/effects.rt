//! Instructions that read and write the operand stack alone (JVM Specification 6.5).
ghost use Rattle.std.specs.Prelude.{◌≡◌, ◌+◌, ◌<◌, ◌≤◌, ◌^◌, ◌++◌, length, drop, option_map};
ghost use Rattle.jc_machine_model.specs.World.{Shared};
ghost use Rattle.jc_machine_model.specs.Effects.{effect, results_at};
ghost use Rattle.jc_machine_model.specs.Perform.{by_effect};
ghost use Rattle.jc_machine_numbers.specs.Descriptions.{effect_on};
ghost use Rattle.jc_machine_memory.specs.Values.{value_of};
ghost use Rattle.jc_machine_turn.specs.Nexts.{result_of, Settles};
ghost use Rattle.jc_machine_turn.specs.Tops.{operand_at};

use crate::Next;
use crate::frames::{go_on, replace};
use jc_machine_memory::{Frame, Value};
use jc_machine_numbers::{Effect, Operand, effect};

/// An operand of the stack, or none.
pub fn operand(value: Option<Value>) -> Operand
    ensures { result ≡ operand_at (option_map value_of value) }
{
    match value {
        None => Operand::Absent,
        Some(Value::Int(x)) => Operand::Int(x),
        Some(Value::Long(x)) => Operand::Long(x),
        Some(Value::Null) => Operand::Null,
        Some(_) => Operand::Reference,
    }
}

/// Puts copies of the operands at these places, counted from the top, in place of so many operands. The first one stands
/// on top.
fn move_operands(frame: &mut Frame, taken: usize, places: &[u8])
    requires { length frame.old.content.locals + (length places.now + length frame.old.content.stack) ≤ 1010 }
    ensures { frame.new
        ≡ record frame.old {
          content = record frame.old.content {
            stack = results_at places.now frame.old.content.stack ++ drop taken frame.old.content.stack;
          };
        } }
{
    match places {
        [] => frame.cut(taken),
        [first, rest @ ..] => {
            let value = frame.peek(*first as usize).unwrap_or(Value::Null);
            move_operands(frame, taken, rest);
            frame.push(value);
        }
    }
}

/// What the instruction with an opcode does with the operands on top, if it reads and writes the operand stack alone.
fn effect_on_top(frame: &Frame, op: u8) -> Effect
    ensures { effect_on result frame.now.content.stack ≡ effect op frame.now.content.stack }
{
    let first = frame.peek(0);
    let second = frame.peek(1);
    let third = frame.peek(2);
    let fourth = frame.peek(3);
    effect(
        op,
        operand(first),
        operand(second),
        operand(third),
        operand(fourth),
    )
}

/// Executes the instruction with an opcode, if it reads and writes the operand stack alone.
pub fn compute(frame: &mut Frame, op: u8) -> Next
    requires place { frame.old.content.place + 1 < 2 ^ 32 }
    requires room { length frame.old.content.locals + length frame.old.content.stack ≤ 1004 }
    ensures result { (s : Shared) → result_of result s frame.new.content ≡ by_effect (effect op frame.old.content.stack) s frame.old.content }
    ensures kept { Settles result frame.old.content frame.new.content }
    ensures memory { frame.new.memory ≡ frame.old.memory }
{
    match effect_on_top(frame, op) {
        Effect::Int { taken, value } => {
            replace(frame, taken as usize, Value::Int(value));
            Next::Goes
        }
        Effect::Long { taken, value } => {
            replace(frame, taken as usize, Value::Long(value));
            Next::Goes
        }
        Effect::Null => {
            replace(frame, 0, Value::Null);
            Next::Goes
        }
        Effect::Moves { taken, places } => {
            move_operands(frame, taken as usize, places);
            go_on(frame);
            Next::Goes
        }
        Effect::Raises(thrown) => Next::Raises(thrown),
        Effect::Unfit => Next::Stuck,
    }
}
