//! Conditional jumps and switches (JVM Specification 6.5).
ghost use Rattle.std.specs.Prelude.{◌≡◌, ◌+◌, ◌<◌, ◌^◌, List, slice_get, option_map};
ghost use Rattle.jc_methods.specs.Insn.{IsWellFormed};
ghost use Rattle.jc_plan.specs.Chosen.{key_target};
ghost use Rattle.jc_machine_model.specs.Values as values;
ghost use Rattle.jc_machine_model.specs.World.{Shared};
ghost use Rattle.jc_machine_model.specs.Results.{goes};
ghost use Rattle.jc_machine_model.specs.Jumps.{test_of, by_test, by_switch};
ghost use Rattle.jc_machine_numbers.specs.Operands.{TellsSame};
ghost use Rattle.jc_machine_memory.specs.Values.{value_of};
ghost use Rattle.jc_machine_turn.specs.Nexts.{result_of, Settles};

use crate::Next;
use crate::effects::operand;
use crate::frames::take;
use crate::values::is_same;
use jc_machine_code::switch_target;
use jc_machine_memory::{Frame, Value};
use jc_machine_numbers::{Test, test};
use jc_methods::Insn;

/// Goes on where a jump leads.
pub fn jump(frame: &mut Frame, to: u32) -> Next
    ensures result { (s : Shared) → result_of result s frame.new.content ≡ goes s (record frame.old.content { place = to }) }
    ensures kept { Settles result frame.old.content frame.new.content }
    ensures memory { frame.new.memory ≡ frame.old.memory }
{
    frame.go_to(to);
    Next::Goes
}

/// Whether the two references on top are one.
fn is_one_on_top(first: Option<Value>, second: Option<Value>) -> bool
    ensures { (stack : List values.Value) → option_map value_of first ≡ slice_get stack 0 → option_map value_of second ≡ slice_get stack 1
        → TellsSame result stack }
{
    let Some(b) = first else {
        return false;
    };
    let Some(a) = second else {
        return false;
    };
    is_same(a, b)
}

/// Tests the operands on top, and goes on where the jump leads, or at the next instruction.
pub fn branch(frame: &mut Frame, op: u8, to: u32) -> Next
    requires { frame.old.content.place + 1 < 2 ^ 32 }
    ensures result { (s : Shared) → result_of result s frame.new.content ≡ by_test (test_of op frame.old.content.stack) to s frame.old.content }
    ensures kept { Settles result frame.old.content frame.new.content }
    ensures memory { frame.new.memory ≡ frame.old.memory }
{
    let first = frame.peek(0);
    let second = frame.peek(1);
    match test(
        op,
        operand(first),
        operand(second),
        is_one_on_top(first, second),
    ) {
        Test::Takes { taken, jumps } => {
            take(frame, taken as usize);
            if jumps {
                frame.go_to(to);
            }
            Next::Goes
        }
        Test::Unfit => Next::Stuck,
    }
}

/// Goes on where a switch leads with the key on top.
pub fn switch(frame: &mut Frame, insn: &Insn) -> Next
    requires { IsWellFormed insn.now }
    ensures result { (s : Shared) → result_of result s frame.new.content ≡ by_switch (key_target insn.now) frame.old.content.stack s frame.old.content }
    ensures kept { Settles result frame.old.content frame.new.content }
    ensures memory { frame.new.memory ≡ frame.old.memory }
{
    let Some(value) = frame.peek(0) else {
        return Next::Stuck;
    };
    let Value::Int(key) = value else {
        return Next::Stuck;
    };
    frame.cut(1);
    frame.go_to(switch_target(insn, key));
    Next::Goes
}
