//! How a frame goes on behind an instruction.
ghost use Rattle.std.specs.Prelude.{◌≡◌, ◌+◌, ◌<◌, ◌≤◌, ◌^◌, ◌∷◌, length, drop};
ghost use Rattle.jc_machine_model.specs.World.{Shared};
ghost use Rattle.jc_machine_model.specs.Results.{next_with, goes_with};
ghost use Rattle.jc_machine_memory.specs.Values.{value_of};
ghost use Rattle.jc_machine_turn.specs.Nexts.{result_of, Settles};

use crate::Next;
use jc_machine_memory::{Frame, Value};

/// Goes on at the next instruction.
pub fn go_on(frame: &mut Frame)
    requires { frame.old.content.place + 1 < 2 ^ 32 }
    ensures { frame.new ≡ record frame.old { content = next_with frame.old.content frame.old.content.stack } }
{
    let place = frame.place();
    frame.go_to(place + 1);
}

/// Takes so many operands and goes on at the next instruction.
pub fn take(frame: &mut Frame, count: usize)
    requires { frame.old.content.place + 1 < 2 ^ 32 }
    ensures { frame.new ≡ record frame.old { content = next_with frame.old.content (drop count frame.old.content.stack) } }
{
    frame.cut(count);
    go_on(frame);
}

/// Puts a value in place of so many operands and goes on at the next instruction.
pub fn replace(frame: &mut Frame, count: usize, value: Value)
    requires place { frame.old.content.place + 1 < 2 ^ 32 }
    requires room { length frame.old.content.locals + length frame.old.content.stack ≤ 1004 }
    ensures { frame.new ≡ record frame.old { content = next_with frame.old.content (value_of value ∷ drop count frame.old.content.stack) } }
{
    frame.cut(count);
    frame.push(value);
    go_on(frame);
}

/// Pushes a value.
pub fn push(value: Value, frame: &mut Frame) -> Next
    requires place { frame.old.content.place + 1 < 2 ^ 32 }
    requires room { length frame.old.content.locals + length frame.old.content.stack ≤ 1004 }
    ensures result { (s : Shared) → result_of result s frame.new.content ≡ goes_with s frame.old.content (value_of value ∷ frame.old.content.stack) }
    ensures kept { Settles result frame.old.content frame.new.content }
    ensures memory { frame.new.memory ≡ frame.old.memory }
{
    replace(frame, 0, value);
    Next::Goes
}
