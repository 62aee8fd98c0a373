//! Local variables (JVM Specification 2.6.1): loads, stores and iinc (6.5).
ghost use Rattle.std.specs.Prelude.{◌≡◌, ◌+◌, ◌<◌, ◌≤◌, ◌^◌, None, length, slice_index_or};
ghost use Rattle.jc_machine_model.specs.World.{Shared};
ghost use Rattle.jc_machine_model.specs.Locals.{clear_before, put_local, by_load, by_store, by_count};
ghost use Rattle.jc_machine_code.specs.Types.{computational};
ghost use Rattle.jc_machine_memory.specs.Values.{value_of};
ghost use Rattle.jc_machine_turn.specs.Nexts.{result_of, Settles};

use crate::Next;
use crate::frames::{go_on, replace};
use crate::values::{is_of, is_pair};
use jc_machine_code::ComputationalType;
use jc_machine_memory::{Frame, Value};

/// Pushes the value of a local variable, if it is of the type.
pub fn load(frame: &mut Frame, kind: ComputationalType, slot: u16) -> Next
    requires place { frame.old.content.place + 1 < 2 ^ 32 }
    requires room { length frame.old.content.locals + length frame.old.content.stack ≤ 1004 }
    ensures result { (s : Shared) → result_of result s frame.new.content
        ≡ by_load (computational kind) (slice_index_or frame.old.content.locals slot None) s frame.old.content }
    ensures kept { Settles result frame.old.content frame.new.content }
    ensures memory { frame.new.memory ≡ frame.old.memory }
{
    let Some(value) = frame.local(slot as usize) else {
        return Next::Stuck;
    };
    if !is_of(value, kind) {
        return Next::Stuck;
    }
    replace(frame, 0, value);
    Next::Goes
}

/// A long that begins one slot before is lost.
fn clear_before(frame: &mut Frame, slot: usize)
    ensures { frame.new ≡ record frame.old { content = record frame.old.content { locals = clear_before slot frame.old.content.locals } } }
{
    if slot == 0 {
        return;
    }
    let before = frame.local(slot - 1);
    if let Some(value) = before {
        if is_pair(value) {
            frame.set_local(slot - 1, None);
        }
    }
}

/// Puts a value into a local variable.
fn put_local(frame: &mut Frame, slot: u16, value: Value)
    ensures { frame.new ≡ record frame.old { content = record frame.old.content { locals = put_local slot (value_of value) frame.old.content.locals } } }
{
    clear_before(frame, slot as usize);
    frame.set_local(slot as usize, Some(value));
    if is_pair(value) {
        frame.set_local(slot as usize + 1, None);
    }
}

/// Takes the top value, if it is of the type, into a local variable.
pub fn store(frame: &mut Frame, kind: ComputationalType, slot: u16) -> Next
    requires { frame.old.content.place + 1 < 2 ^ 32 }
    ensures result { (s : Shared) → result_of result s frame.new.content ≡ by_store (computational kind) slot frame.old.content.stack s frame.old.content }
    ensures kept { Settles result frame.old.content frame.new.content }
    ensures memory { frame.new.memory ≡ frame.old.memory }
{
    let Some(value) = frame.peek(0) else {
        return Next::Stuck;
    };
    if !is_of(value, kind) {
        return Next::Stuck;
    }
    frame.cut(1);
    put_local(frame, slot, value);
    go_on(frame);
    Next::Goes
}

/// Adds to an int in a local variable.
pub fn count(frame: &mut Frame, slot: u16, by: i16) -> Next
    requires { frame.old.content.place + 1 < 2 ^ 32 }
    ensures result { (s : Shared) → result_of result s frame.new.content
        ≡ by_count slot by (slice_index_or frame.old.content.locals slot None) s frame.old.content }
    ensures kept { Settles result frame.old.content frame.new.content }
    ensures memory { frame.new.memory ≡ frame.old.memory }
{
    let Some(value) = frame.local(slot as usize) else {
        return Next::Stuck;
    };
    let Value::Int(x) = value else {
        return Next::Stuck;
    };
    frame.set_local(slot as usize, Some(Value::Int(x.wrapping_add(by as i32))));
    go_on(frame);
    Next::Goes
}
