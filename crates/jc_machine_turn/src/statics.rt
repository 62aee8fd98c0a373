//! Static fields (JVM Specification 6.5, getstatic and putstatic).
ghost use Rattle.std.specs.Prelude.{◌≡◌, ◌+◌, ◌<◌, ◌≤◌, ◌^◌, Some, length};
ghost use Rattle.jc_bytes.specs.Descriptor.{FieldType};
ghost use Rattle.jc_machine_model.specs.Values.{computational_type};
ghost use Rattle.jc_machine_model.specs.Statics.{static_at, by_get, by_put};
ghost use Rattle.jc_machine_numbers.specs.Narrowings.{narrowing_of};
ghost use Rattle.jc_machine_code.specs.Types.{computational};
ghost use Rattle.jc_machine_turn.specs.Contents.{field_at};
ghost use Rattle.jc_machine_turn.specs.Nexts.{result_of, left_by, Settles, KeepsShared};

use crate::frames::{replace, take};
use crate::values::{is_of, stored};
use crate::{Next, Shared};
use jc_machine_code::ComputationalType;
use jc_machine_memory::Frame;
use jc_machine_numbers::Narrowing;

/// Pushes the value of a static field.
pub fn get(class: u32, field: u32, shared: &Shared, frame: &mut Frame) -> Next
    requires place { frame.old.content.place + 1 < 2 ^ 32 }
    requires room { length frame.old.content.locals + length frame.old.content.stack ≤ 1004 }
    ensures result { result_of result shared.now.content frame.new.content
        ≡ by_get (static_at shared.now.content.statics (record { class = class; field = field })) shared.now.content frame.old.content }
    ensures kept { Settles result frame.old.content frame.new.content }
    ensures memory { frame.new.memory ≡ frame.old.memory }
{
    match shared.static_value(class, field) {
        Some(value) => {
            replace(frame, 0, value);
            Next::Goes
        }
        None => Next::Stuck,
    }
}

/// Stores the top value, if it is of the type, into a static field; an int as the field's type has it.
pub fn put(
    class: u32,
    field: u32,
    kind: ComputationalType,
    narrowing: Narrowing,
    shared: &mut Shared,
    frame: &mut Frame,
) -> Next
    requires { frame.old.content.place + 1 < 2 ^ 32 }
    ensures result { (t : FieldType) → computational_type t ≡ Some (computational kind) → narrowing_of t ≡ narrowing
        → left_by result shared.new frame.new ≡ by_put (field_at class field) t frame.old.content.stack
        shared.old.content frame.old.content }
    ensures kept { Settles result frame.old.content frame.new.content }
    ensures shared_kept { KeepsShared result shared.old.content shared.new.content }
    ensures memory { frame.new.memory ≡ frame.old.memory }
    ensures shared_memory { shared.new.memory ≡ shared.old.memory }
{
    let Some(value) = frame.peek(0) else {
        return Next::Stuck;
    };
    if !is_of(value, kind) {
        return Next::Stuck;
    }
    shared.set_static(class, field, stored(value, narrowing));
    take(frame, 1);
    Next::Goes
}
