//! Throwables, and the probe array of a class.
ghost use Rattle.std.specs.Prelude.{◌≡◌, ◌+◌, ◌<◌, ◌≤◌, ◌^◌, length};
ghost use Rattle.jc_programs.specs.Throwables.{is_one};
ghost use Rattle.jc_machine_model.specs.World as world;
ghost use Rattle.jc_machine_model.specs.Values as values;
ghost use Rattle.jc_machine_model.specs.Heap.{throwable};
ghost use Rattle.jc_machine_model.specs.Objects.{made, thrown_of, by_build, by_throw, is_fetched, by_fetch, is_array_of, by_cast};
ghost use Rattle.jc_machine_memory.specs.Values.{value_of};
ghost use Rattle.jc_machine_turn.specs.Nexts.{result_of, Settles, KeepsShared};

use crate::frames::{go_on, replace, take};
use crate::{Next, Shared};
use jc_machine_memory::{Frame, HeapObject, Value};
use jc_programs::{ProbeInit, Thrown};

/// Makes a throwable.
pub fn make(thrown: Thrown, shared: &mut Shared, frame: &mut Frame) -> Next
    requires place { frame.old.content.place + 1 < 2 ^ 32 }
    requires room { length frame.old.content.locals + length frame.old.content.stack ≤ 1004 }
    ensures result { result_of result shared.new.content frame.new.content
        ≡ made 1 (throwable thrown) frame.old.content.stack shared.old.content frame.old.content }
    ensures kept { Settles result frame.old.content frame.new.content }
    ensures shared_kept { KeepsShared result shared.old.content shared.new.content }
    ensures memory { frame.new.memory ≡ frame.old.memory }
    ensures shared_memory { shared.new.memory ≡ shared.old.memory }
{
    match shared.make_throwable(thrown) {
        Some(number) => {
            replace(frame, 0, Value::Object(number));
            Next::Goes
        }
        None => Next::Raises(Thrown::OutOfMemoryError),
    }
}

/// The class of the throwable with a number, if the object is one.
fn thrown_at(number: u32, shared: &Shared) -> Option<Thrown>
    ensures { result ≡ thrown_of shared.now.content.heap (values.object number) }
{
    match shared.object(number) {
        Some(HeapObject::Throwable(thrown)) => Some(thrown),
        Some(HeapObject::Array { .. }) => None,
        None => None,
    }
}

/// The class of the throwable that a value is a reference to, if it is one.
fn thrown_of(value: Value, shared: &Shared) -> Option<Thrown>
    ensures { result ≡ thrown_of shared.now.content.heap (value_of value) }
{
    match value {
        Value::Object(number) => thrown_at(number, shared),
        Value::MemoryError => Some(Thrown::OutOfMemoryError),
        _ => None,
    }
}

/// Whether the two classes are one.
fn is_one(class: Thrown, other: Thrown) -> bool
    ensures { result ≡ is_one class other }
{
    class == other
}

/// Calls the constructor of a class, which does nothing to a throwable of just this class.
pub fn build(class: Thrown, shared: &Shared, frame: &mut Frame) -> Next
    requires { frame.old.content.place + 1 < 2 ^ 32 }
    ensures result { result_of result shared.now.content frame.new.content ≡ by_build class frame.old.content.stack shared.now.content frame.old.content }
    ensures kept { Settles result frame.old.content frame.new.content }
    ensures memory { frame.new.memory ≡ frame.old.memory }
{
    let Some(value) = frame.peek(0) else {
        return Next::Stuck;
    };
    match thrown_of(value, shared) {
        Some(thrown) => {
            if !is_one(class, thrown) {
                return Next::Stuck;
            }
            take(frame, 1);
            Next::Goes
        }
        None => Next::Stuck,
    }
}

/// Throws the throwable on top; null becomes an exception of its own.
pub fn throw_top(shared: &Shared, frame: &Frame) -> Next
    ensures result { result_of result shared.now.content frame.now.content ≡ by_throw frame.now.content.stack shared.now.content }
    ensures kept { Settles result frame.now.content frame.now.content }
{
    let Some(value) = frame.peek(0) else {
        return Next::Stuck;
    };
    if matches!(value, Value::Null) {
        return Next::Raises(Thrown::NullPointerException);
    }
    match thrown_of(value, shared) {
        Some(thrown) => Next::Throws { thrown, value },
        None => Next::Stuck,
    }
}

/// Whether the operands are the id of the class, its own text, and the number of its probes.
fn is_fetched(class: u32, init: ProbeInit, id: i64, of: u32, count: i32) -> bool
    ensures { result ≡ is_fetched class init id of count }
{
    id == init.id.cast_signed() && (of == class && i64::from(count) == i64::from(init.count))
}

/// Puts the probe array of a class in place of its id, its text and the number of its probes.
pub fn fetch(class: u32, init: ProbeInit, frame: &mut Frame) -> Next
    requires place { frame.old.content.place + 1 < 2 ^ 32 }
    requires room { length frame.old.content.locals + length frame.old.content.stack ≤ 1004 }
    ensures result { (s : world.Shared) → result_of result s frame.new.content ≡ by_fetch class init frame.old.content.stack s frame.old.content }
    ensures kept { Settles result frame.old.content frame.new.content }
    ensures memory { frame.new.memory ≡ frame.old.memory }
{
    let Some(first) = frame.peek(0) else {
        return Next::Stuck;
    };
    let Value::Int(count) = first else {
        return Next::Stuck;
    };
    let Some(second) = frame.peek(1) else {
        return Next::Stuck;
    };
    let Value::Text { class: of } = second else {
        return Next::Stuck;
    };
    let Some(third) = frame.peek(2) else {
        return Next::Stuck;
    };
    let Value::Long(id) = third else {
        return Next::Stuck;
    };
    if !is_fetched(class, init, id, of, count) {
        return Next::Stuck;
    }
    replace(
        frame,
        3,
        Value::Probes {
            class,
            count: init.count,
        },
    );
    Next::Goes
}

/// Whether a value is the probe array of a class.
fn is_array_of(class: u32, value: Value) -> bool
    ensures { result ≡ is_array_of class (value_of value) }
{
    match value {
        Value::Probes { class: of, .. } => of == class,
        _ => false,
    }
}

/// Goes on with the probe array of a class on top.
pub fn cast(class: u32, frame: &mut Frame) -> Next
    requires { frame.old.content.place + 1 < 2 ^ 32 }
    ensures result { (s : world.Shared) → result_of result s frame.new.content ≡ by_cast class frame.old.content.stack s frame.old.content }
    ensures kept { Settles result frame.old.content frame.new.content }
    ensures memory { frame.new.memory ≡ frame.old.memory }
{
    let Some(value) = frame.peek(0) else {
        return Next::Stuck;
    };
    if !is_array_of(class, value) {
        return Next::Stuck;
    }
    go_on(frame);
    Next::Goes
}
