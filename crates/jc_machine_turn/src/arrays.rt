//! Arrays of integral types, and the probe arrays of classes (JVM Specification 6.5).
ghost use Rattle.std.specs.Prelude.{◌≡◌, ◌+◌, ◌<◌, ◌≤◌, ◌^◌, drop, length, slice_get, if◌then◌else◌};
ghost use Rattle.jc_bytes.specs.Descriptor as fields;
ghost use Rattle.jc_bytes.specs.Descriptor.{Boolean};
ghost use Rattle.jc_machine_model.specs.Values as values;
ghost use Rattle.jc_machine_model.specs.World as world;
ghost use Rattle.jc_machine_model.specs.Results.{gets_stuck};
ghost use Rattle.jc_machine_model.specs.Arrays.{has_elements, index_within, find_element, read_found, by_read, write_found, by_probe, by_write, by_make_array, measured, by_measure};
ghost use Rattle.jc_machine_numbers.specs.Narrowings.{narrowing_of};
ghost use Rattle.jc_machine_code.specs.Types.{primitive, element_types};
ghost use Rattle.jc_machine_memory.specs.Values.{value_of};
ghost use Rattle.jc_machine_memory.specs.Heaps.{element_type};
ghost use Rattle.jc_machine_turn.specs.Nexts.{result_of, left_by, Settles, KeepsShared};
ghost use Rattle.jc_machine_turn.specs.Founds.{Finds, HasElementAt, IsElementStored};

use crate::frames::{replace, take};
use crate::values::is_even;
use crate::{Next, Shared};
use jc_machine_code::{ElementTypes, PrimitiveType};
use jc_machine_memory::{Element, Frame, HeapObject, Value};
use jc_machine_numbers::Narrowing;
use jc_programs::Thrown;

/// What an instruction finds at an index of an object.
#[derive(Clone, Copy, Debug)]
enum Found {
    /// Element `index` of an array whose elements are of a type.
    Within { element: Element, index: u32 },
    /// The index is out of range.
    Outside,
    /// No array that suits the instruction.
    Unsuited,
}

/// Whether an instruction for elements of these types suits an array of this one.
fn has_element(types: ElementTypes, element: Element) -> bool
    ensures { result ≡ has_elements (element_types types) (element_type element) }
{
    match types {
        ElementTypes::Int => matches!(element, Element::Int),
        ElementTypes::Long => matches!(element, Element::Long),
        ElementTypes::ByteOrBoolean => matches!(element, Element::Byte | Element::Boolean),
        ElementTypes::Char => matches!(element, Element::Char),
        ElementTypes::Short => matches!(element, Element::Short),
    }
}

/// The index, if it is one of so many.
fn index_within(index: i32, count: u32) -> Option<u32>
    ensures { result ≡ index_within index count }
{
    match u32::try_from(index) {
        Ok(i) => { if i < count { Some(i) } else { None } }
        Err(_) => None,
    }
}

/// The element at an index of an object. An array of other elements comes before an index out of range.
fn find_element(types: ElementTypes, number: u32, index: i32, shared: &Shared) -> Found
    ensures { Finds result shared.now.content.heap number (find_element (element_types types) shared.now.content.heap (values.object number) index) }
{
    let Some(object) = shared.object(number) else {
        return Found::Unsuited;
    };
    let HeapObject::Array { element, count } = object else {
        return Found::Unsuited;
    };
    if !has_element(types, element) {
        return Found::Unsuited;
    }
    match index_within(index, count) {
        Some(i) => Found::Within { element, index: i },
        None => Found::Outside,
    }
}

/// Loads an element of an object, in place of its index and of the reference to it.
fn read_object(
    types: ElementTypes,
    number: u32,
    index: i32,
    shared: &Shared,
    frame: &mut Frame,
) -> Next
    requires place { frame.old.content.place + 1 < 2 ^ 32 }
    requires room { length frame.old.content.locals + length frame.old.content.stack ≤ 1004 }
    ensures result { result_of result shared.now.content frame.new.content
        ≡ read_found (find_element (element_types types) shared.now.content.heap (values.object number) index)
        (drop 2 frame.old.content.stack) shared.now.content frame.old.content }
    ensures kept { Settles result frame.old.content frame.new.content }
    ensures memory { frame.new.memory ≡ frame.old.memory }
{
    match find_element(types, number, index, shared) {
        Found::Within { element, index: i } => {
            let value = shared.element(number, element, i);
            replace(frame, 2, value);
            Next::Goes
        }
        Found::Outside => Next::Raises(Thrown::ArrayIndexOutOfBoundsException),
        Found::Unsuited => Next::Stuck,
    }
}

/// Loads an element of an array. The index stands above the array.
pub fn read(types: ElementTypes, shared: &Shared, frame: &mut Frame) -> Next
    requires place { frame.old.content.place + 1 < 2 ^ 32 }
    requires room { length frame.old.content.locals + length frame.old.content.stack ≤ 1004 }
    ensures result { result_of result shared.now.content frame.new.content
        ≡ by_read (element_types types) frame.old.content.stack shared.now.content frame.old.content }
    ensures kept { Settles result frame.old.content frame.new.content }
    ensures memory { frame.new.memory ≡ frame.old.memory }
{
    let Some(top) = frame.peek(0) else {
        return Next::Stuck;
    };
    let Value::Int(index) = top else {
        return Next::Stuck;
    };
    let Some(array) = frame.peek(1) else {
        return Next::Stuck;
    };
    match array {
        Value::Null => Next::Raises(Thrown::NullPointerException),
        Value::Object(number) => read_object(types, number, index, shared, frame),
        _ => Next::Stuck,
    }
}

/// How an int is narrowed in an array of elements of a type.
fn narrowing_in(element: Element) -> Narrowing
    ensures { narrowing_of (element_type element) ≡ result }
{
    match element {
        Element::Boolean => Narrowing::ToBoolean,
        Element::Byte => Narrowing::ToByte,
        Element::Char => Narrowing::ToChar,
        Element::Short => Narrowing::ToShort,
        Element::Int | Element::Long => Narrowing::Unchanged,
    }
}

/// Stores a number into an element of an array of longs, if it is a long.
fn write_long(number: u32, index: u32, value: Value, shared: &mut Shared, frame: &mut Frame) -> Next
    requires place { frame.old.content.place + 1 < 2 ^ 32 }
    requires element { HasElementAt shared.old.content.heap number fields.Long index }
    ensures result { IsElementStored fields.Long number index (value_of value) shared.old.content frame.old.content
        (result_of result shared.new.content frame.new.content) }
    ensures kept { Settles result frame.old.content frame.new.content }
    ensures shared_kept { KeepsShared result shared.old.content shared.new.content }
    ensures memory { frame.new.memory ≡ frame.old.memory }
    ensures shared_memory { shared.new.memory ≡ shared.old.memory }
{
    let Value::Long(x) = value else {
        return Next::Stuck;
    };
    shared.set_long(number, index, x);
    take(frame, 3);
    Next::Goes
}

/// Stores a number into an element of an array of another type, if it is an int, as the type has it.
fn write_int(
    number: u32,
    element: Element,
    index: u32,
    value: Value,
    shared: &mut Shared,
    frame: &mut Frame,
) -> Next
    requires place { frame.old.content.place + 1 < 2 ^ 32 }
    requires int { element_type element ≡ fields.Long → ⊥ }
    requires element { HasElementAt shared.old.content.heap number (element_type element) index }
    ensures result { IsElementStored (element_type element) number index (value_of value) shared.old.content frame.old.content
        (result_of result shared.new.content frame.new.content) }
    ensures kept { Settles result frame.old.content frame.new.content }
    ensures shared_kept { KeepsShared result shared.old.content shared.new.content }
    ensures memory { frame.new.memory ≡ frame.old.memory }
    ensures shared_memory { shared.new.memory ≡ shared.old.memory }
{
    let Value::Int(x) = value else {
        return Next::Stuck;
    };
    let narrowing = narrowing_in(element);
    shared.set_int(number, index, narrowing.narrowed(x));
    take(frame, 3);
    Next::Goes
}

/// Stores a value into an element of an object.
fn write_object(
    types: ElementTypes,
    number: u32,
    index: i32,
    value: Value,
    shared: &mut Shared,
    frame: &mut Frame,
) -> Next
    requires { frame.old.content.place + 1 < 2 ^ 32 }
    ensures result { left_by result shared.new frame.new
        ≡ write_found (find_element (element_types types) shared.old.content.heap (values.object number) index) (value_of value) number
        (drop 3 frame.old.content.stack) shared.old.content frame.old.content }
    ensures kept { Settles result frame.old.content frame.new.content }
    ensures shared_kept { KeepsShared result shared.old.content shared.new.content }
    ensures memory { frame.new.memory ≡ frame.old.memory }
    ensures shared_memory { shared.new.memory ≡ shared.old.memory }
{
    match find_element(types, number, index, shared) {
        Found::Within { element, index: i } => match element {
            Element::Long => write_long(number, i, value, shared, frame),
            _ => write_int(number, element, i, value, shared, frame),
        },
        Found::Outside => Next::Raises(Thrown::ArrayIndexOutOfBoundsException),
        Found::Unsuited => Next::Stuck,
    }
}

/// Stores a value into a probe array, which is one of booleans. An odd number is a hit, and an even one makes the thread
/// stuck. An index out of range comes before both.
fn write_probe(
    types: ElementTypes,
    class: u32,
    count: u32,
    index: i32,
    value: Value,
    frame: &mut Frame,
) -> Next
    requires { frame.old.content.place + 1 < 2 ^ 32 }
    ensures result { (s : world.Shared) → result_of result s frame.new.content
        ≡ (if has_elements (element_types types) Boolean then by_probe class (index_within index count) (value_of value)
        (drop 3 frame.old.content.stack) frame.old.content else gets_stuck) }
    ensures kept { Settles result frame.old.content frame.new.content }
    ensures memory { frame.new.memory ≡ frame.old.memory }
{
    if !has_element(types, Element::Boolean) {
        return Next::Stuck;
    }
    let Value::Int(x) = value else {
        return Next::Stuck;
    };
    match index_within(index, count) {
        None => Next::Raises(Thrown::ArrayIndexOutOfBoundsException),
        Some(id) => {
            if is_even(x) {
                return Next::Stuck;
            }
            take(frame, 3);
            Next::Hits { class, id }
        }
    }
}

/// Stores an element of an array. The value stands above the index, and that above the array.
pub fn write(types: ElementTypes, shared: &mut Shared, frame: &mut Frame) -> Next
    requires { frame.old.content.place + 1 < 2 ^ 32 }
    ensures result { result_of result shared.new.content frame.new.content
        ≡ by_write (element_types types) frame.old.content.stack shared.old.content frame.old.content }
    ensures kept { Settles result frame.old.content frame.new.content }
    ensures shared_kept { KeepsShared result shared.old.content shared.new.content }
    ensures memory { frame.new.memory ≡ frame.old.memory }
    ensures shared_memory { shared.new.memory ≡ shared.old.memory }
{
    let Some(value) = frame.peek(0) else {
        return Next::Stuck;
    };
    let Some(second) = frame.peek(1) else {
        return Next::Stuck;
    };
    let Value::Int(index) = second else {
        return Next::Stuck;
    };
    let Some(array) = frame.peek(2) else {
        return Next::Stuck;
    };
    match array {
        Value::Null => Next::Raises(Thrown::NullPointerException),
        Value::Object(number) => write_object(types, number, index, value, shared, frame),
        Value::Probes { class, count } => write_probe(types, class, count, index, value, frame),
        _ => Next::Stuck,
    }
}

/// The type of the elements of an array.
fn element_of(kind: PrimitiveType) -> Element
    ensures { element_type result ≡ primitive kind }
{
    match kind {
        PrimitiveType::Boolean => Element::Boolean,
        PrimitiveType::Byte => Element::Byte,
        PrimitiveType::Char => Element::Char,
        PrimitiveType::Short => Element::Short,
        PrimitiveType::Int => Element::Int,
        PrimitiveType::Long => Element::Long,
    }
}

/// Makes an array of zeros. A negative length comes before the want of room.
pub fn make_array(kind: PrimitiveType, shared: &mut Shared, frame: &mut Frame) -> Next
    requires place { frame.old.content.place + 1 < 2 ^ 32 }
    requires room { length frame.old.content.locals + length frame.old.content.stack ≤ 1004 }
    ensures result { result_of result shared.new.content frame.new.content
        ≡ by_make_array (primitive kind) frame.old.content.stack shared.old.content frame.old.content }
    ensures kept { Settles result frame.old.content frame.new.content }
    ensures shared_kept { KeepsShared result shared.old.content shared.new.content }
    ensures memory { frame.new.memory ≡ frame.old.memory }
    ensures shared_memory { shared.new.memory ≡ shared.old.memory }
{
    let Some(top) = frame.peek(0) else {
        return Next::Stuck;
    };
    let Value::Int(length) = top else {
        return Next::Stuck;
    };
    let Ok(count) = u32::try_from(length) else {
        return Next::Raises(Thrown::NegativeArraySizeException);
    };
    match shared.make_array(element_of(kind), count) {
        Some(number) => {
            replace(frame, 1, Value::Object(number));
            Next::Goes
        }
        None => Next::Raises(Thrown::OutOfMemoryError),
    }
}

/// Pushes the length of the array on top, in its place.
pub fn measure(shared: &Shared, frame: &mut Frame) -> Next
    requires place { frame.old.content.place + 1 < 2 ^ 32 }
    requires room { length frame.old.content.locals + length frame.old.content.stack ≤ 1004 }
    ensures result { result_of result shared.now.content frame.new.content ≡ by_measure frame.old.content.stack shared.now.content frame.old.content }
    ensures kept { Settles result frame.old.content frame.new.content }
    ensures memory { frame.new.memory ≡ frame.old.memory }
{
    let Some(top) = frame.peek(0) else {
        return Next::Stuck;
    };
    match top {
        Value::Null => Next::Raises(Thrown::NullPointerException),
        Value::Object(number) => measure_object(number, shared, frame),
        _ => Next::Stuck,
    }
}

/// Pushes the length of an array, in place of the reference to it.
fn measure_object(number: u32, shared: &Shared, frame: &mut Frame) -> Next
    requires place { frame.old.content.place + 1 < 2 ^ 32 }
    requires room { length frame.old.content.locals + length frame.old.content.stack ≤ 1004 }
    ensures result { result_of result shared.now.content frame.new.content
        ≡ measured (slice_get shared.now.content.heap number) (drop 1 frame.old.content.stack) shared.now.content frame.old.content }
    ensures kept { Settles result frame.old.content frame.new.content }
    ensures memory { frame.new.memory ≡ frame.old.memory }
{
    let Some(object) = shared.object(number) else {
        return Next::Stuck;
    };
    let HeapObject::Array { count, .. } = object else {
        return Next::Stuck;
    };
    replace(frame, 1, Value::Int(count as i32));
    Next::Goes
}
