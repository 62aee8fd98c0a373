//! `println` (JVM Specification 6.5, invokevirtual).
ghost use Rattle.std.specs.Prelude.{◌≡◌, ◌+◌, ◌<◌, ◌^◌, drop};
ghost use Rattle.jc_machine_model.specs.Operations.{an_int_line, a_long_line, a_boolean_line, an_empty_line};
ghost use Rattle.jc_machine_model.specs.Objects.{by_print, boolean_text, by_println};
ghost use Rattle.jc_machine_code.specs.Types.{printed};
ghost use Rattle.jc_machine_memory.specs.Values.{value_of};
ghost use Rattle.jc_machine_turn.specs.Nexts.{result_of, Settles, KeepsShared};

use crate::frames::take;
use crate::values::is_even;
use crate::{Next, Shared};
use itoa::Buffer;
use jc_machine_code::Printed;
use jc_machine_memory::{Frame, Value};
use jc_programs::Thrown;

/// Prints a text and a line feed, where the stream is there, and takes so many operands.
fn print(text: &[u8], stream: Value, taken: usize, shared: &mut Shared, frame: &mut Frame) -> Next
    requires { frame.old.content.place + 1 < 2 ^ 32 }
    ensures result { result_of result shared.new.content frame.new.content
        ≡ by_print text.now (value_of stream) (drop taken frame.old.content.stack) shared.old.content frame.old.content }
    ensures kept { Settles result frame.old.content frame.new.content }
    ensures shared_kept { KeepsShared result shared.old.content shared.new.content }
    ensures memory { frame.new.memory ≡ frame.old.memory }
    ensures shared_memory { shared.new.memory ≡ shared.old.memory }
{
    match stream {
        Value::Null => Next::Raises(Thrown::NullPointerException),
        Value::PrintStream => {
            if !shared.print_line(text) {
                return Next::Stuck;
            }
            take(frame, taken);
            Next::Goes
        }
        _ => Next::Stuck,
    }
}

/// Prints the decimal number of the int on top.
fn print_int(shared: &mut Shared, frame: &mut Frame) -> Next
    requires { frame.old.content.place + 1 < 2 ^ 32 }
    ensures result { result_of result shared.new.content frame.new.content
        ≡ by_println an_int_line frame.old.content.stack shared.old.content frame.old.content }
    ensures kept { Settles result frame.old.content frame.new.content }
    ensures shared_kept { KeepsShared result shared.old.content shared.new.content }
    ensures memory { frame.new.memory ≡ frame.old.memory }
    ensures shared_memory { shared.new.memory ≡ shared.old.memory }
{
    let Some(top) = frame.peek(0) else {
        return Next::Stuck;
    };
    let Value::Int(x) = top else {
        return Next::Stuck;
    };
    let Some(stream) = frame.peek(1) else {
        return Next::Stuck;
    };
    let mut buffer = Buffer::new();
    let text = buffer.format(x);
    print(text.as_bytes(), stream, 2, shared, frame)
}

/// Prints the decimal number of the long on top.
fn print_long(shared: &mut Shared, frame: &mut Frame) -> Next
    requires { frame.old.content.place + 1 < 2 ^ 32 }
    ensures result { result_of result shared.new.content frame.new.content
        ≡ by_println a_long_line frame.old.content.stack shared.old.content frame.old.content }
    ensures kept { Settles result frame.old.content frame.new.content }
    ensures shared_kept { KeepsShared result shared.old.content shared.new.content }
    ensures memory { frame.new.memory ≡ frame.old.memory }
    ensures shared_memory { shared.new.memory ≡ shared.old.memory }
{
    let Some(top) = frame.peek(0) else {
        return Next::Stuck;
    };
    let Value::Long(x) = top else {
        return Next::Stuck;
    };
    let Some(stream) = frame.peek(1) else {
        return Next::Stuck;
    };
    let mut buffer = Buffer::new();
    let text = buffer.format(x);
    print(text.as_bytes(), stream, 2, shared, frame)
}

/// `true` where the int is odd.
fn boolean_text(x: i32) -> &'static [u8]
    ensures { result.now ≡ boolean_text x }
{
    if is_even(x) { b"false" } else { b"true" }
}

/// Prints the boolean of the int on top.
fn print_boolean(shared: &mut Shared, frame: &mut Frame) -> Next
    requires { frame.old.content.place + 1 < 2 ^ 32 }
    ensures result { result_of result shared.new.content frame.new.content
        ≡ by_println a_boolean_line frame.old.content.stack shared.old.content frame.old.content }
    ensures kept { Settles result frame.old.content frame.new.content }
    ensures shared_kept { KeepsShared result shared.old.content shared.new.content }
    ensures memory { frame.new.memory ≡ frame.old.memory }
    ensures shared_memory { shared.new.memory ≡ shared.old.memory }
{
    let Some(top) = frame.peek(0) else {
        return Next::Stuck;
    };
    let Value::Int(x) = top else {
        return Next::Stuck;
    };
    let Some(stream) = frame.peek(1) else {
        return Next::Stuck;
    };
    print(boolean_text(x), stream, 2, shared, frame)
}

/// Prints nothing but the line feed.
fn print_empty(shared: &mut Shared, frame: &mut Frame) -> Next
    requires { frame.old.content.place + 1 < 2 ^ 32 }
    ensures result { result_of result shared.new.content frame.new.content
        ≡ by_println an_empty_line frame.old.content.stack shared.old.content frame.old.content }
    ensures kept { Settles result frame.old.content frame.new.content }
    ensures shared_kept { KeepsShared result shared.old.content shared.new.content }
    ensures memory { frame.new.memory ≡ frame.old.memory }
    ensures shared_memory { shared.new.memory ≡ shared.old.memory }
{
    let Some(stream) = frame.peek(0) else {
        return Next::Stuck;
    };
    print(b"", stream, 1, shared, frame)
}

/// Prints what stands above the stream: a decimal number, a boolean, or nothing.
pub fn print_top(line: Printed, shared: &mut Shared, frame: &mut Frame) -> Next
    requires { frame.old.content.place + 1 < 2 ^ 32 }
    ensures result { result_of result shared.new.content frame.new.content
        ≡ by_println (printed line) frame.old.content.stack shared.old.content frame.old.content }
    ensures kept { Settles result frame.old.content frame.new.content }
    ensures shared_kept { KeepsShared result shared.old.content shared.new.content }
    ensures memory { frame.new.memory ≡ frame.old.memory }
    ensures shared_memory { shared.new.memory ≡ shared.old.memory }
{
    match line {
        Printed::IntLine => print_int(shared, frame),
        Printed::LongLine => print_long(shared, frame),
        Printed::BooleanLine => print_boolean(shared, frame),
        Printed::EmptyLine => print_empty(shared, frame),
    }
}
