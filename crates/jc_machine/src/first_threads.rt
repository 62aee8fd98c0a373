//! Threads as a case begins.
ghost use Rattle.std.specs.Prelude.{◌≡◌, ◌≤◌, List, true, length, replicate, None, option_map};
ghost use Rattle.jc_bytes.specs.Descriptor.{FieldType};
ghost use Rattle.jc_programs.specs.declared.program.Program.{Program};
ghost use Rattle.jc_programs.specs.Entries.{is_argument};
ghost use Rattle.jc_machine_code.specs.Types.{computational};
ghost use Rattle.jc_machine_turn.specs.Parameters.{AreParameters};
ghost use Rattle.jc_machine_model.specs.Values.{computational_type};
ghost use Rattle.jc_machine_model.specs.Calls.{spread_values};
ghost use Rattle.jc_machine_memory.specs.Values.{value_of};
ghost use Rattle.jc_machine_model.specs.Begin.{number_value, argument_values, first_thread};
ghost use Rattle.jc_machine.specs.Threads.{thread_of};
ghost use Rattle.jc_machine.specs.FirstThreads.{width, with_arguments, FitParameters, BeginsWith};

use crate::thread_stack::ThreadStack;
use jc_machine_code::{ComputationalType, PreparedProgram};
use jc_machine_memory::Value;
use jc_programs::{End, Entry};

/// A number as a value of a parameter's type.
fn argument(parameter: Option<ComputationalType>, number: &i64) -> Value
    requires { (type : FieldType) × (option_map computational parameter ≡ computational_type type) × (is_argument type number.now ≡ true) }
    ensures { (type : FieldType) → option_map computational parameter ≡ computational_type type → value_of result ≡ number_value type number.now }
{
    match parameter {
        Some(ComputationalType::Long) => Value::Long(*number),
        _ => Value::Int(*number as i32),
    }
}

/// How many local variables a value takes (JVM Specification 2.6.1).
fn width(value: Value) -> usize
    ensures { result ≡ width (value_of value) }
{
    match value {
        Value::Long(_) => 2,
        _ => 1,
    }
}

/// Puts numbers as values of parameters' types into the local variables of the frame on top, from the first one on.
fn put_arguments(
    frames: &mut ThreadStack,
    parameters: &[Option<ComputationalType>],
    numbers: &[i64],
)
    requires fit { FitParameters parameters.now numbers.now frames.old.top.locals }
    requires empty { frames.old.top.locals ≡ replicate (length frames.old.top.locals) None }
    ensures arguments { (types : List FieldType) → AreParameters types parameters.now
        → length (spread_values (argument_values types numbers.now)) ≤ length frames.old.top.locals
        → frames.new ≡ with_arguments types numbers.now frames.old }
    ensures memory { frames.new.memory ≡ frames.old.memory }
{
    let mut slot = 0;
    'putting: for (k, number) in numbers.iter().enumerate() {
        let value = argument(parameters[k], number);
        frames.set_local(slot, value);
        slot += width(value);
    }
}

/// Begins a thread with a method and numbers as its arguments, and says how it stands.
pub fn begin_thread(
    prepared: &PreparedProgram,
    frames: &mut ThreadStack,
    method: Entry,
    numbers: &[i64],
) -> End
    requires { (program : Program) × BeginsWith program prepared.now method numbers.now }
    ensures thread { (program : Program) → BeginsWith program prepared.now method numbers.now → thread_of result frames.new ≡ first_thread program method numbers.now }
    ensures memory { frames.new.memory ≡ frames.old.memory }
{
    frames.begin(method, 0);
    let Some(found) = prepared.method(method) else {
        return End::Stuck;
    };
    if !found.is_enterable {
        return End::Stuck;
    }
    frames.begin(method, found.max_locals);
    put_arguments(frames, found.parameters.as_slice(), numbers);
    End::Running
}
