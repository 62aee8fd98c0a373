//! What instructions ask of a value.
ghost use Rattle.std.specs.Prelude.{◌≡◌, ◌%◌, nat_eq};
ghost use Rattle.std.specs.Int.{w32, cast_unsigned};
ghost use Rattle.jc_bytes.specs.Descriptor.{FieldType};
ghost use Rattle.jc_machine_model.specs.Values.{is_of, is_same, is_pair, stored_as};
ghost use Rattle.jc_machine_numbers.specs.Narrowings.{narrowing_of};
ghost use Rattle.jc_machine_code.specs.Types.{computational};
ghost use Rattle.jc_machine_memory.specs.Values.{value_of};

use jc_machine_code::ComputationalType;
use jc_machine_memory::Value;
use jc_machine_numbers::Narrowing;

/// Whether the value is of the computational type (JVM Specification 2.11.1).
pub fn is_of(value: Value, kind: ComputationalType) -> bool
    ensures { result ≡ is_of (computational kind) (value_of value) }
{
    match value {
        Value::Int(_) => matches!(kind, ComputationalType::Int),
        Value::Long(_) => matches!(kind, ComputationalType::Long),
        _ => matches!(kind, ComputationalType::Reference),
    }
}

/// Whether it is a value of two slots (JVM Specification 2.6.1).
pub fn is_pair(value: Value) -> bool
    ensures { result ≡ is_pair (value_of value) }
{
    matches!(value, Value::Long(_))
}

/// Whether two references are one. Numbers aren't references.
pub fn is_same(a: Value, b: Value) -> bool
    ensures { result ≡ is_same (value_of a) (value_of b) }
{
    match (a, b) {
        (Value::Null, Value::Null) => true,
        (Value::Object(j), Value::Object(k)) => j == k,
        (Value::MemoryError, Value::MemoryError) => true,
        (Value::PrintStream, Value::PrintStream) => true,
        (Value::Probes { class: j, .. }, Value::Probes { class: k, .. }) => j == k,
        (Value::Text { class: j }, Value::Text { class: k }) => j == k,
        _ => false,
    }
}

/// The value as it is stored where values of a type are kept that narrows an int so (JVM Specification 6.5, putstatic,
/// ireturn).
pub fn stored(value: Value, narrowing: Narrowing) -> Value
    ensures { (type : FieldType) → narrowing_of type ≡ narrowing → value_of result ≡ stored_as type (value_of value) }
{
    match value {
        Value::Int(x) => Value::Int(narrowing.narrowed(x)),
        other => other,
    }
}

/// Whether an int is even.
pub fn is_even(x: i32) -> bool
    ensures { result ≡ nat_eq (cast_unsigned w32 x % 2) 0 }
{
    x.cast_unsigned() % 2 == 0
}
