//! Values as they are seen from outside.
ghost use Rattle.std.specs.Prelude.{◌≡◌};
ghost use Rattle.jc_machine_model.specs.Values.{seen_value};
ghost use Rattle.jc_machine_memory.specs.Values.{value_of};

use jc_machine_memory::Value;
use jc_programs as outside;

/// What is seen of a value from outside.
pub fn seen(value: Value) -> outside::Value
    ensures { result ≡ seen_value (value_of value) }
{
    match value {
        Value::Int(x) => outside::Value::Int(x),
        Value::Long(x) => outside::Value::Long(x),
        Value::Null => outside::Value::Null,
        Value::Object(_)
        | Value::MemoryError
        | Value::PrintStream
        | Value::Probes { .. }
        | Value::Text { .. } => outside::Value::Reference,
    }
}
