//! What a local variable or an entry of an operand stack is kept in.
ghost use Rattle.std.specs.Prelude.{◌≡◌, Some, None, option_map};
ghost use Rattle.jc_machine_memory.specs.Values.{value_of};
ghost use Rattle.jc_machine_memory.specs.Cells.{held, on_stack};

use crate::value::Value;

/// A value, or nothing.
#[derive(Clone, Copy, Debug, PartialEq, Eq)]
pub enum Cell {
    Empty,
    Int(i32),
    Long(i64),
    Null,
    Object(u32),
    MemoryError,
    PrintStream,
    Probes { class: u32, count: u32 },
    Text { class: u32 },
}

impl Cell {
    /// The cell of a value.
    pub fn of(value: Value) -> Cell
        ensures local { held result ≡ Some (value_of value) }
        ensures stack { on_stack result ≡ value_of value }
    {
        match value {
            Value::Int(x) => Cell::Int(x),
            Value::Long(x) => Cell::Long(x),
            Value::Null => Cell::Null,
            Value::Object(number) => Cell::Object(number),
            Value::MemoryError => Cell::MemoryError,
            Value::PrintStream => Cell::PrintStream,
            Value::Probes { class, count } => Cell::Probes { class, count },
            Value::Text { class } => Cell::Text { class },
        }
    }

    /// The cell of a local variable in which this value begins, or none does.
    pub fn of_local(value: Option<Value>) -> Cell
        ensures { held result ≡ option_map value_of value }
    {
        match value {
            Some(value) => Cell::of(value),
            None => Cell::Empty,
        }
    }

    /// The value in a cell of the operand stack, each of which has one.
    pub fn on_stack(self) -> Value
        ensures { value_of result ≡ on_stack self }
    {
        match self {
            Cell::Empty | Cell::Null => Value::Null,
            Cell::Int(x) => Value::Int(x),
            Cell::Long(x) => Value::Long(x),
            Cell::Object(number) => Value::Object(number),
            Cell::MemoryError => Value::MemoryError,
            Cell::PrintStream => Value::PrintStream,
            Cell::Probes { class, count } => Value::Probes { class, count },
            Cell::Text { class } => Value::Text { class },
        }
    }

    /// The value in a cell of a local variable, if one begins there.
    pub fn value(self) -> Option<Value>
        ensures { option_map value_of result ≡ held self }
    {
        match self {
            Cell::Empty => None,
            cell => Some(cell.on_stack()),
        }
    }
}
