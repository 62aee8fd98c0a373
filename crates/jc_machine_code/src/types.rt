//! The types of parameters, of results and of static fields.
ghost use Rattle.std.specs.Prelude.{◌≡◌, List, map, Option, All, IfOk};
ghost use Rattle.std.specs.Option.{option_map};
ghost use Rattle.jc_bytes.specs.Descriptor.{FieldType};
ghost use Rattle.jc_methods.specs.ValueTypes.{Says, AllSay, SaysReturn};
ghost use Rattle.jc_machine_model.specs.Values.{computational_type};
ghost use Rattle.jc_machine_model.specs.Begin.{first_value};
ghost use Rattle.jc_machine_model.specs.Programs.{IsStatic};
ghost use Rattle.jc_machine_code.specs.Types.{computational, return_narrowing};
ghost use Rattle.jc_machine_code.specs.Prepared.{value_of};
ghost use Rattle.jc_machine_code.specs.FirstValues.{value_by, FitsLetter};

use crate::fields::stored_of;
use crate::{ComputationalType, FirstValue};
use jc_bytes::{List, Memory};
use jc_machine_numbers::Narrowing;
use jc_methods::ValueType;
use jc_programs::StaticField;
use std::alloc::Global;

/// The computational type of the values of a type, if the machine has any.
fn parameter_type(value: ValueType<'_>) -> Option<ComputationalType>
    ensures { (type : FieldType) → Says value.entry type → option_map computational result ≡ computational_type type }
{
    match stored_of(value) {
        Some((kind, _)) => Some(kind),
        None => None,
    }
}

/// The computational types of parameters.
pub fn parameter_types(
    alloc: Global,
    values: &[ValueType<'_>],
) -> Result<List<Option<ComputationalType>>, Memory>
    ensures { (types : List FieldType) → AllSay values.now types
        → IfOk result (λ kinds. map (option_map computational) kinds ≡ map computational_type types) }
{
    let mut kinds = List::new(alloc);
    'preparing: for value in values {
        kinds.push(parameter_type(*value))?;
    }
    Ok(kinds)
}

/// How an int is narrowed that a method with this result returns.
pub fn return_narrowing(returns: Option<ValueType<'_>>) -> Narrowing
    ensures { (type : Option FieldType) → SaysReturn returns.entry type → return_narrowing type ≡ result }
{
    match returns {
        None => Narrowing::Unchanged,
        Some(value) => match stored_of(value) {
            Some((_, narrowing)) => narrowing,
            None => Narrowing::Unchanged,
        },
    }
}

/// The first value of a static field, by the first letter of its descriptor.
fn first_by(letter: u8, first: i64) -> FirstValue
    requires { FitsLetter letter first }
    ensures { value_of result ≡ value_by letter first }
{
    match letter {
        b'L' | b'[' | b')' => FirstValue::Null,
        b'J' => FirstValue::Long(first),
        _ => FirstValue::Int(first as i32),
    }
}

/// The first value of a static field.
fn first_value(field: &StaticField) -> FirstValue
    requires { IsStatic field.now }
    ensures { value_of result ≡ first_value field.now }
{
    match field.desc.as_slice() {
        [] => FirstValue::Null,
        [letter, ..] => first_by(*letter, field.first),
    }
}

/// The first values of static fields.
pub fn first_values(alloc: Global, statics: &[StaticField]) -> Result<List<FirstValue>, Memory>
    requires { All IsStatic statics.now }
    ensures { IfOk result (λ values. map value_of values ≡ map first_value statics.now) }
{
    let mut values = List::new(alloc);
    'preparing: for field in statics {
        values.push(first_value(field))?;
    }
    Ok(values)
}
