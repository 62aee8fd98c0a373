//! The values with which static fields begin.
ghost use Rattle.std.specs.Prelude.{◌≡◌, length, map, IfOk};
ghost use Rattle.jc_machine_code.specs.declared.prepared.PreparedClass.{PreparedClass};
ghost use Rattle.jc_machine_code.specs.Prepared.{value_of as first_value_of};
ghost use Rattle.jc_machine_memory.specs.Values.{value_of};
ghost use Rattle.jc_machine_turn.specs.Contents.{statics_of, memories_of, first_statics_of};

use jc_bytes::Memory;
use jc_machine_code::{FirstValue, PreparedClass};
use jc_machine_memory::Value;
use std::alloc::Global;

/// The value with which a static field begins.
fn first_value(value: FirstValue) -> Value
    ensures { value_of result ≡ first_value_of value }
{
    match value {
        FirstValue::Int(x) => Value::Int(x),
        FirstValue::Long(x) => Value::Long(x),
        FirstValue::Null => Value::Null,
    }
}

/// The values with which the static fields of a class begin.
fn class_statics(alloc: Global, first: &[FirstValue]) -> Result<Vec<Value>, Memory>
    ensures { IfOk result (λ values. map value_of values.items ≡ map first_value_of first.now) }
{
    let mut values = Vec::new(alloc);
    for value in first {
        values.push(first_value(*value))?;
    }
    Ok(values)
}

/// The values with which the static fields of classes begin.
///
/// # Errors
///
/// `Memory` where memory was refused.
pub fn first_statics(alloc: Global, classes: &[PreparedClass]) -> Result<Vec<Vec<Value>>, Memory>
    ensures { IfOk result (λ statics. statics_of statics.items ≡ first_statics_of classes.now) }
{
    let mut statics = Vec::new(alloc);
    for class in classes {
        statics.push(class_statics(alloc, class.statics.as_slice())?)?;
    }
    Ok(statics)
}

/// Puts the values with which static fields begin in place of as many others.
fn set_values(values: &mut [Value], first: &[FirstValue])
    requires { length values.old ≡ length first.now }
    ensures { map value_of values.new ≡ map first_value_of first.now }
{
    for i in 0..first.len() {
        values[i] = first_value(first[i]);
    }
}

/// Puts the values with which the static fields of classes begin in place of as many others, where they lie.
pub fn set_first_statics(statics: &mut [Vec<Value>], classes: &[PreparedClass])
    requires { map length (statics_of statics.old) ≡ map (λ (c : PreparedClass). length c.statics) classes.now }
    ensures values { statics_of statics.new ≡ first_statics_of classes.now }
    ensures memory { memories_of statics.new ≡ memories_of statics.old }
{
    for i in 0..classes.len() {
        set_values(statics[i].as_mut_slice(), classes[i].statics.as_slice());
    }
}
