//! The static fields of integral types (JVM Specification 2.3.1).
ghost use Rattle.std.specs.Prelude.{◌≡◌, ◌<◌, ◌^◌, ◌++◌, length, IfOk};
ghost use Rattle.jc_methods.specs.DescriptorTypes.{field_type_in};
ghost use Rattle.jc_machine_model.specs.Programs.{IsProgram};
ghost use Rattle.jc_machine.specs.IntegralFields.{is_integral_letter, is_integral, fields_from, integral_fields};

use jc_bytes::Memory;
use jc_programs::{Program, StaticField};
use std::alloc::Global;

/// A static field of an integral type.
#[derive(Clone, Copy, Debug)]
pub struct IntegralField {
    /// The number of its class.
    pub class: u32,
    /// Its number among the static fields of its class.
    pub field: u32,
}

/// Whether a letter alone describes an integral type.
fn is_integral_letter(letter: u8) -> bool
    ensures { result ≡ is_integral_letter letter }
{
    match letter {
        b')' | b'L' | b'[' | b'D' | b'F' => false,
        _ => true,
    }
}

/// Whether the descriptor of a field describes an integral type.
fn is_integral(desc: &[u8]) -> bool
    ensures { result ≡ is_integral (field_type_in desc.now) }
{
    match desc {
        [] => false,
        [letter, ..] => is_integral_letter(*letter),
    }
}

/// Puts the fields of integral types of a class behind others.
fn add_fields(
    class: u32,
    statics: &[StaticField],
    fields: &mut Vec<IntegralField>,
) -> Result<(), Memory>
    requires { length statics.now < 2 ^ 32 }
    ensures { IfOk result (λ _. fields.new.items ≡ fields.old.items ++ fields_from class 0 statics.now) }
{
    'fields: for (k, field) in statics.iter().enumerate() {
        if is_integral(field.desc.as_slice()) {
            fields.push(IntegralField {
                class,
                field: k as u32,
            })?;
        }
    }
    Ok(())
}

/// The static fields of integral types of a program, in the order of classes and fields.
pub fn integral_fields(alloc: Global, program: &Program) -> Result<Vec<IntegralField>, Memory>
    requires { IsProgram program.now }
    ensures { IfOk result (λ fields. fields.items ≡ integral_fields program.now) }
{
    let mut fields = Vec::new(alloc);
    'classes: for (k, class) in program.classes.as_slice().iter().enumerate() {
        add_fields(k as u32, class.statics.as_slice(), &mut fields)?;
    }
    Ok(fields)
}
