//! Static fields (JVM Specification 6.5, getstatic and putstatic).
ghost use Rattle.std.specs.Prelude.{◌≡◌, Some};
ghost use Rattle.jc_bytes.specs.Descriptor.{FieldType, IsFieldDescriptor, DescribesField};
ghost use Rattle.jc_methods.specs.DescriptorTypes.{field_type_in};
ghost use Rattle.jc_machine_model.specs.Operations.{FieldAt};
ghost use Rattle.jc_machine_model.specs.Profile.{field_operation, is_print_stream};
ghost use Rattle.jc_machine_code.specs.Types.{stored_of, IsStoredAs};
ghost use Rattle.jc_machine_code.specs.Shown.{Shows};

use crate::{ComputationalType, Operation};
use jc_machine_numbers::Narrowing;
use jc_methods::{ValueType, field_type, opcode};

/// The computational type of the values of a type, and how an int among them is narrowed. The machine has no
/// floats and no doubles.
pub fn stored_of(value: ValueType<'_>) -> Option<(ComputationalType, Narrowing)>
    ensures { result ≡ stored_of value.entry }
{
    match value {
        ValueType::Boolean => Some((ComputationalType::Int, Narrowing::ToBoolean)),
        ValueType::Byte => Some((ComputationalType::Int, Narrowing::ToByte)),
        ValueType::Char => Some((ComputationalType::Int, Narrowing::ToChar)),
        ValueType::Short => Some((ComputationalType::Int, Narrowing::ToShort)),
        ValueType::Int => Some((ComputationalType::Int, Narrowing::Unchanged)),
        ValueType::Long => Some((ComputationalType::Long, Narrowing::Unchanged)),
        ValueType::Object(_) | ValueType::Array(_) => Some((
            ComputationalType::Reference,
            Narrowing::Unchanged,
        )),
        ValueType::Float | ValueType::Double => None,
    }
}

/// The same of the type that a descriptor describes.
fn stored(desc: &[u8]) -> Option<(ComputationalType, Narrowing)>
    requires { IsFieldDescriptor desc.now }
    ensures { (type : FieldType) → DescribesField desc.now type → IsStoredAs type result }
{
    stored_of(field_type(desc))
}

/// `getstatic` or `putstatic` of the field with a number, of the class with a number.
pub fn field_operation(op: u8, class: u32, field: u32, desc: &[u8]) -> Operation
    requires { IsFieldDescriptor desc.now }
    ensures { Shows result (field_operation op (record { class = class; field = field }) (field_type_in desc.now)) }
{
    match stored(desc) {
        None => Operation::Outside,
        Some((kind, narrowing)) => {
            if op == opcode::GETSTATIC {
                return Operation::Gets { class, field };
            }
            if op == opcode::PUTSTATIC {
                return Operation::Puts {
                    class,
                    field,
                    kind,
                    narrowing,
                };
            }
            Operation::Outside
        }
    }
}

/// Whether it is `getstatic` of `java/lang/System.out`, the print stream.
pub fn is_print_stream(op: u8, class: &[u8], name: &[u8], desc: &[u8]) -> bool
    ensures { result ≡ is_print_stream op class.now name.now desc.now }
{
    op == opcode::GETSTATIC
        && (class == b"java/lang/System".as_slice()
            && (name == b"out".as_slice() && desc == b"Ljava/io/PrintStream;".as_slice()))
}
