//! What a class's name tells of the class.
ghost use Rattle.std.specs.Prelude.{◌≡◌, codes, bytes_eq};
ghost use Rattle.jc_programs.specs.Throwables.{thrown_named};
ghost use Rattle.jc_refs_check.specs.Known.{known_array, known_other, known_by};

use jc_machine_code::{Operation, PrimitiveType, make_operation};
use jc_programs::Thrown;

/// What is known of a class.
#[derive(Clone, Copy, Debug)]
pub enum Known {
    /// It is `java/lang/Object`.
    Object,
    /// It is one of the throwables that the machine knows.
    Throwable(Thrown),
    /// It is the class of arrays of one dimension of elements of this type.
    Array(PrimitiveType),
    /// It is `java/io/PrintStream`.
    PrintStream,
    /// It is `java/lang/String`.
    Text,
    /// It is another class.
    Other,
}

/// Whether a name is that of VirtualMachineError, which is abstract.
fn is_abstract(name: &[u8]) -> bool
    ensures { result ≡ bytes_eq name.now (codes "java/lang/VirtualMachineError") }
{
    name == b"java/lang/VirtualMachineError".as_slice()
}

/// The class of throwables with a name, if the machine knows it. There are no objects of VirtualMachineError, which is abstract.
fn thrown_named(name: &[u8]) -> Option<Thrown>
    ensures { result ≡ thrown_named name.now }
{
    if is_abstract(name) {
        return Some(Thrown::VirtualMachineError);
    }
    match make_operation(name) {
        Operation::Makes(thrown) => Some(thrown),
        _ => None,
    }
}

/// What is known of the class of arrays with a descriptor.
fn known_array(desc: &[u8]) -> Known
    ensures { result ≡ known_array desc.now }
{
    if desc == b"[Z".as_slice() {
        Known::Array(PrimitiveType::Boolean)
    } else if desc == b"[B".as_slice() {
        Known::Array(PrimitiveType::Byte)
    } else if desc == b"[C".as_slice() {
        Known::Array(PrimitiveType::Char)
    } else if desc == b"[S".as_slice() {
        Known::Array(PrimitiveType::Short)
    } else if desc == b"[I".as_slice() {
        Known::Array(PrimitiveType::Int)
    } else if desc == b"[J".as_slice() {
        Known::Array(PrimitiveType::Long)
    } else {
        Known::Other
    }
}

/// What is known of the class with a name that isn't a throwable's.
fn known_other(name: &[u8]) -> Known
    ensures { result ≡ known_other name.now }
{
    if name == b"java/lang/Object".as_slice() {
        Known::Object
    } else if name == b"java/io/PrintStream".as_slice() {
        Known::PrintStream
    } else if name == b"java/lang/String".as_slice() {
        Known::Text
    } else {
        known_array(name)
    }
}

/// What is known of the class with a name.
pub fn known_of(name: &[u8]) -> Known
    ensures { result ≡ known_by name.now }
{
    match thrown_named(name) {
        Some(thrown) => Known::Throwable(thrown),
        None => known_other(name),
    }
}
