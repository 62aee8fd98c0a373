//! The types of the elements of arrays, and the words that stand for them.
ghost use Rattle.std.specs.Prelude.{◌≡◌, ◌<◌, Some, option_map, slice_index_or};
ghost use Rattle.jc_programs.specs.Throwables.{throwables};
ghost use Rattle.jc_machine_memory.specs.Heaps.{element_at, element_type};

use jc_programs::Thrown;

/// An integral type, of which there are arrays.
#[derive(Clone, Copy, Debug, PartialEq, Eq)]
pub enum Element {
    Boolean,
    Char,
    Byte,
    Short,
    Int,
    Long,
}

impl Element {
    /// The type's code (JVM Specification 6.5, newarray).
    pub fn code(self) -> u64
        ensures { element_at result ≡ Some (element_type self) }
    {
        match self {
            Element::Boolean => 4,
            Element::Char => 5,
            Element::Byte => 8,
            Element::Short => 9,
            Element::Int => 10,
            Element::Long => 11,
        }
    }

    /// The type with a code, if there is one.
    pub fn of_code(code: u64) -> Option<Element>
        ensures { option_map element_type result ≡ element_at code }
    {
        match code {
            4 => Some(Element::Boolean),
            5 => Some(Element::Char),
            8 => Some(Element::Byte),
            9 => Some(Element::Short),
            10 => Some(Element::Int),
            11 => Some(Element::Long),
            _ => None,
        }
    }
}

/// The classes of throwables in the order of their numbers.
static CLASSES: [Thrown; 15] = [
    Thrown::Throwable,
    Thrown::Exception,
    Thrown::Error,
    Thrown::RuntimeException,
    Thrown::ArithmeticException,
    Thrown::IllegalArgumentException,
    Thrown::IllegalStateException,
    Thrown::NullPointerException,
    Thrown::NegativeArraySizeException,
    Thrown::ArrayStoreException,
    Thrown::IndexOutOfBoundsException,
    Thrown::ArrayIndexOutOfBoundsException,
    Thrown::VirtualMachineError,
    Thrown::StackOverflowError,
    Thrown::OutOfMemoryError,
];

/// The number of a class of throwables.
pub fn class_number(thrown: Thrown) -> u64
    ensures class { slice_index_or throwables result Thrown.Throwable ≡ thrown }
    ensures few { result < 15 }
{
    match thrown {
        Thrown::Throwable => 0,
        Thrown::Exception => 1,
        Thrown::Error => 2,
        Thrown::RuntimeException => 3,
        Thrown::ArithmeticException => 4,
        Thrown::IllegalArgumentException => 5,
        Thrown::IllegalStateException => 6,
        Thrown::NullPointerException => 7,
        Thrown::NegativeArraySizeException => 8,
        Thrown::ArrayStoreException => 9,
        Thrown::IndexOutOfBoundsException => 10,
        Thrown::ArrayIndexOutOfBoundsException => 11,
        Thrown::VirtualMachineError => 12,
        Thrown::StackOverflowError => 13,
        Thrown::OutOfMemoryError => 14,
    }
}

/// The class of throwables with a number; Throwable past the last.
pub fn class_of_number(number: u64) -> Thrown
    ensures { result ≡ slice_index_or throwables number Thrown.Throwable }
{
    if number < 15 {
        CLASSES[number as usize]
    } else {
        Thrown::Throwable
    }
}
