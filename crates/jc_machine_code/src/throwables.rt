//! Classes of throwables by their names.
ghost use Rattle.std.specs.Prelude.{◌≡◌, find, bytes_eq};
ghost use Rattle.jc_programs.specs.Throwables.{name_of, thrown_named, superclass, is_named_in};
ghost use Rattle.jc_machine_model.specs.Profile.{made_class, make_operation, build_operation};
ghost use Rattle.jc_machine_code.specs.Shown.{Shows};

use crate::Operation;
use jc_programs::Thrown;

/// The classes that the machine knows.
const THROWABLES: [Thrown; 15] = [
    Thrown::Throwable,
    Thrown::Exception,
    Thrown::Error,
    Thrown::RuntimeException,
    Thrown::ArithmeticException,
    Thrown::IllegalArgumentException,
    Thrown::IllegalStateException,
    Thrown::NullPointerException,
    Thrown::NegativeArraySizeException,
    Thrown::ArrayStoreException,
    Thrown::IndexOutOfBoundsException,
    Thrown::ArrayIndexOutOfBoundsException,
    Thrown::VirtualMachineError,
    Thrown::StackOverflowError,
    Thrown::OutOfMemoryError,
];

/// The most classes in a line from a class up to Throwable.
const MOST_LINE: u32 = 5;

/// The name of a class of throwables.
fn name_of(class: Thrown) -> &'static [u8]
    ensures { result.now ≡ name_of class }
{
    match class {
        Thrown::Throwable => b"java/lang/Throwable",
        Thrown::Exception => b"java/lang/Exception",
        Thrown::Error => b"java/lang/Error",
        Thrown::RuntimeException => b"java/lang/RuntimeException",
        Thrown::ArithmeticException => b"java/lang/ArithmeticException",
        Thrown::IllegalArgumentException => b"java/lang/IllegalArgumentException",
        Thrown::IllegalStateException => b"java/lang/IllegalStateException",
        Thrown::NullPointerException => b"java/lang/NullPointerException",
        Thrown::NegativeArraySizeException => b"java/lang/NegativeArraySizeException",
        Thrown::ArrayStoreException => b"java/lang/ArrayStoreException",
        Thrown::IndexOutOfBoundsException => b"java/lang/IndexOutOfBoundsException",
        Thrown::ArrayIndexOutOfBoundsException => b"java/lang/ArrayIndexOutOfBoundsException",
        Thrown::VirtualMachineError => b"java/lang/VirtualMachineError",
        Thrown::StackOverflowError => b"java/lang/StackOverflowError",
        Thrown::OutOfMemoryError => b"java/lang/OutOfMemoryError",
    }
}

/// The superclass of a class, if it has one.
fn superclass(class: Thrown) -> Option<Thrown>
    ensures { result ≡ superclass class }
{
    match class {
        Thrown::Throwable => None,
        Thrown::Exception | Thrown::Error => Some(Thrown::Throwable),
        Thrown::RuntimeException => Some(Thrown::Exception),
        Thrown::ArithmeticException
        | Thrown::IllegalArgumentException
        | Thrown::IllegalStateException
        | Thrown::NullPointerException
        | Thrown::NegativeArraySizeException
        | Thrown::ArrayStoreException
        | Thrown::IndexOutOfBoundsException => Some(Thrown::RuntimeException),
        Thrown::ArrayIndexOutOfBoundsException => Some(Thrown::IndexOutOfBoundsException),
        Thrown::VirtualMachineError => Some(Thrown::Error),
        Thrown::StackOverflowError | Thrown::OutOfMemoryError => Some(Thrown::VirtualMachineError),
    }
}

/// Whether the class is the other one, or one of its superclasses is.
pub fn extends(class: Thrown, other: Thrown) -> bool
    ensures { result ≡ is_named_in class (name_of other) }
{
    let mut left = MOST_LINE;
    let mut line = Some(class);
    'rising: while left > 0 {
        left -= 1;
        match line {
            None => return false,
            Some(above) => {
                if above == other {
                    return true;
                }
                line = superclass(above);
            }
        }
    }
    false
}

/// Whether a class of throwables has a name.
fn is_named(class: Thrown, name: &[u8]) -> bool
    ensures { result ≡ bytes_eq (name_of class) name.now }
{
    name_of(class) == name
}

/// The first of some classes that has a name.
fn first_named(classes: &[Thrown], name: &[u8]) -> Option<Thrown>
    ensures { result ≡ find (λ c. bytes_eq (name_of c) name.now) classes.now }
{
    classes.iter().copied().find(|class| is_named(*class, name))
}

/// The class of throwables with a name, if there is one.
pub fn thrown_named(name: &[u8]) -> Option<Thrown>
    ensures { result ≡ thrown_named name.now }
{
    first_named(&THROWABLES, name)
}

/// The class of throwables with a name, if there are objects of it: VirtualMachineError is abstract.
pub fn made_class(name: &[u8]) -> Option<Thrown>
    ensures { result ≡ made_class name.now }
{
    match thrown_named(name) {
        Some(Thrown::VirtualMachineError) => None,
        other => other,
    }
}

/// `new` of a class with a name.
pub fn make_operation(name: &[u8]) -> Operation
    ensures { Shows result (make_operation (made_class name.now)) }
{
    match made_class(name) {
        None => Operation::Outside,
        Some(class) => Operation::Makes(class),
    }
}

/// A call of the constructor without parameters of a class with a name.
pub fn build_operation(name: &[u8]) -> Operation
    ensures { Shows result (build_operation (made_class name.now)) }
{
    match made_class(name) {
        None => Operation::Outside,
        Some(class) => Operation::Builds(class),
    }
}
