//! Calls of `println` and of constructors (JVM Specification 6.5, invokevirtual, invokespecial).
ghost use Rattle.std.specs.Prelude.{◌≡◌, ◌&&◌, codes, bytes_eq};
ghost use Rattle.std.specs.Option.{option_map};
ghost use Rattle.jc_machine_model.specs.Profile.{Location, in_init, printed_by, print_operation, virtual_call, special_call};
ghost use Rattle.jc_machine_code.specs.Types.{printed};
ghost use Rattle.jc_machine_code.specs.Shown.{Shows};

use crate::throwables::build_operation;
use crate::{Operation, Printed};

/// What `println` prints, by its descriptor.
fn printed_by(desc: &[u8]) -> Option<Printed>
    ensures { option_map printed result ≡ printed_by desc.now }
{
    if desc == b"(I)V".as_slice() {
        Some(Printed::IntLine)
    } else if desc == b"(J)V".as_slice() {
        Some(Printed::LongLine)
    } else if desc == b"(Z)V".as_slice() {
        Some(Printed::BooleanLine)
    } else if desc == b"()V".as_slice() {
        Some(Printed::EmptyLine)
    } else {
        None
    }
}

/// `println` with a descriptor.
fn print_operation(desc: &[u8]) -> Operation
    ensures { Shows result (print_operation (printed_by desc.now)) }
{
    match printed_by(desc) {
        None => Operation::Outside,
        Some(line) => Operation::Prints(line),
    }
}

/// `invokevirtual`. `is_init` says whether it stands in a method named `$jacocoInit`.
pub fn virtual_call(is_init: bool, class: &[u8], name: &[u8], desc: &[u8]) -> Operation
    ensures { (at : Location) → in_init at ≡ is_init → Shows result (virtual_call at class.now name.now desc.now) }
{
    if !is_init && (class == b"java/io/PrintStream".as_slice() && name == b"println".as_slice()) {
        print_operation(desc)
    } else {
        Operation::Outside
    }
}

/// Whether they are the name and the descriptor of a constructor without parameters.
fn is_constructor(name: &[u8], desc: &[u8]) -> bool
    ensures { result ≡ (bytes_eq name.now (codes "<init>") && bytes_eq desc.now (codes "()V")) }
{
    name == b"<init>".as_slice() && desc == b"()V".as_slice()
}

/// `invokespecial`. `is_init` says whether it stands in a method named `$jacocoInit`.
pub fn special_call(is_init: bool, class: &[u8], name: &[u8], desc: &[u8]) -> Operation
    ensures { (at : Location) → in_init at ≡ is_init → Shows result (special_call at class.now name.now desc.now) }
{
    if is_init {
        return Operation::Outside;
    }
    if !is_constructor(name, desc) {
        return Operation::Outside;
    }
    build_operation(class)
}
