//! Which classes stay as they are, and interfaces with code.
ghost use Rattle.std.specs.Prelude.{◌≡◌, ◌≤◌, IsTrue, length};
ghost use Rattle.std.specs.List.{list_any};
ghost use Rattle.jc_body.specs.Attributes.{has_name};
ghost use Rattle.jc_body.specs.First.{FirstItem};
ghost use Rattle.jc_instrument.specs.Causes.{FirstCause};
ghost use Rattle.jc_instrument.specs.LeftAlone.{has_code, is_left_alone};
ghost use Rattle.jc_instrument.specs.Reasons.{interface_causes};

use jc_body::has_name;
use jc_bytes::{Refusal, RefusalKind};
use jc_class::{Attribute, ClassFile, Member};
use jc_pool::Pool;

/// The flag of an interface (JVM Specification 4.1, ACC_INTERFACE).
const INTERFACE: u16 = 0x0200;

/// The flag of a synthetic class (ACC_SYNTHETIC).
const SYNTHETIC: u16 = 0x1000;

/// The flag of a module file (ACC_MODULE).
const MODULE: u16 = 0x8000;

/// Whether one of the attributes has this name.
fn some_named(pool: &Pool, name: &[u8], attributes: &[Attribute]) -> bool
    ensures { result ≡ list_any (has_name pool.now name.now) attributes.now }
{
    attributes
        .iter()
        .any(|attribute| has_name(pool, name, attribute))
}

/// Whether the method has a Code attribute.
fn has_code(pool: &Pool, method: &Member) -> bool
    ensures { result ≡ has_code pool.now method.now }
{
    some_named(pool, b"Code", &method.attributes)
}

/// Whether one of the methods has a Code attribute.
fn some_code(pool: &Pool, methods: &[Member]) -> bool
    ensures { result ≡ list_any (has_code pool.now) methods.now }
{
    methods.iter().any(|method| has_code(pool, method))
}

/// Whether the class stays as it is: a module file, a synthetic class, or a class or an interface without code.
pub fn is_left_alone(class: &ClassFile) -> bool
    ensures { result ≡ is_left_alone class.now }
{
    let flags = class.flags;
    flags & MODULE != 0 || (flags & SYNTHETIC != 0 || !some_code(&class.pool, &class.methods))
}

/// The number of the first method that has a Code attribute.
fn first_with_code(pool: &Pool, methods: &[Member]) -> Option<usize>
    ensures { FirstItem (λ number method. IsTrue (has_code pool.now method)) methods.now result }
{
    methods.iter().position(|method| has_code(pool, method))
}

/// Why an interface is refused: its first method with code.
pub fn interface_refusal(class: &ClassFile) -> Option<Refusal>
    requires { length class.now.methods ≤ 65535 }
    ensures { FirstCause (interface_causes class.now) result }
{
    if class.flags & INTERFACE == 0 {
        return None;
    }
    let number = first_with_code(&class.pool, &class.methods)?;
    Some(Refusal {
        kind: RefusalKind::InterfaceBody,
        method: Some(number as u16),
        place: 0,
    })
}
