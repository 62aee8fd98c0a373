//! Constants (JVM Specification 6.5, ldc, ldc2_w).
ghost use Rattle.std.specs.Prelude.{◌≡◌, Some};
ghost use Rattle.jc_machine_model.specs.Profile.{Location, init_of, given_of, constant_operation, long_operation};
ghost use Rattle.jc_machine_code.specs.Shown.{Shows};

use crate::Operation;
use crate::given::{computed_operation, given_by};
use jc_methods::What;
use jc_programs::ProbeInit;

/// `ldc` at a place, in the class with a number. `init` is what the method gives when it asks for a probe array, and `given`
/// what the class gives its methods by a constant.
pub fn constant_operation(
    class: u32,
    place: u32,
    init: Option<ProbeInit>,
    given: Option<ProbeInit>,
    what: &What,
) -> Operation
    ensures { (at : Location) → at.class ≡ class → at.place ≡ place → init_of at ≡ init → given_of at.linked ≡ given
        → Shows result (constant_operation at (Some what.now)) }
{
    match what {
        What::Int(value) => Operation::PushInt(*value),
        What::Text => match init {
            Some(_) => Operation::PushText { class },
            None => Operation::Outside,
        },
        What::Computed {
            name,
            desc,
            bootstrap,
        } => computed_operation(
            class,
            place,
            given_by(given, name.as_slice(), desc.as_slice(), *bootstrap),
        ),
        What::Field { .. } | What::Method { .. } | What::Call { .. } | What::Class(_) =>
            Operation::Outside,
        What::Long(_) | What::Float | What::Double | What::Handle => Operation::Outside,
        What::MethodKind => Operation::Outside,
    }
}

/// `ldc2_w`.
pub fn long_operation(what: &What) -> Operation
    ensures { Shows result (long_operation (Some what.now)) }
{
    match what {
        What::Long(value) => Operation::PushLong(*value),
        What::Field { .. } | What::Method { .. } | What::Call { .. } | What::Class(_) =>
            Operation::Outside,
        What::Int(_) | What::Text | What::Float | What::Double | What::Handle => Operation::Outside,
        What::MethodKind | What::Computed { .. } => Operation::Outside,
    }
}
