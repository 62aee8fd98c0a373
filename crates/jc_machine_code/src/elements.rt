//! The types of the elements that an instruction loads or stores.
ghost use Rattle.std.specs.Prelude.{◌≡◌, [], MatchOption};
ghost use Rattle.jc_machine_model.specs.Profile.{elements_of, read_operation, write_operation};
ghost use Rattle.jc_machine_code.specs.Types.{element_types};
ghost use Rattle.jc_machine_code.specs.Shown.{Shows};

use crate::{ElementTypes, Operation};
use jc_methods::opcode;

/// The types of the elements that `iaload`, `laload`, `baload`, `caload` or `saload` loads.
fn elements_of(op: u8) -> Option<ElementTypes>
    ensures { MatchOption result (elements_of op ≡ []) (λ elements. elements_of op ≡ element_types elements) }
{
    match op {
        opcode::IALOAD => Some(ElementTypes::Int),
        opcode::LALOAD => Some(ElementTypes::Long),
        opcode::BALOAD => Some(ElementTypes::ByteOrBoolean),
        opcode::CALOAD => Some(ElementTypes::Char),
        opcode::SALOAD => Some(ElementTypes::Short),
        _ => None,
    }
}

/// A load from an array, by its opcode.
pub fn read_operation(op: u8) -> Operation
    ensures { Shows result (read_operation (elements_of op)) }
{
    match elements_of(op) {
        Some(elements) => Operation::Reads(elements),
        None => Operation::Outside,
    }
}

/// A store into an array, by the opcode of the load of the same type.
pub fn write_operation(op: u8) -> Operation
    ensures { Shows result (write_operation (elements_of op)) }
{
    match elements_of(op) {
        Some(elements) => Operation::Writes(elements),
        None => Operation::Outside,
    }
}
