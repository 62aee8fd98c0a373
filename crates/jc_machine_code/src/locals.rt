//! Loads and stores of local variables (JVM Specification 2.6.1, 6.5).
ghost use Rattle.std.specs.Prelude.{◌≡◌};
ghost use Rattle.std.specs.Option.{option_map};
ghost use Rattle.jc_machine_model.specs.Profile.{local_type, local_operation};
ghost use Rattle.jc_machine_code.specs.Types.{computational};
ghost use Rattle.jc_machine_code.specs.Shown.{Shows};

use crate::{ComputationalType, Operation};
use jc_methods::opcode;

/// The type of the values that a load or a store of a local variable moves, if the machine has any.
fn local_type(op: u8) -> Option<ComputationalType>
    ensures { option_map computational result ≡ local_type op }
{
    match op {
        opcode::ILOAD | opcode::ISTORE => Some(ComputationalType::Int),
        opcode::LLOAD | opcode::LSTORE => Some(ComputationalType::Long),
        opcode::ALOAD | opcode::ASTORE => Some(ComputationalType::Reference),
        _ => None,
    }
}

/// A load or a store of a local variable.
pub fn local_operation(op: u8, slot: u16) -> Operation
    ensures { Shows result (local_operation op slot) }
{
    match local_type(op) {
        None => Operation::Outside,
        Some(kind) => {
            if op < opcode::ISTORE {
                Operation::Loads { kind, slot }
            } else {
                Operation::Stores { kind, slot }
            }
        }
    }
}
