//! Instructions without operands, and `newarray`.
ghost use Rattle.std.specs.Prelude.{◌≡◌};
ghost use Rattle.jc_methods.specs.DescriptorTypes.{method_type_in};
ghost use Rattle.jc_methods.specs.declared.body.Body.{Body};
ghost use Rattle.jc_methods.specs.Flow.{is_return};
ghost use Rattle.jc_machine_model.specs.Profile.{Location, return_operation, simple_operation, array_operation};
ghost use Rattle.jc_machine_code.specs.Types.{return_narrowing};
ghost use Rattle.jc_machine_code.specs.Shown.{Shows};

use crate::elements::{read_operation, write_operation};
use crate::{ComputationalType, Operation, PrimitiveType};
use jc_machine_numbers::Narrowing;
use jc_methods::opcode;

/// `ireturn`, `lreturn`, `areturn` and `return`, in a method that narrows an int that it returns so.
fn return_operation(op: u8, narrowing: Narrowing) -> Operation
    ensures { (b : Body) → return_narrowing (method_type_in b.desc).returns ≡ narrowing → Shows result (return_operation op b) }
{
    match op {
        opcode::IRETURN => Operation::Returns {
            kind: ComputationalType::Int,
            narrowing,
        },
        opcode::LRETURN => Operation::Returns {
            kind: ComputationalType::Long,
            narrowing,
        },
        opcode::ARETURN => Operation::Returns {
            kind: ComputationalType::Reference,
            narrowing,
        },
        opcode::RETURN => Operation::ReturnsNothing,
        _ => Operation::Outside,
    }
}

/// `ireturn` to `return`.
fn is_return(op: u8) -> bool
    ensures { result ≡ is_return op }
{
    opcode::IRETURN <= op && op <= opcode::RETURN
}

/// An instruction without operands, in a method that narrows an int that it returns so.
pub fn simple_operation(op: u8, narrowing: Narrowing) -> Operation
    ensures { (at : Location) → return_narrowing (method_type_in at.body.desc).returns ≡ narrowing → Shows result (simple_operation op at) }
{
    if opcode::IALOAD <= op && op <= opcode::SALOAD {
        read_operation(op)
    } else if opcode::IASTORE <= op && op <= opcode::SASTORE {
        write_operation(op - (opcode::IASTORE - opcode::IALOAD))
    } else if is_return(op) {
        return_operation(op, narrowing)
    } else if op == opcode::ARRAYLENGTH {
        Operation::Measures
    } else if op == opcode::ATHROW {
        Operation::ThrowsTop
    } else {
        Operation::Computes(op)
    }
}

/// `newarray`, by the code of the elements' type (JVM Specification 6.5, newarray).
pub fn array_operation(code: u8) -> Operation
    ensures { Shows result (array_operation code) }
{
    match code {
        4 => Operation::MakesArray(PrimitiveType::Boolean),
        5 => Operation::MakesArray(PrimitiveType::Char),
        8 => Operation::MakesArray(PrimitiveType::Byte),
        9 => Operation::MakesArray(PrimitiveType::Short),
        10 => Operation::MakesArray(PrimitiveType::Int),
        11 => Operation::MakesArray(PrimitiveType::Long),
        _ => Operation::Outside,
    }
}
