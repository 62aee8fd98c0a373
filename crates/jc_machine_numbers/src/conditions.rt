//! The tests of conditional jumps (JVM Specification 6.5).
ghost use Rattle.std.specs.Prelude.{◌≡◌, List};
ghost use Rattle.jc_machine_model.specs.Values.{Value};
ghost use Rattle.jc_machine_model.specs.Jumps.{compares, agrees, zero_test, int_test, reference_test, null_test, test_of};
ghost use Rattle.jc_machine_numbers.specs.Descriptions.{test_on};
ghost use Rattle.jc_machine_numbers.specs.Operands.{first_of, second_of, TellsSame};

use crate::{Operand, Test};
use jc_methods::opcode;

/// The comparison with this number, in the order of the opcodes: eq, ne, lt, ge, gt, le.
fn compares(kind: u8, x: i32, y: i32) -> bool
    ensures { result ≡ compares kind x y }
{
    match kind {
        0 => x == y,
        1 => x != y,
        2 => x < y,
        3 => x >= y,
        4 => x > y,
        _ => x <= y,
    }
}

/// The comparison of references with this number: eq, ne.
fn agrees(kind: u8, same: bool) -> bool
    ensures { result ≡ agrees kind same }
{
    if kind == 0 { same } else { !same }
}

/// The top int, compared with 0.
fn zero_test(kind: u8, a: Operand) -> Test
    ensures { (stack : List Value) → a ≡ first_of stack → test_on result stack ≡ zero_test kind stack }
{
    match a {
        Operand::Int(x) => Test::Takes {
            taken: 1,
            jumps: compares(kind, x, 0),
        },
        Operand::Absent | Operand::Long(_) | Operand::Null | Operand::Reference => Test::Unfit,
    }
}

/// Two ints, a on top.
fn int_test(kind: u8, a: Operand, b: Operand) -> Test
    ensures { (stack : List Value) → a ≡ first_of stack → b ≡ second_of stack → test_on result stack ≡ int_test kind stack }
{
    match a {
        Operand::Int(y) => match b {
            Operand::Int(x) => Test::Takes {
                taken: 2,
                jumps: compares(kind, x, y),
            },
            Operand::Absent | Operand::Long(_) | Operand::Null | Operand::Reference => Test::Unfit,
        },
        Operand::Absent | Operand::Long(_) | Operand::Null | Operand::Reference => Test::Unfit,
    }
}

/// Two references, of which it is told whether they are one.
fn reference_test(kind: u8, a: Operand, b: Operand, same: bool) -> Test
    ensures { (stack : List Value) → a ≡ first_of stack → b ≡ second_of stack → TellsSame same stack
        → test_on result stack ≡ reference_test kind stack }
{
    match a {
        Operand::Null | Operand::Reference => match b {
            Operand::Null | Operand::Reference => Test::Takes {
                taken: 2,
                jumps: agrees(kind, same),
            },
            Operand::Absent | Operand::Int(_) | Operand::Long(_) => Test::Unfit,
        },
        Operand::Absent | Operand::Int(_) | Operand::Long(_) => Test::Unfit,
    }
}

/// The top reference, compared with null.
fn null_test(kind: u8, a: Operand) -> Test
    ensures { (stack : List Value) → a ≡ first_of stack → test_on result stack ≡ null_test kind stack }
{
    match a {
        Operand::Null => Test::Takes {
            taken: 1,
            jumps: agrees(kind, true),
        },
        Operand::Reference => Test::Takes {
            taken: 1,
            jumps: agrees(kind, false),
        },
        Operand::Absent | Operand::Int(_) | Operand::Long(_) => Test::Unfit,
    }
}

/// The test of a conditional jump (JVM Specification 6.5) where these operands are on top, a the topmost.
///
/// `same` says whether the two on top are one reference; it is looked at where both are references.
#[tactic(auto, unfolding(jc_machine_model::specs::Jumps::test_of))]
pub fn test(op: u8, a: Operand, b: Operand, same: bool) -> Test
    ensures { (stack : List Value) → a ≡ first_of stack → b ≡ second_of stack → TellsSame same stack
        → test_on result stack ≡ test_of op stack }
{
    if op < opcode::IF_ICMPEQ {
        zero_test(op.saturating_sub(opcode::IFEQ), a)
    } else if op < opcode::IF_ACMPEQ {
        int_test(op - opcode::IF_ICMPEQ, a, b)
    } else if op < opcode::GOTO {
        reference_test(op - opcode::IF_ACMPEQ, a, b, same)
    } else {
        null_test(op.saturating_sub(opcode::IFNULL), a)
    }
}
