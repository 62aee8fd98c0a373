//! What every instruction does that reads and writes the operand stack alone.
ghost use Rattle.std.specs.Prelude.{◌≡◌, ◌≤◌, List, [], ◌∷◌};
ghost use Rattle.jc_methods.specs.Opcode as opcodes;
ghost use Rattle.jc_machine_model.specs.Values.{Value};
ghost use Rattle.jc_machine_model.specs.Effects.{constant, moves_of, has_one_operand, effect};
ghost use Rattle.jc_machine_numbers.specs.Descriptions.{effect_on};
ghost use Rattle.jc_machine_numbers.specs.Categories.{moved_by};
ghost use Rattle.jc_machine_numbers.specs.Operands.{category_of, single_of, pair_of, AreOnTop};

use crate::arithmetic::{int_pair, int_single, long_pair, long_single};
use crate::bits::{int_for, long_for, long_shift};
use crate::moves::moved;
use crate::{Effect, Operand};
use jc_methods::opcode;

/// `nop`, `aconst_null`, `iconst_m1` to `iconst_5`, `lconst_0` and `lconst_1`.
#[tactic(auto, unfolding(jc_machine_model::specs::Effects::constant))]
fn constant(op: u8) -> Effect
    requires { op ≤ opcodes.lconst_1 }
    ensures { (stack : List Value) → effect_on result stack ≡ constant op }
{
    match op {
        opcode::NOP => Effect::Moves {
            taken: 0,
            places: &[],
        },
        opcode::ACONST_NULL => Effect::Null,
        opcode::LCONST_0 => long_for(0, 0),
        opcode::LCONST_1 => long_for(0, 1),
        _ => int_for(0, i32::from(op) - i32::from(opcode::ICONST_0)),
    }
}

/// The instructions on one number.
fn single(op: u8, a: Operand) -> Effect
    ensures { (stack : List Value) → effect_on result stack ≡ single_of op a }
{
    match a {
        Operand::Int(x) => int_single(op, x),
        Operand::Long(x) => long_single(op, x),
        Operand::Absent | Operand::Null | Operand::Reference => Effect::Unfit,
    }
}

/// The instructions on two numbers, a on top.
fn pair(op: u8, a: Operand, b: Operand) -> Effect
    ensures { (stack : List Value) → effect_on result stack ≡ pair_of op a b }
{
    match a {
        Operand::Int(y) => match b {
            Operand::Int(x) => int_pair(op, x, y),
            Operand::Long(x) => long_shift(op, x, y),
            Operand::Absent | Operand::Null | Operand::Reference => Effect::Unfit,
        },
        Operand::Long(y) => match b {
            Operand::Long(x) => long_pair(op, x, y),
            Operand::Int(_) | Operand::Absent | Operand::Null | Operand::Reference => Effect::Unfit,
        },
        Operand::Absent | Operand::Null | Operand::Reference => Effect::Unfit,
    }
}

/// An instruction that moves operands, a the topmost.
fn moved_operands(op: u8, a: Operand, b: Operand, c: Operand, d: Operand) -> Effect
    ensures { (stack : List Value) → effect_on result stack
        ≡ moved_by (moves_of op) (category_of a ∷ category_of b ∷ category_of c ∷ category_of d ∷ []) stack }
{
    moved(op, a.category(), b.category(), c.category(), d.category())
}

/// `ineg` to `dneg`, and `i2l` to `i2s`.
fn has_one_operand(op: u8) -> bool
    ensures { result ≡ has_one_operand op }
{
    (opcode::INEG <= op && op <= opcode::DNEG) || (opcode::I2L <= op && op <= opcode::I2S)
}

/// What an instruction that reads and writes the operand stack alone does where these operands are on top,
/// a the topmost (JVM Specification 6.5).
///
/// Sums wrap around, and the least number divided by -1 is the least number. Shift counts are masked to five
/// bits for an int and to six for a long. A division by zero raises ArithmeticException. The opcode of any
/// other instruction, and an operand that is missing or of another kind, is unfit.
#[tactic(auto, unfolding(jc_machine_model::specs::Effects::effect))]
pub fn effect(op: u8, a: Operand, b: Operand, c: Operand, d: Operand) -> Effect
    ensures { (stack : List Value) → AreOnTop a b c d stack → effect_on result stack ≡ effect op stack }
{
    if op <= opcode::LCONST_1 {
        constant(op)
    } else if op < opcode::IADD {
        moved_operands(op, a, b, c, d)
    } else if has_one_operand(op) {
        single(op, a)
    } else {
        pair(op, a, b)
    }
}
