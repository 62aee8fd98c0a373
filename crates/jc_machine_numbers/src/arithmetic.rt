//! Arithmetic, conversions and comparison of ints and longs.
ghost use Rattle.std.specs.Prelude.{◌≡◌, List};
ghost use Rattle.jc_machine_model.specs.Values.{Value};
ghost use Rattle.jc_machine_model.specs.Effects.{int_for as an_int_for, long_for as a_long_for, divided, int_pair, compared, long_pair, int_single, long_single};
ghost use Rattle.std.specs.Prelude.{int_rem};
ghost use Rattle.std.specs.Int.{w32, w64, int_wrapping_div};
ghost use Rattle.jc_machine_numbers.specs.Descriptions.{effect_on};

use crate::Effect;
use crate::bits::{int_bits, int_for, long_for};
use crate::narrowing::{to_byte, to_char, to_short};
use jc_methods::opcode;
use jc_programs::Thrown;

/// `idiv`.
fn int_quotient(x: i32, y: i32) -> Effect
    ensures { (stack : List Value) → effect_on result stack ≡ divided y (an_int_for 2 (int_wrapping_div w32 x y)) }
{
    if y == 0 {
        Effect::Raises(Thrown::ArithmeticException)
    } else {
        int_for(2, x.wrapping_div(y))
    }
}

/// `irem`.
fn int_remainder(x: i32, y: i32) -> Effect
    ensures { (stack : List Value) → effect_on result stack ≡ divided y (an_int_for 2 (int_rem x y)) }
{
    if y == 0 {
        Effect::Raises(Thrown::ArithmeticException)
    } else {
        int_for(2, x.wrapping_rem(y))
    }
}

/// `ldiv`.
fn long_quotient(x: i64, y: i64) -> Effect
    ensures { (stack : List Value) → effect_on result stack ≡ divided y (a_long_for 2 (int_wrapping_div w64 x y)) }
{
    if y == 0 {
        Effect::Raises(Thrown::ArithmeticException)
    } else {
        long_for(2, x.wrapping_div(y))
    }
}

/// `lrem`.
fn long_remainder(x: i64, y: i64) -> Effect
    ensures { (stack : List Value) → effect_on result stack ≡ divided y (a_long_for 2 (int_rem x y)) }
{
    if y == 0 {
        Effect::Raises(Thrown::ArithmeticException)
    } else {
        long_for(2, x.wrapping_rem(y))
    }
}

/// The instructions on two ints, the second of them on top.
#[tactic(auto, unfolding(jc_machine_model::specs::Effects::int_pair))]
pub fn int_pair(op: u8, x: i32, y: i32) -> Effect
    ensures { (stack : List Value) → effect_on result stack ≡ int_pair op x y }
{
    match op {
        opcode::IADD => int_for(2, x.wrapping_add(y)),
        opcode::ISUB => int_for(2, x.wrapping_sub(y)),
        opcode::IMUL => int_for(2, x.wrapping_mul(y)),
        opcode::IDIV => int_quotient(x, y),
        opcode::IREM => int_remainder(x, y),
        _ => int_bits(op, x, y),
    }
}

/// -1 where the first is less, 1 where it is greater, else 0.
#[tactic(auto, unfolding(jc_machine_model::specs::Effects::compared))]
fn compared(x: i64, y: i64) -> i32
    ensures { result ≡ compared x y }
{
    if x < y {
        -1
    } else if y < x {
        1
    } else {
        0
    }
}

/// The instructions on two longs, the second of them on top.
#[tactic(auto, unfolding(jc_machine_model::specs::Effects::long_pair))]
pub fn long_pair(op: u8, x: i64, y: i64) -> Effect
    ensures { (stack : List Value) → effect_on result stack ≡ long_pair op x y }
{
    match op {
        opcode::LADD => long_for(2, x.wrapping_add(y)),
        opcode::LSUB => long_for(2, x.wrapping_sub(y)),
        opcode::LMUL => long_for(2, x.wrapping_mul(y)),
        opcode::LDIV => long_quotient(x, y),
        opcode::LREM => long_remainder(x, y),
        opcode::LAND => long_for(2, x & y),
        opcode::LOR => long_for(2, x | y),
        opcode::LXOR => long_for(2, x ^ y),
        opcode::LCMP => int_for(2, compared(x, y)),
        _ => Effect::Unfit,
    }
}

/// The instructions on one int.
#[tactic(auto, unfolding(jc_machine_model::specs::Effects::int_single))]
pub fn int_single(op: u8, x: i32) -> Effect
    ensures { (stack : List Value) → effect_on result stack ≡ int_single op x }
{
    match op {
        opcode::INEG => int_for(1, x.wrapping_neg()),
        opcode::I2L => long_for(1, i64::from(x)),
        opcode::I2B => int_for(1, to_byte(x)),
        opcode::I2C => int_for(1, to_char(x)),
        opcode::I2S => int_for(1, to_short(x)),
        _ => Effect::Unfit,
    }
}

/// The instructions on one long.
#[tactic(auto, unfolding(jc_machine_model::specs::Effects::long_single))]
pub fn long_single(op: u8, x: i64) -> Effect
    ensures { (stack : List Value) → effect_on result stack ≡ long_single op x }
{
    match op {
        opcode::LNEG => long_for(1, x.wrapping_neg()),
        opcode::L2I => int_for(1, ((x.cast_unsigned() & 0xffff_ffff) as u32).cast_signed()),
        _ => Effect::Unfit,
    }
}
