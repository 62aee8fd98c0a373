//! Shifts and bit operations on ints and longs.
ghost use Rattle.std.specs.Prelude.{◌≡◌, List};
ghost use Rattle.jc_machine_model.specs.Values.{Value};
ghost use Rattle.jc_machine_model.specs.Effects.{int_bits, long_shift};
ghost use Rattle.jc_machine_numbers.specs.Descriptions.{effect_on};

use crate::Effect;
use jc_methods::opcode;

/// An int in place of so many operands.
pub fn int_for(taken: u8, value: i32) -> Effect
    ensures { result ≡ Effect.Int taken value }
{
    Effect::Int { taken, value }
}

/// A long in place of so many operands.
pub fn long_for(taken: u8, value: i64) -> Effect
    ensures { result ≡ Effect.Long taken value }
{
    Effect::Long { taken, value }
}

/// `ishl`, `ishr`, `iushr`, `iand`, `ior` and `ixor` of two ints, the second of them on top.
#[tactic(auto, unfolding(jc_machine_model::specs::Effects::int_bits))]
pub fn int_bits(op: u8, x: i32, y: i32) -> Effect
    ensures { (stack : List Value) → effect_on result stack ≡ int_bits op x y }
{
    let count = y.cast_unsigned();
    match op {
        opcode::ISHL => int_for(2, x.wrapping_shl(count)),
        opcode::ISHR => int_for(2, x.wrapping_shr(count)),
        opcode::IUSHR => int_for(2, (x.cast_unsigned() >> (count % 32)).cast_signed()),
        opcode::IAND => int_for(2, x & y),
        opcode::IOR => int_for(2, x | y),
        opcode::IXOR => int_for(2, x ^ y),
        _ => Effect::Unfit,
    }
}

/// `lshl`, `lshr` and `lushr` of a long by an int, which is on top.
#[tactic(auto, unfolding(jc_machine_model::specs::Effects::long_shift))]
pub fn long_shift(op: u8, x: i64, y: i32) -> Effect
    ensures { (stack : List Value) → effect_on result stack ≡ long_shift op x y }
{
    let count = y.cast_unsigned();
    match op {
        opcode::LSHL => long_for(2, x.wrapping_shl(count)),
        opcode::LSHR => long_for(2, x.wrapping_shr(count)),
        opcode::LUSHR => long_for(2, (x.cast_unsigned() >> (count % 64)).cast_signed()),
        _ => Effect::Unfit,
    }
}
