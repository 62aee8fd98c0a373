//! The parts of an instruction as bytes.
ghost use Rattle.std.specs.Prelude.{◌≡◌, ◌≤◌, ◌+◌, ◌%◌, ◌<◌, ◌^◌, ◌++◌, ◌∷◌, ◌⊎◌, [], ℕ, List, false, length};
ghost use Rattle.std.specs.Prelude.{slice_index, OnOk, OnErr, All, map, IsTrue, ℤ, pos, ◌+ℤ◌, ◌≤ℤ◌, FitsSigned};
ghost use Rattle.std.specs.List.{flat_map};
ghost use Rattle.std.specs.Int.{w32, cast_unsigned};
ghost use Rattle.jc_bytes.specs.Reader.{most_read};
ghost use Rattle.jc_bytes.specs.BigNumbers.{short, word};
ghost use Rattle.jc_methods.specs.declared.form.Form.TheVariants as forms;
ghost use Rattle.jc_methods.specs.Opcode.{iload, aload, istore, astore, goto_w, newarray};
ghost use Rattle.jc_methods.specs.InsnForm.{form_of};
ghost use Rattle.jc_methods.specs.Insn.{arm_with_place};
ghost use Rattle.jc_insn.specs.Writing.{signed_byte, signed_short, difference, push_text, short_code};
ghost use Rattle.jc_insn.specs.Writing.{local_text, inc_text, constant_text, wide_jump_text, jump_text, arm_text};
ghost use Rattle.jc_insn.specs.Writing.{pad_text, last_key, table_text, lookup_text, interface_text, dynamic_text};
ghost use Rattle.jc_insn.specs.Writing.{multi_text};

use crate::size::{is_narrow_inc, padding};
use jc_bytes::{Memory, put_short, put_with_short, put_word};
use jc_methods::{Arm, Form, inverse, opcode};

/// The low byte of a signed number.
fn signed_byte(number: i16) -> u8
    ensures { result ≡ signed_byte number }
{
    (number.cast_unsigned() % 256) as u8
}

/// How far the second offset lies behind the first.
fn difference(at: u32, to: u32) -> u32
    ensures { result ≡ difference at to }
{
    to.wrapping_sub(at)
}

/// `bipush` or `sipush`.
pub fn put_push(out: &mut Vec<u8>, form: Form, op: u8, value: i16) -> Result<(), Memory>
    ensures { OnOk result (out.new.items ≡ out.old.items ++ push_text form op value) }
{
    match form {
        Form::PushByte => {
            out.push(op)?;
            out.push(signed_byte(value))?;
        }
        _ => put_with_short(out, op, value.cast_unsigned())?,
    }
    Ok(())
}

/// The opcode of a load or a store that has the local variable in it.
fn short_code(op: u8, slot: u8) -> u8
    requires op { ((iload ≤ op) × (op ≤ aload)) ⊎ ((istore ≤ op) × (op ≤ astore)) }
    requires slot { slot < 4 }
    ensures { result ≡ short_code op slot }
{
    if op < opcode::ISTORE {
        opcode::ILOAD_0 + 4 * (op - opcode::ILOAD) + slot
    } else {
        opcode::ISTORE_0 + 4 * (op - opcode::ISTORE) + slot
    }
}

/// A load or a store.
pub fn put_local(out: &mut Vec<u8>, op: u8, slot: u16) -> Result<(), Memory>
    requires { ((iload ≤ op) × (op ≤ aload)) ⊎ ((istore ≤ op) × (op ≤ astore)) }
    ensures { OnOk result (out.new.items ≡ out.old.items ++ local_text op slot) }
{
    if slot < 4 {
        out.push(short_code(op, slot as u8))?;
    } else if slot < 256 {
        out.push(op)?;
        out.push(slot as u8)?;
    } else {
        out.push(opcode::WIDE)?;
        put_with_short(out, op, slot)?;
    }
    Ok(())
}

/// `iinc`.
pub fn put_inc(out: &mut Vec<u8>, slot: u16, by: i16) -> Result<(), Memory>
    ensures { OnOk result (out.new.items ≡ out.old.items ++ inc_text slot by) }
{
    if is_narrow_inc(slot, by) {
        out.push(opcode::IINC)?;
        out.push(slot as u8)?;
        out.push(signed_byte(by))?;
    } else {
        out.push(opcode::WIDE)?;
        put_with_short(out, opcode::IINC, slot)?;
        put_short(out, by.cast_unsigned())?;
    }
    Ok(())
}

/// `ldc` or `ldc_w`.
pub fn put_constant(out: &mut Vec<u8>, place: u16) -> Result<(), Memory>
    ensures { OnOk result (out.new.items ≡ out.old.items ++ constant_text place) }
{
    if place < 256 {
        out.push(opcode::LDC)?;
        out.push(place as u8)?;
    } else {
        put_with_short(out, opcode::LDC_W, place)?;
    }
    Ok(())
}

/// `goto_w`.
fn put_goto(out: &mut Vec<u8>, at: u32, to: u32) -> Result<(), Memory>
    ensures { OnOk result (out.new.items ≡ out.old.items ++ goto_w ∷ word (difference at to)) }
{
    out.push(opcode::GOTO_W)?;
    put_word(out, difference(at, to))?;
    Ok(())
}

/// A wide jump.
fn put_wide_jump(out: &mut Vec<u8>, at: u32, op: u8, to: u32) -> Result<(), Memory>
    requires form { form_of op ≡ forms.Jump }
    requires at { at ≤ 2147483647 }
    ensures { OnOk result (out.new.items ≡ out.old.items ++ wide_jump_text at op to) }
{
    if op == opcode::GOTO {
        put_goto(out, at, to)?;
    } else {
        put_with_short(out, inverse(op), 8)?;
        put_goto(out, at + 3, to)?;
    }
    Ok(())
}

/// A jump.
pub fn put_jump(out: &mut Vec<u8>, at: u32, wide: bool, op: u8, to: u32) -> Result<(), Memory>
    requires form { form_of op ≡ forms.Jump }
    requires at { at ≤ 2147483647 }
    ensures { OnOk result (out.new.items ≡ out.old.items ++ jump_text at wide op to) }
{
    if wide {
        put_wide_jump(out, at, op, to)?;
    } else {
        put_with_short(out, op, (difference(at, to) % 65536) as u16)?;
    }
    Ok(())
}

/// What pads a switch.
#[tactic(auto, unfolding(crate::specs::Writing::pad_text))]
fn put_pad(out: &mut Vec<u8>, at: u32) -> Result<(), Memory>
    ensures { OnOk result (out.new.items ≡ out.old.items ++ pad_text at) }
{
    let pad = [0; 3];
    out.extend_from_slice(&pad[..padding(at) as usize])?;
    Ok(())
}

/// The arms of `tableswitch`.
fn put_offsets(out: &mut Vec<u8>, at: u32, starts: &[u32], arms: &[u32]) -> Result<(), Memory>
    requires { All (λ to. to < length starts.now) arms.now }
    ensures { OnOk result (out.new.items
        ≡ out.old.items ++ flat_map (λ to. word (difference at to)) (map (slice_index starts.now) arms.now)) }
{
    'writing: for to in arms {
        put_word(out, difference(at, starts[*to as usize]))?;
    }
    Ok(())
}

/// An arm of `lookupswitch`.
fn put_arm(out: &mut Vec<u8>, at: u32, starts: &[u32], arm: &Arm) -> Result<(), Memory>
    requires { arm.now.to < length starts.now }
    ensures text { OnOk result (out.new.items ≡ out.old.items ++ arm_text at (arm_with_place (slice_index starts.now) arm.now)) }
    ensures key { OnOk result (FitsSigned w32 arm.now.key) }
{
    put_word(out, arm.key.cast_unsigned())?;
    put_word(out, difference(at, starts[arm.to as usize]))?;
    Ok(())
}

/// The arms of `lookupswitch`.
fn put_arms(out: &mut Vec<u8>, at: u32, starts: &[u32], arms: &[Arm]) -> Result<(), Memory>
    requires { All (λ arm. arm.to < length starts.now) arms.now }
    ensures text { OnOk result (out.new.items
        ≡ out.old.items ++ flat_map (arm_text at) (map (arm_with_place (slice_index starts.now)) arms.now)) }
    ensures keys { OnOk result (All (λ arm. FitsSigned w32 arm.key) arms.now) }
{
    'writing: for arm in arms {
        put_arm(out, at, starts, arm)?;
    }
    Ok(())
}

/// The last of the keys from `low` on, as a number of 32 bits.
fn last_key(low: i32, count: u32) -> u32
    requires some { 1 ≤ count }
    requires few { count ≤ most_read }
    requires fits { (low +ℤ pos count) ≤ℤ pos 2147483648 }
    ensures { result ≡ cast_unsigned w32 (last_key low count) }
{
    (low + (count - 1) as i32).cast_unsigned()
}

/// `tableswitch`.
pub fn put_table(
    out: &mut Vec<u8>,
    at: u32,
    starts: &[u32],
    low: i32,
    default: u32,
    arms: &[u32],
) -> Result<(), Memory>
    requires some { 1 ≤ length arms.now }
    requires few { length arms.now ≤ most_read }
    requires fits { (low +ℤ pos (length arms.now)) ≤ℤ pos 2147483648 }
    requires default { default < length starts.now }
    requires places { All (λ to. to < length starts.now) arms.now }
    ensures { OnOk result (out.new.items
        ≡ out.old.items ++ table_text at low (slice_index starts.now default) (map (slice_index starts.now) arms.now)) }
{
    out.push(opcode::TABLESWITCH)?;
    put_pad(out, at)?;
    put_word(out, difference(at, starts[default as usize]))?;
    put_word(out, low.cast_unsigned())?;
    put_word(out, last_key(low, arms.len() as u32))?;
    put_offsets(out, at, starts, arms)?;
    Ok(())
}

/// `lookupswitch`.
pub fn put_lookup(
    out: &mut Vec<u8>,
    at: u32,
    starts: &[u32],
    default: u32,
    arms: &[Arm],
) -> Result<(), Memory>
    requires few { length arms.now ≤ most_read }
    requires default { default < length starts.now }
    requires places { All (λ arm. arm.to < length starts.now) arms.now }
    ensures text { OnOk result (out.new.items
        ≡ out.old.items ++ lookup_text at (slice_index starts.now default) (map (arm_with_place (slice_index starts.now)) arms.now)) }
    ensures keys { OnOk result (All (λ arm. FitsSigned w32 arm.key) arms.now) }
{
    out.push(opcode::LOOKUPSWITCH)?;
    put_pad(out, at)?;
    put_word(out, difference(at, starts[default as usize]))?;
    put_word(out, arms.len() as u32)?;
    put_arms(out, at, starts, arms)?;
    Ok(())
}

/// `invokeinterface`.
pub fn put_interface(out: &mut Vec<u8>, place: u16, count: u8) -> Result<(), Memory>
    ensures { OnOk result (out.new.items ≡ out.old.items ++ interface_text place count) }
{
    put_with_short(out, opcode::INVOKEINTERFACE, place)?;
    out.push(count)?;
    out.push(0)?;
    Ok(())
}

/// `invokedynamic`.
pub fn put_dynamic(out: &mut Vec<u8>, place: u16) -> Result<(), Memory>
    ensures { OnOk result (out.new.items ≡ out.old.items ++ dynamic_text place) }
{
    put_with_short(out, opcode::INVOKEDYNAMIC, place)?;
    out.push(0)?;
    out.push(0)?;
    Ok(())
}

/// `newarray`.
pub fn put_new_array(out: &mut Vec<u8>, elem: u8) -> Result<(), Memory>
    ensures { OnOk result (out.new.items ≡ out.old.items ++ newarray ∷ elem ∷ []) }
{
    out.push(opcode::NEWARRAY)?;
    out.push(elem)?;
    Ok(())
}

/// `multianewarray`.
pub fn put_multi(out: &mut Vec<u8>, place: u16, dims: u8) -> Result<(), Memory>
    ensures { OnOk result (out.new.items ≡ out.old.items ++ multi_text place dims) }
{
    put_with_short(out, opcode::MULTIANEWARRAY, place)?;
    out.push(dims)?;
    Ok(())
}
