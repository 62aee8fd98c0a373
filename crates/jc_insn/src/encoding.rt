//! Instructions as bytes.
ghost use Rattle.std.specs.Prelude.{◌≡◌, ◌≤◌, ◌<◌, ◌++◌, List, ℕ, length, slice_index, OnOk, OnErr, All};
ghost use Rattle.jc_bytes.specs.Reader.{most_read};
ghost use Rattle.jc_methods.specs.Flow.{targets_of};
ghost use Rattle.jc_methods.specs.Insn.{arm_count, IsWellFormed, with_places};
ghost use Rattle.jc_methods.specs.Widened.{listed};
ghost use Rattle.jc_insn.specs.Sizes.{StartAt};
ghost use Rattle.jc_insn.specs.Writing.{insn_text, code_text, AllNear, IsInRange};
ghost use Rattle.jc_insn.specs.Layouts.{AppendsSpelling};

use crate::write::{
    put_constant, put_dynamic, put_inc, put_interface, put_jump, put_local, put_lookup, put_multi,
    put_new_array, put_push, put_table,
};
use jc_bytes::{Memory, put_with_short};
use jc_methods::{Insn, form_of, is_listed, opcode};
use std::alloc::Global;

/// An instruction that begins at the offset `at`.
#[tactic(auto, unfolding(crate::specs::Writing::insn_text))]
fn put_insn(
    out: &mut Vec<u8>,
    at: u32,
    starts: &[u32],
    wide: bool,
    insn: &Insn,
) -> Result<(), Memory>
    requires at { at ≤ 2147483647 }
    requires well_formed { IsWellFormed insn.now }
    requires places { All (λ to. to < length starts.now) (targets_of insn.now) }
    requires few { arm_count insn.now ≤ most_read }
    ensures range { OnOk result (IsInRange insn.now) }
    ensures text { OnOk result (out.new.items
        ≡ out.old.items ++ insn_text at wide (with_places (slice_index starts.now) insn.now)) }
{
    match insn {
        Insn::Simple(op) => out.push(*op)?,
        Insn::Push { op, value } => put_push(out, form_of(*op), *op, *value)?,
        Insn::Local { op, slot } => put_local(out, *op, *slot)?,
        Insn::Inc { slot, by } => put_inc(out, *slot, *by)?,
        Insn::Constant { place } => put_constant(out, *place)?,
        Insn::Constant2 { place } => put_with_short(out, opcode::LDC2_W, *place)?,
        Insn::Member { op, place } => put_with_short(out, *op, *place)?,
        Insn::Interface { place, count } => put_interface(out, *place, *count)?,
        Insn::Dynamic { place } => put_dynamic(out, *place)?,
        Insn::OfClass { op, place } => put_with_short(out, *op, *place)?,
        Insn::NewArray { elem } => put_new_array(out, *elem)?,
        Insn::Multi { place, dims } => put_multi(out, *place, *dims)?,
        Insn::Jump { op, to } => put_jump(out, at, wide, *op, starts[*to as usize])?,
        Insn::Table { low, default, arms } => put_table(out, at, starts, *low, *default, arms)?,
        Insn::Lookup { default, arms } => put_lookup(out, at, starts, *default, arms)?,
    }
    Ok(())
}

/// Puts the bytes of instructions, each in its shortest spelling, at the end of `into`
/// (JVM Specification 4.7.3 and 6.5).
///
/// `starts` has the offset of each instruction and then the length of the code. `wide` says of each
/// instruction whether it is a wide jump, and of those behind its end that they are none; of what is
/// no jump it says nothing. A jump takes two bytes for its operand. A wide `goto` is written as
/// `goto_w`, and a wide conditional jump as its inverse over a `goto_w`. What pads a switch, the
/// last byte of `invokeinterface` and the last two of `invokedynamic` are 0. An `Err` leaves `into`
/// as it was.
pub fn encode(
    alloc: Global,
    code: &[Insn],
    starts: &[u32],
    wide: &[bool],
    into: &mut Vec<u8>,
) -> Result<(), Memory>
    requires starts { StartAt (listed wide.now) code.now starts.now }
    requires end { slice_index starts.now (length code.now) ≤ 2147483647 }
    requires well_formed { All IsWellFormed code.now }
    requires places { All (λ insn. All (λ to. to < length code.now) (targets_of insn)) code.now }
    requires few { All (λ insn. arm_count insn ≤ most_read) code.now }
    requires near { AllNear (slice_index starts.now) (listed wide.now) 0 code.now starts.now }
    ensures ok { OnOk result (into.new.items
        ≡ into.old.items ++ code_text (slice_index starts.now) (listed wide.now) 0 code.now starts.now) }
    // What is written spells the wide form of the code.
    ensures spelled { OnOk result (AppendsSpelling (listed wide.now) into.old.items into.new.items code.now starts.now) }
    ensures err { OnErr result (into.new.items ≡ into.old.items) }
{
    let mut text = Vec::new(alloc);
    'writing: for (number, insn) in code.iter().enumerate() {
        put_insn(
            &mut text,
            starts[number],
            starts,
            is_listed(wide, number),
            insn,
        )?;
    }
    into.extend_from_slice(&text)?;
    Ok(())
}
