//! Instructions, and what each does and uses.
ghost use Rattle.std.specs.Prelude.{◌≤◌, IsTrue};
ghost use Rattle.jc_base.specs.Insn.{arm_count};
ghost use Rattle.jc_base.specs.Reader.{most_read};

use jc_base::{Arm, Insn, TryClone, form_of, inverse, is_conditional_branch};
use jc_insn::size_of;
use std::alloc::Global;
use std::fmt::Display;
use tests_lines::{Answer, number};

/// Puts the arms of a `lookupswitch`.
fn put_arms(arms: &[Arm], out: &mut Answer) {
    for arm in arms {
        out.label(" ", &arm.key);
        out.label(":", &arm.to);
    }
}

/// Puts an instruction that may jump.
fn put_jump(insn: &Insn, out: &mut Answer) {
    match insn {
        Insn::Jump { op, to } => put_two("Jump ", op, to, out),
        Insn::Table { low, default, arms } => {
            out.label("Table ", low);
            out.label(" default ", default);
            out.label_debug(" arms ", &arms.as_slice());
        }
        Insn::Lookup { default, arms } => {
            out.label("Lookup default ", default);
            out.put(" arms");
            put_arms(arms.as_slice(), out);
        }
        _ => (),
    }
}

/// Puts a name and two values.
fn put_two<T: Display, U: Display>(name: &str, first: &T, second: &U, out: &mut Answer) {
    out.label(name, first);
    out.label(" ", second);
}

/// Puts an instruction that names a place in the pool, or one that may jump.
fn put_naming(insn: &Insn, out: &mut Answer) {
    match insn {
        Insn::Constant { place } => out.label("Constant ", place),
        Insn::Constant2 { place } => out.label("Constant2 ", place),
        Insn::Member { op, place } => put_two("Member ", op, place, out),
        Insn::Interface { place, count } => put_two("Interface ", place, count, out),
        Insn::Dynamic { place } => out.label("Dynamic ", place),
        Insn::OfClass { op, place } => put_two("OfClass ", op, place, out),
        Insn::Multi { place, dims } => put_two("Multi ", place, dims, out),
        other => put_jump(other, out),
    }
}

/// Puts an instruction: its variant, and its values in their order.
pub fn put_insn(insn: &Insn, out: &mut Answer) {
    match insn {
        Insn::Simple(op) => out.label("Simple ", op),
        Insn::Push { op, value } => put_two("Push ", op, value, out),
        Insn::Local { op, slot } => put_two("Local ", op, slot, out),
        Insn::Inc { slot, by } => put_two("Inc ", slot, by, out),
        Insn::NewArray { elem } => out.label("NewArray ", elem),
        other => put_naming(other, out),
    }
}

/// Whether the instruction has few arms.
pub fn has_few_arms(insn: &Insn) -> bool
    ensures { IsTrue result → arm_count insn.now ≤ most_read }
{
    match insn {
        Insn::Table { arms, .. } => arms.len() < 65536,
        Insn::Lookup { arms, .. } => arms.len() < 65536,
        _ => true,
    }
}

/// Whether the layout that a word names is the wide one.
pub fn is_wide(word: &str, out: &mut Answer) -> Option<bool> {
    match word {
        "narrow" => Some(false),
        "wide" => Some(true),
        word => out.unknown_word(word),
    }
}

/// The length of an instruction in a layout at an offset.
fn size(insn: &Insn, layout: &str, at: &str, out: &mut Answer) -> Option<()> {
    let wide = is_wide(layout, out)?;
    let at = number::<u32>(at, out)?;
    if !has_few_arms(insn) {
        return out.wrong("many arms");
    }
    out.answer(&size_of(insn, at, wide))
}

/// Puts the instruction with another local variable.
fn put_with_slot(alloc: Global, insn: &Insn, slot: &str, out: &mut Answer) -> Option<()> {
    let slot = number::<u16>(slot, out)?;
    let copy = out.got(insn.try_clone(alloc))?;
    put_insn(&copy.with_slot(slot), out);
    Some(())
}

/// What a call with a number answers of an instruction.
fn of_number(alloc: Global, insn: &Insn, call: &str, word: &str, out: &mut Answer) -> Option<()> {
    match call {
        "locals_within" => {
            let count = number::<u16>(word, out)?;
            out.answer(&insn.locals_within(count))
        }
        "leads_within" => {
            let count = number::<u32>(word, out)?;
            out.answer(&insn.leads_within(count))
        }
        "with_slot" => put_with_slot(alloc, insn, word, out),
        call => out.unknown_word(call),
    }
}

/// What a call without values answers of an instruction.
fn of_insn(alloc: Global, insn: &Insn, call: &str, out: &mut Answer) -> Option<()> {
    match call {
        "flow" => out.answer_debug(&insn.flow()),
        "falls_through" => out.answer(&insn.falls_through()),
        "pool_place" => out.answer_debug(&insn.pool_place()),
        "slot" => out.answer_debug(&insn.slot()),
        "targets" => {
            let targets = out.got(insn.targets(alloc))?;
            out.answer_debug(&targets.as_slice())
        }
        "distinct_targets" => {
            let targets = out.got(insn.distinct_targets(alloc))?;
            out.answer_debug(&targets.as_slice())
        }
        call => out.unknown_word(call),
    }
}

/// What a call answers of the instruction with a number in the code that was decoded.
pub fn answer(alloc: Global, code: &[Insn], words: &[&str], out: &mut Answer) -> Option<()> {
    let [at, words @ ..] = words else {
        return out.wrong("no instruction");
    };
    let Some(insn) = code.get(number::<usize>(at, out)?) else {
        return out.wrong_word("no instruction", at);
    };
    match words {
        ["size_of", layout, at] => size(insn, layout, at, out),
        [call, word] => of_number(alloc, insn, call, word, out),
        [call] => of_insn(alloc, insn, call, out),
        words => out.unknown(words),
    }
}

/// What a call answers of an opcode.
pub fn of_opcode(call: &str, word: &str, out: &mut Answer) -> Option<()> {
    let op = number::<u8>(word, out)?;
    match call {
        "is_conditional_branch" => out.answer(&is_conditional_branch(op)),
        "form_of" => out.answer_debug(&form_of(op)),
        "inverse" if is_conditional_branch(op) => out.answer(&inverse(op)),
        "inverse" => out.wrong_word("no conditional jump", word),
        call => out.unknown_word(call),
    }
}
