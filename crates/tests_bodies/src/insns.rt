//! Instructions, and what they use, in words.
use crate::mnemonic::mnemonic;
use crate::states::text_of;
use jc_base::{Arm, Insn, Use, What, opcode};
use std::fmt::Display;
use tests_lines::Answer;

/// The opcode of an instruction, that of `ldc` or of `lookupswitch` where it is of several opcodes.
fn opcode_of(insn: &Insn) -> u8 {
    match insn {
        Insn::Simple(op) => *op,
        Insn::Push { op, .. } | Insn::Local { op, .. } | Insn::Jump { op, .. } => *op,
        Insn::Member { op, .. } | Insn::OfClass { op, .. } => *op,
        Insn::Inc { .. } => opcode::IINC,
        Insn::Constant { .. } => opcode::LDC,
        Insn::Constant2 { .. } => opcode::LDC2_W,
        Insn::Interface { .. } => opcode::INVOKEINTERFACE,
        Insn::Dynamic { .. } => opcode::INVOKEDYNAMIC,
        Insn::NewArray { .. } => opcode::NEWARRAY,
        Insn::Multi { .. } => opcode::MULTIANEWARRAY,
        Insn::Table { .. } => opcode::TABLESWITCH,
        Insn::Lookup { .. } => opcode::LOOKUPSWITCH,
    }
}

/// The mnemonic of an instruction.
pub fn name_of(insn: &Insn) -> &'static str {
    mnemonic(opcode_of(insn))
}

/// Puts the arms of a `tableswitch`.
fn put_arms(arms: &[u32], out: &mut Answer) {
    for arm in arms {
        out.label(" ", arm);
    }
}

/// Puts the arms of a `lookupswitch`.
fn put_keys(arms: &[Arm], out: &mut Answer) {
    for arm in arms {
        out.label(" ", &arm.key);
        out.label(":", &arm.to);
    }
}

/// Puts two operands, a text in front of the first.
fn put_two<T: Display, U: Display>(front: &str, first: &T, second: &U, out: &mut Answer) {
    out.label(front, first);
    out.label(" ", second);
}

/// Puts the operands of an instruction that uses the constant pool or has targets.
fn put_targets(insn: &Insn, out: &mut Answer) {
    match insn {
        Insn::Jump { to, .. } => out.label(" ", to),
        Insn::Table { low, default, arms } => {
            out.label(" ", default);
            out.label(" from ", low);
            put_arms(arms, out);
        }
        Insn::Lookup { default, arms } => {
            out.label(" ", default);
            put_keys(arms, out);
        }
        Insn::Interface { place, count } => put_two(" #", place, count, out),
        Insn::Multi { place, dims } => put_two(" #", place, dims, out),
        other => {
            if let Some(place) = other.pool_place() {
                out.label(" #", &place);
            }
        }
    }
}

/// Puts an instruction.
fn put_insn(insn: &Insn, out: &mut Answer) {
    out.put(name_of(insn));
    match insn {
        Insn::Push { value, .. } => out.label(" ", value),
        Insn::Local { slot, .. } => out.label(" ", slot),
        Insn::Inc { slot, by } => put_two(" ", slot, by, out),
        Insn::NewArray { elem } => out.label(" ", elem),
        other => put_targets(other, out),
    }
}

/// Puts instructions, one behind the other.
pub fn put_code(code: &[Insn], out: &mut Answer) {
    for insn in code {
        out.separate("; ");
        put_insn(insn, out);
    }
}

/// Puts a constant.
fn put_constant(what: &What, out: &mut Answer) {
    match what {
        What::Int(value) => out.label("int ", value),
        What::Long(value) => out.label("long ", value),
        What::Float => out.put("float"),
        What::Double => out.put("double"),
        What::Text => out.put("string"),
        What::Handle => out.put("method handle"),
        _ => out.put("method type"),
    }
}

/// Puts a form, and the texts of a class, of a member or of a call.
fn put_texts(form: &str, texts: &[&[u8]], out: &mut Answer) {
    out.put(form);
    for text in texts {
        out.put(" ");
        out.put(text_of(text));
    }
}

/// Puts what stands at a place.
fn put_what(what: &What, out: &mut Answer) {
    match what {
        What::Field { class, name, desc } => put_texts("field", &[class, name, desc], out),
        What::Method { class, name, desc } => put_texts("method", &[class, name, desc], out),
        What::Call { name, desc } => put_texts("call", &[name, desc], out),
        What::Class(name) => put_texts("class", &[name], out),
        What::Computed {
            name,
            desc,
            bootstrap,
        } => {
            put_texts("computed", &[name, desc], out);
            out.put(" ");
            out.show(bootstrap);
        }
        other => put_constant(other, out),
    }
}

/// Puts the places that are used, each with what stands there.
pub fn put_uses(uses: &[Use], out: &mut Answer) {
    for entry in uses {
        out.separate("; ");
        out.label("#", &entry.place);
        out.put(" ");
        put_what(&entry.what, out);
    }
}
