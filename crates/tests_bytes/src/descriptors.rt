//! Descriptors of fields and methods.
ghost use Rattle.std.specs.Prelude.{◌≤◌, length};

use jc_base::{
    MethodTypes, ValueType, argument_slots, field_type, is_field_descriptor, is_method_descriptor,
    method_types, split_type,
};
use std::alloc::Global;
use tests_lines::{Answer, text};

/// Puts the type at the front, and what stands behind it.
fn put_split(desc: &[u8], out: &mut Answer) -> Option<()> {
    match split_type(desc) {
        Some((front, rest)) => {
            out.quoted(front);
            out.put(" and ");
            out.quoted(rest);
        }
        None => out.put("none"),
    }
    Some(())
}

/// Puts a type.
fn put_type(value: ValueType<'_>, out: &mut Answer) {
    match value {
        ValueType::Object(name) => {
            out.put("Object ");
            out.quoted(name);
        }
        ValueType::Array(desc) => {
            out.put("Array ");
            out.quoted(desc);
        }
        base => out.debug(&base),
    }
}

/// Puts the type that a field descriptor says, and how many local variables it takes.
fn put_field_type(desc: &[u8], out: &mut Answer) -> Option<()> {
    if !is_field_descriptor(desc) {
        return out.wrong("no field descriptor");
    }
    let value = field_type(desc);
    put_type(value, out);
    out.label(" slots ", &value.slots());
    Some(())
}

/// Puts the types of the parameters and of the result.
fn put_types(types: &MethodTypes<'_>, out: &mut Answer) {
    for value in types.parameters.as_slice() {
        put_type(*value, out);
        out.put(", ");
    }
    out.put("returns ");
    match types.returns {
        Some(value) => put_type(value, out),
        None => out.put("nothing"),
    }
}

/// Puts the types that a method descriptor says.
fn put_method_types(alloc: Global, desc: &[u8], out: &mut Answer) -> Option<()> {
    if !is_method_descriptor(desc) {
        return out.wrong("no method descriptor");
    }
    let types = out.got(method_types(alloc, desc))?;
    put_types(&types, out);
    Some(())
}

/// What a call answers.
pub fn answer(alloc: Global, words: &[&str], out: &mut Answer) -> Option<()> {
    let [call, rest @ ..] = words else {
        return out.unknown(words);
    };
    let desc = text(alloc, rest, out)?;
    match *call {
        "field_type" => put_field_type(&desc, out),
        "method_types" => put_method_types(alloc, &desc, out),
        "is_field" => out.answer(&is_field_descriptor(&desc)),
        "is_method" => out.answer(&is_method_descriptor(&desc)),
        "argument_slots" => out.answer_debug(&argument_slots(&desc)),
        "split_type" => put_split(&desc, out),
        call => out.unknown_word(call),
    }
}
