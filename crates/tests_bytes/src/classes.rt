//! Class files.
ghost use Rattle.std.specs.Prelude.{◌≤◌, length};

use jc_class::{ClassFile, Member, class_id, read_class, write_class};
use std::alloc::Global;
use tests_lines::{Answer, bytes};

/// Puts fields or methods: the flags, the places of the name and of the descriptor, and how many attributes there are.
fn put_members(members: &[Member], out: &mut Answer) {
    for member in members {
        out.label(" ", &member.flags);
        out.label(":", &member.name);
        out.label(":", &member.desc);
        out.label(":", &member.attributes.len());
    }
}

/// Puts the numbers in front of the interfaces of a class.
fn put_head(class: &ClassFile, out: &mut Answer) {
    out.label("minor ", &class.minor);
    out.label(" major ", &class.major);
    out.label(" flags ", &class.flags);
    out.label(" this ", &class.this_class);
    out.label(" super ", &class.super_class);
}

/// Puts a class file.
fn put_class(class: &ClassFile, out: &mut Answer) {
    put_head(class, out);
    out.label_debug(" interfaces ", &class.interfaces.as_slice());
    out.put(" fields");
    put_members(&class.fields, out);
    out.put(" methods");
    put_members(&class.methods, out);
    out.label(" attributes ", &class.attributes.len());
}

/// Reads a class file, and puts what was read.
fn read(alloc: Global, bytes: &[u8], out: &mut Answer) -> Option<()>
    requires { length bytes.now ≤ 1000000 }
{
    let class = out.accepted(read_class(alloc, bytes))?;
    put_class(&class, out);
    Some(())
}

/// Reads a class file, and puts the bytes that it is written as.
fn write(alloc: Global, bytes: &[u8], out: &mut Answer) -> Option<()>
    requires { length bytes.now ≤ 1000000 }
{
    let class = out.accepted(read_class(alloc, bytes))?;
    let bytes = out.got(write_class(alloc, &class))?;
    out.bytes(&bytes);
    Some(())
}

/// Puts the class id of bytes.
fn put_id(bytes: &[u8], out: &mut Answer) -> Option<()> {
    out.id(class_id(bytes));
    Some(())
}

/// What a call answers.
pub fn answer(alloc: Global, words: &[&str], out: &mut Answer) -> Option<()> {
    let [call, text @ ..] = words else {
        return out.unknown(words);
    };
    let bytes = bytes(alloc, text, out)?;
    match *call {
        "id" => put_id(&bytes, out),
        "read" => read(alloc, &bytes, out),
        "write" => write(alloc, &bytes, out),
        call => out.unknown_word(call),
    }
}
