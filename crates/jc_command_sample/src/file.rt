//! The class file of the sample (JVM Specification 4.1 to 4.7.4).
ghost use Rattle.std.specs.Prelude.{◌≡◌, ◌≤◌, ◌<◌, ◌+◌, ◌++◌, length, string_bytes, IfOk, OnOk};
ghost use Rattle.std.specs.List.{flat_map, range_with_len};
ghost use Rattle.jc_command_sample.specs.SampleFile.{utf8_entry, class_entry, class_entries, name_entries, method_name};
ghost use Rattle.jc_command_sample.specs.SampleFile.{attribute_text, method_code, frame_table, code_body, method_text};
ghost use Rattle.jc_command_sample.specs.SampleFile.{file_head, class_head, class_methods, sample_file};

use jc_bytes::{Bytes, List, Memory, put_bytes, put_short, put_u8, put_with_short, put_word};
use jc_methods::opcode;
use std::alloc::{AllocError, Global};

/// The number in front of every class file.
const MAGIC: u32 = 0xcafe_babe;

/// The tags of a CONSTANT_Utf8 and of a CONSTANT_Class (JVM Specification 4.4).
const UTF8: u8 = 1;

const CLASS: u8 = 7;

/// The flags of the class, and of each method (JVM Specification 4.1, 4.6).
const CLASS_FLAGS: u16 = 0x0021;

const METHOD_FLAGS: u16 = 0x0009;

/// The place of the first method's name in the constant pool; the others follow.
const FIRST_NAME: u16 = 8;

/// How many bytes a method's Code attribute, its code and its StackMapTable have.
const CODE_BODY: u32 = 35;

const CODE: u32 = 14;

const FRAMES: u32 = 3;

/// The offset of the instruction that pushes the second result.
const SECOND_RESULT: u8 = 10;

/// Puts a CONSTANT_Utf8 at the end (JVM Specification 4.4.7).
fn put_utf8(into: &mut Vec<u8>, text: &[u8]) -> Result<(), Memory>
    requires { length text.now ≤ 65535 }
    ensures { OnOk result (into.new.items ≡ into.old.items ++ utf8_entry text.now) }
{
    put_with_short(into, UTF8, text.len() as u16)?;
    put_bytes(into, text)?;
    Ok(())
}

/// Puts a CONSTANT_Class at the end, whose name stands at this place (JVM Specification 4.4.1).
fn put_class(into: &mut Vec<u8>, name: u16) -> Result<(), Memory>
    ensures { OnOk result (into.new.items ≡ into.old.items ++ class_entry name) }
{
    put_with_short(into, CLASS, name)
}

/// Puts the entries of the pool in front of the names of the methods at the end.
fn put_class_entries(into: &mut Vec<u8>) -> Result<(), Memory>
    ensures { OnOk result (into.new.items ≡ into.old.items ++ class_entries) }
{
    put_utf8(into, b"Sample")?;
    put_class(into, 1)?;
    put_utf8(into, b"java/lang/Object")?;
    put_class(into, 3)?;
    put_utf8(into, b"Code")?;
    put_utf8(into, b"StackMapTable")?;
    put_utf8(into, b"(I)I")?;
    Ok(())
}

/// The name of the method with this number.
pub fn method_name(alloc: Global, number: u32) -> Result<String, AllocError>
    ensures { IfOk result (λ name. string_bytes name ≡ method_name number) }
{
    format!(in alloc; "m{number}")
}

/// Puts the name of a method at the end.
fn put_name(alloc: Global, into: &mut Vec<u8>, number: u32) -> Result<(), Memory>
    ensures { OnOk result (into.new.items ≡ into.old.items ++ utf8_entry (method_name number)) }
{
    let name = method_name(alloc, number)?;
    put_utf8(into, name.as_bytes())
}

/// Puts the names of the methods at the end.
fn put_names(alloc: Global, into: &mut Vec<u8>, methods: u32) -> Result<(), Memory>
    ensures { OnOk result (into.new.items ≡ into.old.items ++ name_entries methods) }
{
    'naming: for number in 0..methods {
        put_name(alloc, into, number)?;
    }
    Ok(())
}

/// Puts the code of a method at the end (JVM Specification 6.5).
fn put_code(into: &mut Vec<u8>, number: u16) -> Result<(), Memory>
    requires { number < 1000 }
    ensures { OnOk result (into.new.items ≡ into.old.items ++ method_code number) }
{
    put_u8(into, opcode::ILOAD_0)?;
    put_with_short(into, opcode::SIPUSH, number + 2)?;
    put_u8(into, opcode::IREM)?;
    put_with_short(into, opcode::IFEQ, 5)?;
    put_u8(into, opcode::ILOAD_0)?;
    put_u8(into, opcode::IRETURN)?;
    put_with_short(into, opcode::SIPUSH, number)?;
    put_u8(into, opcode::IRETURN)?;
    Ok(())
}

/// Puts the StackMapTable of a method at the end: one frame, at the second result (JVM Specification 4.7.4).
fn put_frames(into: &mut Vec<u8>) -> Result<(), Memory>
    ensures { OnOk result (into.new.items ≡ into.old.items ++ attribute_text 6 frame_table) }
{
    put_short(into, 6)?;
    put_word(into, FRAMES)?;
    put_short(into, 1)?;
    put_u8(into, SECOND_RESULT)?;
    Ok(())
}

/// Puts what stands in the Code attribute of a method at the end (JVM Specification 4.7.3).
fn put_code_body(into: &mut Vec<u8>, number: u16) -> Result<(), Memory>
    requires { number < 1000 }
    ensures { OnOk result (into.new.items ≡ into.old.items ++ code_body number) }
{
    put_short(into, 2)?;
    put_short(into, 1)?;
    put_word(into, CODE)?;
    put_code(into, number)?;
    put_short(into, 0)?;
    put_short(into, 1)?;
    put_frames(into)?;
    Ok(())
}

/// Puts a method at the end (JVM Specification 4.6).
fn put_method(into: &mut Vec<u8>, number: u16) -> Result<(), Memory>
    requires { number < 1000 }
    ensures { OnOk result (into.new.items ≡ into.old.items ++ method_text number) }
{
    put_short(into, METHOD_FLAGS)?;
    put_short(into, FIRST_NAME + number)?;
    put_short(into, 7)?;
    put_short(into, 1)?;
    put_short(into, 5)?;
    put_word(into, CODE_BODY)?;
    put_code_body(into, number)?;
    Ok(())
}

/// Puts the methods at the end.
fn put_methods(into: &mut Vec<u8>, methods: u16) -> Result<(), Memory>
    requires { methods ≤ 1000 }
    ensures { OnOk result (into.new.items ≡ into.old.items ++ flat_map method_text (range_with_len 0 methods)) }
{
    'writing: for number in 0..methods {
        put_method(into, number)?;
    }
    Ok(())
}

/// Puts what stands in front of the flags of the class at the end.
fn put_file_head(alloc: Global, into: &mut Vec<u8>, methods: u16) -> Result<(), Memory>
    requires { methods ≤ 1000 }
    ensures { OnOk result (into.new.items ≡ into.old.items ++ file_head methods) }
{
    put_word(into, MAGIC)?;
    put_short(into, 0)?;
    put_short(into, 52)?;
    put_short(into, FIRST_NAME + methods)?;
    put_class_entries(into)?;
    put_names(alloc, into, u32::from(methods))?;
    Ok(())
}

/// Puts what stands between the pool and the methods at the end.
fn put_class_head(into: &mut Vec<u8>) -> Result<(), Memory>
    ensures { OnOk result (into.new.items ≡ into.old.items ++ class_head) }
{
    put_short(into, CLASS_FLAGS)?;
    put_short(into, 2)?;
    put_short(into, 4)?;
    put_short(into, 0)?;
    put_short(into, 0)?;
    Ok(())
}

/// Puts the methods with their number at the end, and the number of the attributes of the class.
fn put_class_methods(into: &mut Vec<u8>, methods: u16) -> Result<(), Memory>
    requires { methods ≤ 1000 }
    ensures { OnOk result (into.new.items ≡ into.old.items ++ class_methods methods) }
{
    put_short(into, methods)?;
    put_methods(into, methods)?;
    put_short(into, 0)?;
    Ok(())
}

/// The class file of the sample with so many methods.
pub fn sample_file(alloc: Global, methods: u32) -> Result<Bytes, Memory>
    requires { methods ≤ 1000 }
    ensures { IfOk result (λ bytes. bytes ≡ sample_file methods) }
{
    let mut bytes = Vec::new(alloc);
    put_file_head(alloc, &mut bytes, methods as u16)?;
    put_class_head(&mut bytes)?;
    put_class_methods(&mut bytes, methods as u16)?;
    Ok(List::from_vec(bytes))
}
