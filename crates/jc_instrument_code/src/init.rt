//! The method that is added to a class and gives its probe array: one that keeps it in a field, or a
//! bootstrap method.
ghost use Rattle.std.specs.Prelude.{◌≡◌, ◌≤◌, ◌+◌, ◌++◌, ◌∷◌, IfOk, OnOk, length};
ghost use Rattle.jc_bytes.specs.BigNumbers.{short};
ghost use Rattle.jc_methods.specs.ProbeMembers.{most_short};
ghost use Rattle.jc_instrument_code.specs.CodeText.{attribute_text};
ghost use Rattle.jc_instrument_code.specs.InitText.{added_text, bootstrap_bytes, bootstrap_text, count_text, init_bytes, init_frames, init_text, named_places, push_count};

use crate::numbers::{put_header, put_sizes};
use jc_bytes::{Bytes, List, Memory, put_bytes, put_short, put_u8, put_with_short};
use jc_methods::{Fetch, MOST_SHORT, opcode};
use std::alloc::Global;

/// How many slots the operand stack has.
const MAX_STACK: u16 = 4;

/// How many local variables the bootstrap method has: its three arguments.
const BOOTSTRAP_LOCALS: u16 = 3;

/// The length of the StackMapTable: the number of frames, and a full frame with one value on the
/// stack.
const FRAMES_LENGTH: u32 = 12;

/// The tag of a full frame (JVM Specification 4.7.4).
const FULL_FRAME: u8 = 255;

/// The tag of an object (JVM Specification 4.7.4).
const OBJECT: u8 = 7;

/// The places in the constant pool of what the Code attribute of the added method names.
#[derive(Clone, Copy, Debug, PartialEq, Eq)]
pub struct AddedPlaces {
    /// The field that keeps the probe array, where there is one.
    pub field: u16,
    /// The Long of the class's id.
    pub id: u16,
    /// The String of the class's name.
    pub name: u16,
    /// The Integer of the number of probes, where it is above those that `sipush` pushes.
    pub count: u16,
    /// The method of the runtime class that gives a probe array.
    pub fetch: u16,
    /// The class of the probe array, where a frame names it.
    pub array: u16,
    /// The text `StackMapTable`, where there is a frame.
    pub frames: u16,
}

/// Puts the shortest instruction that pushes a number at the end (JVM Specification 6.5).
fn put_push(into: &mut Vec<u8>, number: u32) -> Result<(), Memory>
    requires { number ≤ most_short }
    ensures { OnOk result (into.new.items ≡ into.old.items ++ push_count number) }
{
    if number <= 5 {
        put_u8(into, opcode::ICONST_0 + number as u8)?;
    } else if number <= 127 {
        put_u8(into, opcode::BIPUSH)?;
        put_u8(into, number as u8)?;
    } else {
        put_u8(into, opcode::SIPUSH)?;
        put_short(into, number as u16)?;
    }
    Ok(())
}

/// Puts the instruction that pushes the number of probes at the end, whose Integer stands at this
/// place where no other pushes it. `ldc_w` stands there whatever the place is.
fn put_count(into: &mut Vec<u8>, count: u32, integer: u16) -> Result<(), Memory>
    ensures { OnOk result (into.new.items ≡ into.old.items ++ count_text integer count) }
{
    if count <= MOST_SHORT {
        put_push(into, count)
    } else {
        put_with_short(into, opcode::LDC_W, integer)
    }
}

/// Puts the code of the method at the end, with the instruction that pushes the number of probes.
fn put_code(into: &mut Vec<u8>, places: &AddedPlaces, pushed: &[u8]) -> Result<(), Memory>
    requires { length pushed.now ≤ 3 }
    ensures { OnOk result (into.new.items ≡ into.old.items ++ init_bytes (named_places places.now) pushed.now) }
{
    put_with_short(into, opcode::GETSTATIC, places.field)?;
    put_u8(into, opcode::DUP)?;
    put_with_short(into, opcode::IFNONNULL, 17 + pushed.len() as u16)?;
    put_u8(into, opcode::POP)?;
    put_with_short(into, opcode::LDC2_W, places.id)?;
    put_with_short(into, opcode::LDC_W, places.name)?;
    put_bytes(into, pushed)?;
    put_with_short(into, opcode::INVOKESTATIC, places.fetch)?;
    put_u8(into, opcode::DUP)?;
    put_with_short(into, opcode::PUTSTATIC, places.field)?;
    put_u8(into, opcode::ARETURN)?;
    Ok(())
}

/// Puts the StackMapTable attribute of the method at the end: one full frame at the last
/// instruction, without local variables and with the array on the stack.
fn put_frame(into: &mut Vec<u8>, places: &AddedPlaces, pushed: &[u8]) -> Result<(), Memory>
    requires { length pushed.now ≤ 3 }
    ensures { OnOk result (into.new.items
        ≡ into.old.items ++ attribute_text (init_frames places.now.frames places.now.array pushed.now)) }
{
    put_header(into, places.frames, FRAMES_LENGTH)?;
    put_short(into, 1)?;
    put_u8(into, FULL_FRAME)?;
    put_short(into, 21 + pushed.len() as u16)?;
    put_short(into, 0)?;
    put_short(into, 1)?;
    put_with_short(into, OBJECT, places.array)?;
    Ok(())
}

/// Puts the code of the bootstrap method at the end, with the instruction that pushes the number of
/// probes.
fn put_bootstrap_code(into: &mut Vec<u8>, places: &AddedPlaces, pushed: &[u8]) -> Result<(), Memory>
    ensures { OnOk result (into.new.items ≡ into.old.items ++ bootstrap_bytes (named_places places.now) pushed.now) }
{
    put_with_short(into, opcode::LDC2_W, places.id)?;
    put_with_short(into, opcode::LDC_W, places.name)?;
    put_bytes(into, pushed)?;
    put_with_short(into, opcode::INVOKESTATIC, places.fetch)?;
    put_u8(into, opcode::ARETURN)?;
    Ok(())
}

/// What stands behind the name and the length of the Code attribute of the method that gives the
/// probe array of a class with so many probes, and keeps it in a field (JVM Specification 4.7.3).
///
/// Where the field has no array, the method fetches it from the runtime class by the class's id and
/// name and the number of probes, and puts it there. `ldc_w` and `ldc2_w` stand there whatever the
/// places of the constants are.
///
/// # Errors
///
/// `Memory` where memory was refused.
fn write_init(alloc: Global, places: &AddedPlaces, count: u32) -> Result<Bytes, Memory>
    ensures { IfOk result (λ text. text ≡ init_text (named_places places.now) places.now.frames places.now.array count) }
{
    let mut pushed = Vec::new(alloc);
    put_count(&mut pushed, count, places.count)?;
    let mut text = Vec::new(alloc);
    put_sizes(&mut text, MAX_STACK, 0, 22 + pushed.len() as u32)?;
    put_code(&mut text, places, &pushed)?;
    put_short(&mut text, 0)?;
    put_short(&mut text, 1)?;
    put_frame(&mut text, places, &pushed)?;
    Ok(List::from_vec(text))
}

/// The same of the bootstrap method, which fetches the array likewise. Nothing but the constant keeps
/// it, and the method has no frames.
fn write_bootstrap(alloc: Global, places: &AddedPlaces, count: u32) -> Result<Bytes, Memory>
    ensures { IfOk result (λ text. text ≡ bootstrap_text (named_places places.now) count) }
{
    let mut pushed = Vec::new(alloc);
    put_count(&mut pushed, count, places.count)?;
    let mut text = Vec::new(alloc);
    put_sizes(
        &mut text,
        MAX_STACK,
        BOOTSTRAP_LOCALS,
        10 + pushed.len() as u32,
    )?;
    put_bootstrap_code(&mut text, places, &pushed)?;
    put_short(&mut text, 0)?;
    put_short(&mut text, 0)?;
    Ok(List::from_vec(text))
}

/// What stands behind the name and the length of the Code attribute of the method that is added to a
/// class with so many probes (JVM Specification 4.7.3): the method that keeps the array in a field, or
/// the bootstrap method of the constant, as the class gets its array.
///
/// # Errors
///
/// `Memory` where memory was refused.
pub fn write_added(
    alloc: Global,
    fetch: Fetch,
    places: &AddedPlaces,
    count: u32,
) -> Result<Bytes, Memory>
    ensures { IfOk result (λ text. text ≡ added_text fetch (named_places places.now) places.now.frames places.now.array count) }
{
    match fetch {
        Fetch::Member => write_init(alloc, places, count),
        Fetch::Constant => write_bootstrap(alloc, places, count),
    }
}
