//! The Code attribute of an instrumented method.
ghost use Rattle.std.specs.Prelude.{◌≡◌, ◌≤◌, ◌++◌, IfOk, OnOk, length, map};
ghost use Rattle.std.specs.List.{AllByRecursion};
ghost use Rattle.jc_methods.specs.VerificationTypes.{type_state_at};
ghost use Rattle.jc_pool.specs.Adding.{Extends};
ghost use Rattle.jc_frames.specs.FullTable.{CanBeWritten, HasPlace, named_by_all};
ghost use Rattle.jc_layout.specs.LaidBody.{constant_size, with_operand, with_place};
ghost use Rattle.jc_instrument_code.specs.Given.{AreFrames, AreNamed, HaveClasses, IsLaid};
ghost use Rattle.jc_instrument_code.specs.LaidText.{laid_text, tables_seen};
ghost use Rattle.jc_instrument_code.specs.TwinCode.{twin_code};

use crate::attributes::put_attributes;
use crate::numbers::put_sizes;
use crate::tables::put_rows;
use jc_bytes::{Bytes, List, Memory, Names, put_bytes, put_short};
use jc_layout::Laid;
use jc_methods::{Emitted, Fetch, FrameAt, Handler, LineAt, VarAt};
use jc_pool::Pool;
use std::alloc::Global;

/// The most bytes that an attribute holds (JVM Specification 4.7).
const MOST_BYTES: usize = 4_294_967_295;

/// The places in the constant pool of what the Code attribute of an instrumented method names.
#[derive(Clone, Copy, Debug, PartialEq, Eq)]
pub struct CodePlaces {
    /// What gives the array of probes: the method that the prelude calls, or the constant that it loads.
    pub giver: u16,
    /// The class of the array, where the prelude loads a constant.
    pub array: u16,
    /// The text `LineNumberTable`, where the method has lines.
    pub lines: u16,
    /// The text `LocalVariableTable`, where the method has entries of such a table.
    pub vars: u16,
    /// The text `LocalVariableTypeTable`, where the method has entries of such a table.
    pub kind_vars: u16,
    /// The text `StackMapTable`, where the method has frames.
    pub frames: u16,
}

/// Frames, and the names of the classes that they name.
#[derive(Clone, Copy, Debug)]
pub struct NamedFrames<'a> {
    /// The frames, which name classes by their numbers.
    pub frames: &'a [FrameAt],
    /// The names of the classes.
    pub names: &'a Names,
}

/// The tables of instrumented code, and its sizes.
#[derive(Clone, Copy, Debug)]
pub struct CodeTables<'a> {
    /// The size of the operand stack.
    pub max_stack: u16,
    /// The number of local variables.
    pub max_locals: u16,
    /// The exception table.
    pub handlers: &'a [Handler],
    /// The entries of the line tables.
    pub lines: &'a [LineAt],
    /// The entries of the tables of local variables.
    pub vars: &'a [VarAt],
    /// The entries of the tables of the types of local variables.
    pub kind_vars: &'a [VarAt],
    /// The frames of the layout of the code.
    pub frames: NamedFrames<'a>,
}

/// Puts the bytes of code at the end, with a place of the pool behind the opcode at this offset.
fn put_with_operand(
    into: &mut Vec<u8>,
    code: &[u8],
    offset: usize,
    place: u16,
) -> Result<(), Memory>
    requires { offset ≤ 3 }
    ensures { OnOk result (into.new.items ≡ into.old.items ++ with_operand offset place code.now) }
{
    if code.len() < offset + 3 {
        put_bytes(into, code)?;
        return Ok(());
    }
    put_bytes(into, &code[..offset + 1])?;
    put_short(into, place)?;
    put_bytes(into, &code[offset + 3..])?;
    Ok(())
}

/// How many bytes the instruction has that loads the constant at this place (JVM Specification 6.5,
/// ldc, ldc_w).
fn constant_size(place: u16) -> usize
    ensures size { result ≡ constant_size place }
    ensures few { result ≤ 3 }
{
    if place < 256 { 2 } else { 3 }
}

/// Puts the bytes of laid out code at the end, in which the prelude names what stands at these
/// places. The load of a constant has its place already.
fn put_code(
    into: &mut Vec<u8>,
    code: &[u8],
    fetch: Fetch,
    places: &CodePlaces,
) -> Result<(), Memory>
    ensures { OnOk result (into.new.items ≡ into.old.items ++ with_place fetch places.now.giver places.now.array code.now) }
{
    match fetch {
        Fetch::Member => put_with_operand(into, code, 0, places.giver),
        Fetch::Constant => {
            put_with_operand(into, code, constant_size(places.giver), places.array)
        }
    }
}

/// What stands behind the name and the length of the Code attribute of an instrumented method (JVM
/// Specification 4.7.3): the sizes of the operand stack and of the local variables, the code of its
/// layout, the exception table, and the attributes LineNumberTable, LocalVariableTable,
/// LocalVariableTypeTable and StackMapTable, each left out where it has no entries (4.7.4, 4.7.12 to
/// 4.7.14). Of the first three there is one for each 65,535 entries, and the last one may have fewer.
///
/// The classes that the frames name stand in the pool.
///
/// # Errors
///
/// `Memory` where memory was refused, and where the text would have more than 4,294,967,295 bytes,
/// which no attribute can hold (4.7).
pub fn write_laid(
    alloc: Global,
    tables: &CodeTables,
    laid: &Laid,
    fetch: Fetch,
    places: &CodePlaces,
    pool: &Pool,
) -> Result<Bytes, Memory>
    requires rows { length tables.now.handlers.now ≤ 65535 }
    requires size { length laid.now.code ≤ 65535 }
    requires frames { CanBeWritten laid.now.starts (length tables.now.frames.names.now) tables.now.frames.frames.now }
    requires classes { AllByRecursion (HasPlace pool.now) (named_by_all (map (type_state_at tables.now.frames.names.now) tables.now.frames.frames.now)) }
    ensures text { IfOk result (λ text. text
        ≡ laid_text pool.now fetch places.now tables.now.frames.names.now (tables_seen tables.now) laid.now tables.now.frames.frames.now) }
    ensures size { IfOk result (λ text. length text ≤ 4294967295) }
{
    let starts = laid.starts.as_slice();
    let mut text = Vec::new(alloc);
    put_sizes(
        &mut text,
        tables.max_stack,
        tables.max_locals,
        laid.code.len() as u32,
    )?;
    put_code(&mut text, &laid.code, fetch, places)?;
    put_rows(&mut text, tables.handlers, starts)?;
    put_attributes(alloc, &mut text, tables, starts, places, pool)?;
    if text.len() > MOST_BYTES {
        return Err(Memory);
    }
    Ok(List::from_vec(text))
}

/// What stands behind the name and the length of the Code attribute of an instrumented method (JVM
/// Specification 4.7.3), from what is emitted.
///
/// `laid` is the layout of the code, in which a constant that the prelude loads has its place, and `frames` has the frames of that layout: `merged_frames` of those
/// of `emitted` and of its `wide_frames` that are used. The classes that they name, and the texts
/// that are needed, stand in the pool.
///
/// # Errors
///
/// `Memory` where memory was refused, and where the text would have more than 4,294,967,295 bytes,
/// which no attribute can hold (4.7).
pub fn write_code(
    alloc: Global,
    emitted: &Emitted,
    laid: &Laid,
    frames: NamedFrames<'_>,
    fetch: Fetch,
    places: &CodePlaces,
    pool: &mut Pool,
) -> Result<Bytes, Memory>
    requires laid { IsLaid emitted.now laid.now }
    requires rows { length emitted.now.handlers ≤ 65535 }
    requires frames { AreFrames emitted.now (length frames.names.now) frames.frames.now }
    requires classes { HaveClasses pool.old frames.names.now emitted.now }
    requires names { AreNamed pool.old emitted.now places.now }
    ensures text { IfOk result (λ text. text
        ≡ twin_code pool.old fetch places.now.giver places.now.array places.now.frames frames.entry.names.now emitted.now) }
    ensures size { IfOk result (λ text. length text ≤ 4294967295) }
    // The pool has all that is named, and stays as it is.
    ensures kept { OnOk result (pool.new ≡ pool.old) }
    ensures extends { Extends pool.old pool.new }
{
    let tables = CodeTables {
        max_stack: emitted.max_stack,
        max_locals: emitted.max_locals,
        handlers: &emitted.handlers,
        lines: &emitted.lines,
        vars: &emitted.vars,
        kind_vars: &emitted.kind_vars,
        frames,
    };
    write_laid(alloc, &tables, laid, fetch, places, pool)
}
