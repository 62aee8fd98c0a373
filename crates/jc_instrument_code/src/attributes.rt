//! The attributes of a Code attribute.
ghost use Rattle.std.specs.Prelude.{◌≡◌, ◌++◌, ℕ, List, OnOk, length, map, slice_index};
ghost use Rattle.std.specs.List.{AllByRecursion, flat_map};
ghost use Rattle.jc_methods.specs.VerificationTypes.{Names as ClassNames, type_state_at};
ghost use Rattle.jc_pool.specs.Pool.{PoolValue};
ghost use Rattle.jc_frames.specs.FullTable.{CanBeWritten, HasPlace, named_by_all};
ghost use Rattle.jc_instrument_code.specs.CodeText.{attribute_text, counted_text, frame_attributes};
ghost use Rattle.jc_instrument_code.specs.LaidText.{laid_attributes, tables_seen};
ghost use Rattle.jc_instrument_code.specs.TwinCode.{places_by};
ghost use Rattle.jc_instrument_code.specs.declared.code.CodePlaces.{CodePlaces as CodeTextPlaces};

use crate::code::{CodePlaces, CodeTables, NamedFrames};
use crate::numbers::put_header;
use crate::parts::{part_count, put_line_tables, put_var_tables};
use jc_bytes::{Memory, put_bytes, put_short};
use jc_frames::write_taken;
use jc_pool::Pool;
use std::alloc::Global;

/// Puts a StackMapTable attribute at the end (JVM Specification 4.7.4), none where there are no
/// frames. The classes that the frames name stand in the pool.
///
/// A table that is too long for an attribute is refused as memory is.
fn put_frames(
    alloc: Global,
    into: &mut Vec<u8>,
    name: u16,
    frames: NamedFrames<'_>,
    starts: &[u32],
    pool: &Pool,
) -> Result<(), Memory>
    requires written { CanBeWritten starts.now (length frames.names.now) frames.frames.now }
    requires stand { AllByRecursion (HasPlace pool.now) (named_by_all (map (type_state_at frames.names.now) frames.frames.now)) }
    ensures { OnOk result (into.new.items ≡ into.old.items ++ flat_map attribute_text
        (frame_attributes name (places_by pool.now (slice_index starts.now)) (map (type_state_at frames.entry.names.now) frames.entry.frames.now))) }
{
    if frames.frames.is_empty() {
        return Ok(());
    }
    let mut table = Vec::new(alloc);
    write_taken(alloc, frames.frames, starts, frames.names, pool, &mut table)?;
    let Ok(size) = u32::try_from(table.len()) else {
        return Err(Memory);
    };
    put_header(into, name, size)?;
    put_bytes(into, &table)?;
    Ok(())
}

/// How many attributes a Code attribute has.
fn attribute_count(tables: &CodeTables) -> usize
    ensures { (pool : PoolValue) (places : CodeTextPlaces) (names : ClassNames) (starts : List ℕ)
        → result ≡ length (laid_attributes pool places names (tables_seen tables.now) starts tables.now.frames.frames.now) }
{
    let line_tables = part_count(tables.lines.len());
    let all_tables = line_tables
        + part_count(tables.vars.len())
        + part_count(tables.kind_vars.len());
    if tables.frames.frames.is_empty() {
        return all_tables;
    }
    all_tables + 1
}

/// Puts the number of attributes of a Code attribute at the end, and the attributes. The classes
/// that the frames name stand in the pool.
///
/// More than 65,535 attributes, and a StackMapTable that is too long for an attribute, are refused
/// as memory is.
pub fn put_attributes(
    alloc: Global,
    into: &mut Vec<u8>,
    tables: &CodeTables,
    starts: &[u32],
    places: &CodePlaces,
    pool: &Pool,
) -> Result<(), Memory>
    requires written { CanBeWritten starts.now (length tables.now.frames.names.now) tables.now.frames.frames.now }
    requires stand { AllByRecursion (HasPlace pool.now) (named_by_all (map (type_state_at tables.now.frames.names.now) tables.now.frames.frames.now)) }
    ensures { OnOk result (into.new.items ≡ into.old.items ++ counted_text attribute_text
        (laid_attributes pool.now places.now tables.now.frames.names.now (tables_seen tables.now) starts.now tables.now.frames.frames.now)) }
{
    let Ok(count) = u16::try_from(attribute_count(tables)) else {
        return Err(Memory);
    };
    put_short(into, count)?;
    put_line_tables(into, places.lines, tables.lines, starts)?;
    put_var_tables(into, places.vars, tables.vars, starts)?;
    put_var_tables(into, places.kind_vars, tables.kind_vars, starts)?;
    put_frames(alloc, into, places.frames, tables.frames, starts, pool)?;
    Ok(())
}
