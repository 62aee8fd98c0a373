//! Writing full frames (JVM Specification 4.7.4).
ghost use Rattle.std.specs.Prelude.{◌≡◌, ◌<◌, ◌≤◌, ◌++◌, [], All, IfErr, IfOk, OnErr, OnOk, length, map, slice_index, slice_index_or};
ghost use Rattle.std.specs.List.{AllByRecursion, flat_map};
ghost use Rattle.jc_bytes.specs.BigNumbers.{short};
ghost use Rattle.jc_methods.specs.VerificationTypes.{IsNumbered, class_name, class_names, verification_type, type_state_at};
ghost use Rattle.jc_pool.specs.Adding.{Extends, IsFirst};
ghost use Rattle.jc_pool.specs.Lookup.{class_name_of};
ghost use Rattle.jc_frames.specs.FullFrames.{Places, full_text, full_texts, table_text, type_text, types_text};
ghost use Rattle.jc_frames.specs.FullTable.{AreFirstPlaces, ArePlacesIn, AreShort, CanBeWritten, FitsFull, HasPlace, IsPlaced};
ghost use Rattle.jc_frames.specs.FullTable.{OffsetsRise, RefusesClasses, TakesClasses, named_by, named_by_all};

use crate::full_classes::take_classes;
use crate::running::kinds_in_locals;
use jc_bytes::{Fail, Memory, Names, put_bytes, put_short, put_u8};
use jc_methods::{FrameAt, Kind};
use jc_pool::{Pool, PoolFull};
use std::alloc::Global;
use std::collections::HashMap;

/// The tag of a full frame.
const FULL_FRAME: u8 = 255;

/// What frames refer to: the offset of each instruction, the names of classes by number, and the pool.
#[derive(Clone, Copy)]
struct FrameReferences<'a> {
    starts: &'a [u32],
    names: &'a Names,
    pool: &'a Pool,
}

/// The first place of a class that the pool has, by the number of its name. Each is looked up once, since its name
/// may be long.
fn class_place(
    number: u32,
    names: &Names,
    known: &mut HashMap<u32, u16>,
    pool: &Pool,
) -> Result<u16, Memory>
    requires number { number < length names.now }
    requires stands { HasPlace pool.now (slice_index_or names.now number []) }
    requires known { AreFirstPlaces pool.now names.now known.old }
    ensures place { IfOk result (IsFirst (class_name_of pool.now) (slice_index_or names.now number [])) }
    ensures known { OnOk result (AreFirstPlaces pool.now names.now known.new) }
{
    if let Some(place) = known.get(&number) {
        return Ok(*place);
    }
    let Some(place) = pool.find_class(names.text(number)) else {
        unreachable!();
    };
    known.insert(number, place)?;
    Ok(place)
}

/// Puts a verification type at the end: its tag, and the place or the offset that it names.
fn put_kind(
    kind: Kind,
    refers: &FrameReferences<'_>,
    known: &mut HashMap<u32, u16>,
    into: &mut Vec<u8>,
) -> Result<(), Memory>
    requires number { IsNumbered (length refers.now.names.now) kind }
    requires place { IsPlaced (length refers.now.starts.now) kind }
    requires short { AreShort refers.now.starts.now }
    requires stands { AllByRecursion (HasPlace refers.now.pool.now) (class_name (verification_type refers.now.names.now kind)) }
    requires known { AreFirstPlaces refers.now.pool.now refers.now.names.now known.old }
    ensures text { (p : Places) → ArePlacesIn refers.now.pool.now refers.now.starts.now p
        → OnOk result (into.new.items ≡ into.old.items ++ type_text p (verification_type refers.now.names.now kind)) }
    ensures known { OnOk result (AreFirstPlaces refers.now.pool.now refers.now.names.now known.new) }
{
    match kind {
        Kind::Top => put_u8(into, 0),
        Kind::Int => put_u8(into, 1),
        Kind::Float => put_u8(into, 2),
        Kind::Double => put_u8(into, 3),
        Kind::Long => put_u8(into, 4),
        Kind::Null => put_u8(into, 5),
        Kind::UninitThis => put_u8(into, 6),
        Kind::Object(number) => {
            let place = class_place(number, refers.names, known, refers.pool)?;
            put_u8(into, 7)?;
            put_short(into, place)
        }
        Kind::Uninit(at) => {
            put_u8(into, 8)?;
            put_short(into, refers.starts[at as usize] as u16)
        }
    }
}

/// Puts verification types at the end, one behind the other.
fn put_listed_kinds(
    kinds: &[Kind],
    refers: &FrameReferences<'_>,
    known: &mut HashMap<u32, u16>,
    into: &mut Vec<u8>,
) -> Result<(), Memory>
    requires numbers { All (IsNumbered (length refers.now.names.now)) kinds.now }
    requires places { All (IsPlaced (length refers.now.starts.now)) kinds.now }
    requires short { AreShort refers.now.starts.now }
    requires stand { AllByRecursion (HasPlace refers.now.pool.now) (class_names (map (verification_type refers.now.names.now) kinds.now)) }
    requires known { AreFirstPlaces refers.now.pool.now refers.now.names.now known.old }
    ensures text { (p : Places) → ArePlacesIn refers.now.pool.now refers.now.starts.now p
        → OnOk result (into.new.items ≡ into.old.items ++ flat_map (type_text p) (map (verification_type refers.now.names.now) kinds.now)) }
    ensures known { OnOk result (AreFirstPlaces refers.now.pool.now refers.now.names.now known.new) }
{
    'writing: for kind in kinds {
        put_kind(*kind, refers, known, into)?;
    }
    Ok(())
}

/// Puts the number of verification types at the end, and the types.
fn put_kinds(
    kinds: &[Kind],
    refers: &FrameReferences<'_>,
    known: &mut HashMap<u32, u16>,
    into: &mut Vec<u8>,
) -> Result<(), Memory>
    requires few { length kinds.now ≤ 65535 }
    requires numbers { All (IsNumbered (length refers.now.names.now)) kinds.now }
    requires places { All (IsPlaced (length refers.now.starts.now)) kinds.now }
    requires short { AreShort refers.now.starts.now }
    requires stand { AllByRecursion (HasPlace refers.now.pool.now) (class_names (map (verification_type refers.now.names.now) kinds.now)) }
    requires known { AreFirstPlaces refers.now.pool.now refers.now.names.now known.old }
    ensures text { (p : Places) → ArePlacesIn refers.now.pool.now refers.now.starts.now p
        → OnOk result (into.new.items ≡ into.old.items ++ types_text p (map (verification_type refers.now.names.now) kinds.now)) }
    ensures known { OnOk result (AreFirstPlaces refers.now.pool.now refers.now.names.now known.new) }
{
    put_short(into, kinds.len() as u16)?;
    put_listed_kinds(kinds, refers, known, into)
}

/// Puts a full frame at the end, whose delta counts from a base: the values in local variables without the `Top`s at
/// the end, each of them once, and the stack.
fn put_frame(
    alloc: Global,
    frame: &FrameAt,
    base: u32,
    refers: &FrameReferences<'_>,
    known: &mut HashMap<u32, u16>,
    into: &mut Vec<u8>,
) -> Result<(), Memory>
    requires fits { FitsFull (length refers.now.starts.now) (length refers.now.names.now) frame.now }
    requires short { AreShort refers.now.starts.now }
    requires base { base ≤ slice_index refers.now.starts.now frame.now.at }
    requires stand { AllByRecursion (HasPlace refers.now.pool.now) (named_by (type_state_at refers.now.names.now frame.now)) }
    requires known { AreFirstPlaces refers.now.pool.now refers.now.names.now known.old }
    ensures text { (p : Places) → ArePlacesIn refers.now.pool.now refers.now.starts.now p
        → OnOk result (into.new.items ≡ into.old.items ++ full_text p base (type_state_at refers.now.names.now frame.now)) }
    ensures known { OnOk result (AreFirstPlaces refers.now.pool.now refers.now.names.now known.new) }
{
    let delta = refers.starts[frame.at as usize] - base;
    put_u8(into, FULL_FRAME)?;
    put_short(into, delta as u16)?;
    let locals = kinds_in_locals(alloc, &frame.state.locals)?;
    put_kinds(&locals, refers, known, into)?;
    put_kinds(&frame.state.stack, refers, known, into)
}

/// Puts full frames at the end, one behind the other.
fn put_frames(
    alloc: Global,
    frames: &[FrameAt],
    refers: &FrameReferences<'_>,
    into: &mut Vec<u8>,
) -> Result<(), Memory>
    requires each { AllByRecursion (FitsFull (length refers.now.starts.now) (length refers.now.names.now)) frames.now }
    requires short { AreShort refers.now.starts.now }
    requires rising { OffsetsRise refers.now.starts.now 0 frames.now }
    requires stand { AllByRecursion (HasPlace refers.now.pool.now) (named_by_all (map (type_state_at refers.now.names.now) frames.now)) }
    ensures { (p : Places) → ArePlacesIn refers.now.pool.now refers.now.starts.now p
        → OnOk result (into.new.items ≡ into.old.items ++ full_texts p 0 (map (type_state_at refers.now.names.now) frames.now)) }
{
    let mut known = HashMap::new(alloc);
    let mut base = 0;
    'writing: for frame in frames {
        put_frame(alloc, frame, base, refers, &mut known, into)?;
        base = refers.starts[frame.at as usize] + 1;
    }
    Ok(())
}

/// Puts the number of frames at the end, and a full frame for each.
fn put_table(
    alloc: Global,
    frames: &[FrameAt],
    refers: &FrameReferences<'_>,
    into: &mut Vec<u8>,
) -> Result<(), Memory>
    requires written { CanBeWritten refers.now.starts.now (length refers.now.names.now) frames.now }
    requires stand { AllByRecursion (HasPlace refers.now.pool.now) (named_by_all (map (type_state_at refers.now.names.now) frames.now)) }
    ensures { (p : Places) → ArePlacesIn refers.now.pool.now refers.now.starts.now p
        → OnOk result (into.new.items ≡ into.old.items ++ table_text p (map (type_state_at refers.now.names.now) frames.now)) }
{
    put_short(into, frames.len() as u16)?;
    put_frames(alloc, frames, refers, into)
}

/// Writes a StackMapTable at the end, without the name and the length of the attribute (JVM Specification 4.7.4): the
/// number of frames, and for each frame, in their order, a full frame, with the values in local variables up to the
/// last one that isn't `Top`. The classes that the frames name stand in the pool, and each is written by its first
/// place.
///
/// `starts` has the offset of each instruction.
///
/// # Errors
///
/// `Memory` where memory was refused. Then nothing has been written.
pub fn write_taken(
    alloc: Global,
    frames: &[FrameAt],
    starts: &[u32],
    names: &Names,
    pool: &Pool,
    into: &mut Vec<u8>,
) -> Result<(), Memory>
    requires written { CanBeWritten starts.now (length names.now) frames.now }
    requires stand { AllByRecursion (HasPlace pool.now) (named_by_all (map (type_state_at names.now) frames.now)) }
    // The text of full frames, with the first place of each class.
    ensures text { (p : Places) → ArePlacesIn pool.now starts.now p
        → OnOk result (into.new.items ≡ into.old.items ++ table_text p (map (type_state_at names.now) frames.now)) }
    ensures kept { OnErr result (into.new.items ≡ into.old.items) }
{
    let mut table = Vec::new(alloc);
    let refers = FrameReferences {
        starts,
        names,
        pool,
    };
    put_table(alloc, frames, &refers, &mut table)?;
    put_bytes(into, &table)
}

/// Puts each class that a frame names into the pool where it isn't there, in the order of the values, those of the
/// local variables first, and then writes a StackMapTable at the end as [`write_taken`] does.
///
/// # Errors
///
/// `PoolFull` exactly where `Pool::add_class` refuses the name of such a class after those before it, with the count
/// that it gives. `Memory` where memory was refused, or where such a name has more than 65,535 bytes, which no pool
/// can hold. Then nothing has been written, and the pool begins with the earlier one.
pub fn write_full(
    alloc: Global,
    frames: &[FrameAt],
    starts: &[u32],
    names: &Names,
    pool: &mut Pool,
    into: &mut Vec<u8>,
) -> Result<(), Fail<PoolFull>>
    requires { CanBeWritten starts.now (length names.now) frames.now }
    // The text of full frames, with the first place of each class in the new pool.
    ensures text { (p : Places) → ArePlacesIn pool.new starts.now p
        → OnOk result (into.new.items ≡ into.old.items ++ table_text p (map (type_state_at names.now) frames.now)) }
    // The pool takes the classes that the frames name, and no others.
    ensures classes { OnOk result (TakesClasses pool.old (named_by_all (map (type_state_at names.now) frames.now)) pool.new) }
    ensures refused { IfErr result (RefusesClasses pool.old (named_by_all (map (type_state_at names.now) frames.now)) pool.new) }
    ensures kept { OnErr result (into.new.items ≡ into.old.items) }
    ensures extends { Extends pool.old pool.new }
{
    take_classes(alloc, frames, names, pool)?;
    Ok(write_taken(alloc, frames, starts, names, pool, into)?)
}
