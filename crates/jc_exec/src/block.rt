//! One block of execution data.
ghost use Rattle.std.specs.Prelude.{◌≡◌, ◌+◌, ◌*◌, ◌^◌, ◌<◌, ◌≤◌, ◌∷◌, [], ◌++◌, length, slice_index, IfOk, FitsSigned};
ghost use Rattle.std.specs.Int.{w64};
ghost use Rattle.jc_bytes.specs.Decoder.{Gives, SameEnd};
ghost use Rattle.jc_exec.specs.Format.{header_text, unpack};
ghost use Rattle.jc_exec.specs.Store.{IsSmall};
ghost use Rattle.jc_exec.specs.Reading.{text_at, count_in, count_at, bits_at, class_at, session_at, version_at};
ghost use Rattle.jc_bytes.specs.Reader.{most_read};
ghost use Rattle.jc_exec.specs.Front.{ReadsFront, IsUnread, moved};

use crate::{Bits, ClassHits, ExecRefusal, Session};
use jc_bytes::{Bytes, Fail, Reader, Unfit, is_modified};
use std::alloc::Global;

pub const HEADER: [u8; 5] = [0x01, 0xc0, 0xc0, 0x10, 0x07];

/// The byte that begins a header.
pub const HEADER_KIND: u8 = 0x01;

/// The byte that begins a session.
pub const SESSION: u8 = 0x10;

/// The byte that begins a class.
pub const CLASS: u8 = 0x11;

/// What stands in a header in front of the version.
const MAGIC: [u8; 3] = [0x01, 0xc0, 0xc0];

const VERSION: u16 = 0x1007;

/// A block of execution data.
#[derive(Drop)]
pub enum Front {
    Header,
    Session(Session),
    Class(ClassHits),
}

/// A length of two bytes, and as many bytes of modified UTF-8.
#[tactic(auto, unfolding(crate::specs::Reading::text_at))]
fn text(alloc: Global, reader: &mut Reader<'_>) -> Result<Bytes, Fail<Unfit>>
    ensures gives { Gives (λ name. name) result reader.new.left (text_at reader.old.left) }
    ensures small { IfOk result (λ name. length name < 65536) }
    ensures end { SameEnd reader.old reader.new }
{
    let length = reader.u16()?;
    let piece = reader.take(length as u32)?;
    Ok(Bytes::copy_of(alloc, piece)?)
}

/// A number that is spelled in at most so many bytes, seven bits in each.
fn count_in(reader: &mut Reader<'_>, most: u32) -> Result<u64, Fail<Unfit>>
    requires { most ≤ 5 }
    ensures gives { Gives (λ n. n) result reader.new.left (count_in most reader.old.left) }
    ensures end { SameEnd reader.old reader.new }
    ensures bound { IfOk result (λ n. n < 128 ^ most) }
{
    if most == 0 {
        return Err(Fail::Said(Unfit));
    }
    let byte = reader.u8()?;
    if byte < 0x80 {
        return Ok(u64::from(byte));
    }
    let high = count_in(reader, most - 1)?;
    Ok(u64::from(byte) - 0x80 + 0x80 * high)
}

/// The count of a record's probes.
#[tactic(auto, unfolding(crate::specs::Reading::count_at))]
fn count(reader: &mut Reader<'_>) -> Result<u32, Fail<Unfit>>
    ensures gives { Gives (λ n. n) result reader.new.left (count_at reader.old.left) }
    ensures end { SameEnd reader.old reader.new }
    ensures small { IfOk result (λ n. n < 65536) }
{
    let count = count_in(reader, 5)?;
    if count > 0xffff {
        return Err(Fail::Said(Unfit));
    }
    Ok(count as u32)
}

/// As many bits as the count says.
#[tactic(auto, unfolding(crate::specs::Reading::bits_at))]
fn bits(alloc: Global, reader: &mut Reader<'_>, count: u32) -> Result<Bits, Fail<Unfit>>
    requires { count < 65536 }
    ensures gives { Gives (λ bits. bits) result reader.new.left (bits_at count reader.old.left) }
    ensures length { IfOk result (λ bits. length bits ≡ count) }
    ensures end { SameEnd reader.old reader.new }
{
    let piece = reader.take(count.div_ceil(8))?;
    Ok(Bits::of_bytes(alloc, piece, count)?)
}

/// The record of a class.
#[tactic(auto, unfolding(crate::specs::Reading::class_at))]
fn class_parts(alloc: Global, reader: &mut Reader<'_>) -> Result<ClassHits, Fail<Unfit>>
    ensures gives { Gives (λ hits. hits) result reader.new.left (class_at reader.old.left) }
    ensures small { IfOk result IsSmall }
    ensures end { SameEnd reader.old reader.new }
{
    if reader.u8()? != CLASS {
        return Err(Fail::Said(Unfit));
    }
    let id = reader.u64()?;
    let name = text(alloc, reader)?;
    let count = count(reader)?;
    let bits = bits(alloc, reader, count)?;
    Ok(ClassHits { id, name, bits })
}

/// The session of a run.
#[tactic(auto, unfolding(crate::specs::Reading::session_at))]
fn session_parts(alloc: Global, reader: &mut Reader<'_>) -> Result<Session, Fail<Unfit>>
    ensures gives { Gives (λ session. session) result reader.new.left (session_at reader.old.left) }
    ensures small { IfOk result (λ session. length session.id < 65536) }
    ensures start { IfOk result (λ session. FitsSigned w64 session.start) }
    ensures dump { IfOk result (λ session. FitsSigned w64 session.dump) }
    ensures end { SameEnd reader.old reader.new }
{
    if reader.u8()? != SESSION {
        return Err(Fail::Said(Unfit));
    }
    let id = text(alloc, reader)?;
    let start = reader.u64()?.cast_signed();
    let dump = reader.u64()?.cast_signed();
    Ok(Session { id, start, dump })
}

/// The version of a header.
#[tactic(auto, unfolding(crate::specs::Reading::version_at))]
fn version(reader: &mut Reader<'_>) -> Result<u16, Fail<Unfit>>
    ensures gives { Gives (λ version. version) result reader.new.left (version_at reader.old.left) }
    ensures known { IfOk result (λ version. version ≡ 0x1007 → reader.old.left ≡ header_text ++ reader.new.left) }
    ensures end { SameEnd reader.old reader.new }
{
    let magic = reader.take(3)?;
    if magic != MAGIC.as_slice() {
        return Err(Fail::Said(Unfit));
    }
    let version = reader.take(2)?;
    Ok(0x100 * u16::from(version[0]) + u16::from(version[1]))
}

/// No block that may stand at the offset is in front.
fn bad(offset: u32) -> Fail<ExecRefusal>
    ensures { result ≡ Fail.Said (ExecRefusal.BadExec offset) }
{
    Fail::Said(ExecRefusal::BadExec { place: offset })
}

/// What comes of a block that was not read.
fn unfit(unread: Fail<Unfit>, offset: u32) -> Fail<ExecRefusal>
    ensures { IsUnread unread offset result }
{
    match unread {
        Fail::Memory => Fail::Memory,
        Fail::Said(Unfit) => bad(offset),
    }
}

/// A header, where its first byte is in front. The reader's bytes begin at the offset.
fn header(reader: &mut Reader<'_>, offset: u32) -> Result<Front, Fail<ExecRefusal>>
    requires kind { slice_index reader.old.left 0 ≡ 0x01 }
    requires room { offset + (reader.old.place + length reader.old.left) ≤ most_read }
    ensures { ReadsFront result (moved offset reader.old) (moved offset reader.new) }
{
    let place = offset + reader.place();
    let found = match version(reader) {
        Ok(found) => found,
        Err(unread) => return Err(unfit(unread, place)),
    };
    if found != VERSION {
        return Err(Fail::Said(ExecRefusal::OtherVersion { found }));
    }
    Ok(Front::Header)
}

/// A session behind other blocks, where its first byte is in front. The reader's bytes begin at the offset.
fn session(alloc: Global, reader: &mut Reader<'_>, offset: u32) -> Result<Front, Fail<ExecRefusal>>
    requires kind { slice_index reader.old.left 0 ≡ 0x10 }
    requires behind { 0 < offset + reader.old.place }
    requires room { offset + (reader.old.place + length reader.old.left) ≤ most_read }
    ensures { ReadsFront result (moved offset reader.old) (moved offset reader.new) }
{
    let place = offset + reader.place();
    let session = match session_parts(alloc, reader) {
        Ok(session) => session,
        Err(unread) => return Err(unfit(unread, place)),
    };
    if !is_modified(&session.id) {
        return Err(bad(place));
    }
    Ok(Front::Session(session))
}

/// A class behind other blocks, where its first byte is in front. The reader's bytes begin at the offset.
fn class(alloc: Global, reader: &mut Reader<'_>, offset: u32) -> Result<Front, Fail<ExecRefusal>>
    requires kind { slice_index reader.old.left 0 ≡ 0x11 }
    requires behind { 0 < offset + reader.old.place }
    requires room { offset + (reader.old.place + length reader.old.left) ≤ most_read }
    ensures { ReadsFront result (moved offset reader.old) (moved offset reader.new) }
{
    let place = offset + reader.place();
    let hits = match class_parts(alloc, reader) {
        Ok(hits) => hits,
        Err(unread) => return Err(unfit(unread, place)),
    };
    if !is_modified(&hits.name) {
        return Err(bad(place));
    }
    Ok(Front::Class(hits))
}

/// The block that begins with this byte. The first block of all is a header. The reader's bytes begin at the offset.
pub fn next_block(
    alloc: Global,
    reader: &mut Reader<'_>,
    offset: u32,
    kind: u8,
) -> Result<Front, Fail<ExecRefusal>>
    requires some { 0 < length reader.old.left }
    requires kind { kind ≡ slice_index reader.old.left 0 }
    requires room { offset + (reader.old.place + length reader.old.left) ≤ most_read }
    ensures { ReadsFront result (moved offset reader.old) (moved offset reader.new) }
{
    let place = offset + reader.place();
    if kind == HEADER_KIND {
        return header(reader, offset);
    }
    if place == 0 {
        return Err(bad(place));
    }
    if kind == SESSION {
        return session(alloc, reader, offset);
    }
    if kind == CLASS {
        return class(alloc, reader, offset);
    }
    Err(bad(place))
}
