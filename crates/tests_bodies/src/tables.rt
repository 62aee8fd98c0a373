//! Stack map tables: their frames, where they are wrong, and frames that are written.
ghost use Rattle.std.specs.Prelude.{◌≡◌, ◌≤◌, ℕ, List, length, IfSome, All, IsTrue};
ghost use Rattle.jc_base.specs.VerificationTypes.{IsNumberedState, AreNumberedFrames};
ghost use Rattle.jc_base.specs.WellMade.{IsState, AreFramesFrom};
ghost use Rattle.jc_base.specs.declared.Insn.{Insn as Instruction};
ghost use Rattle.jc_frames.specs.FullTable.{AreShort};
ghost use Rattle.jc_frames.specs.WellMade.{AreOffsets};

use crate::bodies::{MOST_BYTES, TOO_MANY};
use crate::states::{put_frames, put_state};
use jc_base::{Fail, FrameAt, Names, Reader, State, is_method_descriptor};
use jc_frames::{entry_state, frame_fault, read_frames, take_classes, write_full};
use jc_insn::{Decoded, decode};
use jc_pool::{Pool, PoolFull};
use std::alloc::Global;
use tests_lines::{Answer, number};

/// The most bytes of a method's code.
const MOST_CODE: usize = 65_535;

/// A method, by what says the state in which it begins.
#[derive(Clone, Copy)]
pub struct Method<'a> {
    owner: &'a str,
    name: &'a str,
    desc: &'a str,
    flags: u16,
    max_locals: u16,
    max_stack: u16,
}

/// The method that six words say, and the words behind them: the class, the name, the descriptor, the access flags, the
/// number of local variables and that of the slots of the stack.
pub fn method_of<'w, 'a>(
    words: &'w [&'a str],
    out: &mut Answer,
) -> Option<(Method<'a>, &'w [&'a str])> {
    let [owner, name, desc, flags, max_locals, max_stack, rest @ ..] = words else {
        return out.wrong("no method");
    };
    let method = Method {
        owner,
        name,
        desc,
        flags: number::<u16>(flags, out)?,
        max_locals: number::<u16>(max_locals, out)?,
        max_stack: number::<u16>(max_stack, out)?,
    };
    Some((method, rest))
}

/// The constant pool that the bytes are.
pub fn pool_of(alloc: Global, bytes: &[u8], out: &mut Answer) -> Option<Pool> {
    if bytes.len() > MOST_BYTES {
        return out.wrong(TOO_MANY);
    }
    let mut reader = Reader::new(bytes);
    let pool = out.accepted(Pool::read(alloc, &mut reader))?;
    if (reader.place() as usize) < bytes.len() {
        return out.wrong("no pool of all bytes");
    }
    Some(pool)
}

/// Puts the bytes of a pool.
pub fn pool_text(alloc: Global, pool: &Pool, out: &mut Answer) -> Option<()> {
    let mut bytes = Vec::new(alloc);
    out.got(pool.write(alloc, &mut bytes))?;
    out.bytes(&bytes);
    Some(())
}

/// Puts how many places a pool has.
pub fn put_places(pool: &Pool, out: &mut Answer) -> Option<()> {
    out.show(&pool.count());
    out.put(" places");
    Some(())
}

/// Whether each offset is a number of two bytes.
fn are_short(starts: &[u32]) -> bool
    ensures { IsTrue result → AreShort starts.now }
{
    starts.iter().all(|start| *start <= 65_535)
}

/// The instructions of code, with their offsets and the end of the code.
fn code_of(alloc: Global, bytes: &[u8], out: &mut Answer) -> Option<Decoded>
    ensures offsets { IfSome result (λ d. AreOffsets (length d.code) d.starts) }
    ensures short { IfSome result (λ d. AreShort d.starts) }
    ensures few { IfSome result (λ d. length d.starts ≤ 65536) }
{
    if bytes.len() > MOST_BYTES {
        return out.wrong(TOO_MANY);
    }
    let decoded = out.accepted(decode(alloc, bytes))?;
    if decoded.starts.len() > MOST_CODE + 1 || !are_short(&decoded.starts) {
        return out.wrong("no code of a method");
    }
    Some(decoded)
}

/// The state in which a method begins.
fn begins(alloc: Global, method: Method<'_>, names: &mut Names, out: &mut Answer) -> Option<State>
    ensures numbered { IfSome result (IsNumberedState (length names.new)) }
    ensures made { (code : List Instruction) (max_stack : ℕ) → IfSome result (λ state. IsState code method.entry.max_locals max_stack state) }
{
    let desc = method.desc.as_bytes();
    if !is_method_descriptor(desc) {
        return out.wrong("no method descriptor");
    }
    let owner = method.owner.as_bytes();
    let name = method.name.as_bytes();
    out.accepted(entry_state(
        alloc,
        owner,
        name,
        desc,
        method.flags,
        method.max_locals,
        names,
    ))
}

/// The state in which a method begins, in words.
pub fn entry(alloc: Global, words: &[&str], out: &mut Answer) -> Option<()> {
    let (method, _) = method_of(words, out)?;
    let mut names = out.got(Names::new(alloc))?;
    let state = begins(alloc, method, &mut names, out)?;
    put_state(&state, &names, out);
    Some(())
}

/// What a table is read with.
#[derive(Clone, Copy)]
pub struct Ground<'a> {
    pub method: Method<'a>,
    pub code: &'a [u8],
    pub pool: &'a Pool,
}

/// Puts where a table is wrong.
pub fn fault(alloc: Global, ground: Ground<'_>, table: &[u8], out: &mut Answer) -> Option<()> {
    if table.len() > MOST_BYTES {
        return out.wrong(TOO_MANY);
    }
    let mut names = out.got(Names::new(alloc))?;
    let state = begins(alloc, ground.method, &mut names, out)?;
    let decoded = code_of(alloc, ground.code, out)?;
    let place = out.got(frame_fault(
        alloc,
        table,
        &state,
        ground.method.max_stack,
        &decoded.code,
        &decoded.starts,
        ground.pool,
    ))?;
    match place {
        Some(place) => out.show(&place),
        None => out.put("frames"),
    }
    Some(())
}

/// The frames of a table over decoded code.
fn frames_of(
    alloc: Global,
    ground: Ground<'_>,
    decoded: &Decoded,
    table: &[u8],
    names: &mut Names,
    out: &mut Answer,
) -> Option<Vec<FrameAt>>
    requires offsets { AreOffsets (length decoded.now.code) decoded.now.starts }
    requires few { length decoded.now.starts ≤ 65536 }
    ensures numbered { IfSome result (λ frames. AreNumberedFrames (length names.new) frames.items) }
    ensures made { IfSome result (λ frames. AreFramesFrom 0 decoded.now.code ground.entry.method.max_locals ground.entry.method.max_stack frames.items) }
{
    if table.len() > MOST_BYTES {
        return out.wrong(TOO_MANY);
    }
    let state = begins(alloc, ground.method, names, out)?;
    out.accepted(read_frames(
        alloc,
        table,
        &state,
        ground.method.max_stack,
        &decoded.code,
        &decoded.starts,
        ground.pool,
        names,
    ))
}

/// Puts the frames of a table.
pub fn read(alloc: Global, ground: Ground<'_>, table: &[u8], out: &mut Answer) -> Option<()> {
    let mut names = out.got(Names::new(alloc))?;
    let decoded = code_of(alloc, ground.code, out)?;
    let frames = frames_of(alloc, ground, &decoded, table, &mut names, out)?;
    put_frames(&frames, &names, out);
    Some(())
}

/// What came of an addition to a pool, unless it is full: then puts how many places it would have.
fn added(outcome: Result<(), Fail<PoolFull>>, out: &mut Answer) -> Option<()> {
    match outcome {
        Ok(()) => Some(()),
        Err(Fail::Said(PoolFull { count })) => {
            out.label("pool full at ", &count);
            None
        }
        Err(Fail::Memory) => out.lose(),
    }
}

/// Takes the classes of a table's frames into a pool, and tells how many places it has then.
pub fn take(
    alloc: Global,
    ground: Ground<'_>,
    table: &[u8],
    pool: &mut Pool,
    out: &mut Answer,
) -> Option<()> {
    let mut names = out.got(Names::new(alloc))?;
    let decoded = code_of(alloc, ground.code, out)?;
    let frames = frames_of(alloc, ground, &decoded, table, &mut names, out)?;
    added(take_classes(alloc, &frames, &names, pool), out)?;
    put_places(pool, out)
}

/// Writes the frames of a table in full, behind the bytes that are there.
fn put_full(
    alloc: Global,
    ground: Ground<'_>,
    table: &[u8],
    pool: &mut Pool,
    into: &mut Vec<u8>,
    out: &mut Answer,
) -> Option<()> {
    let mut names = out.got(Names::new(alloc))?;
    let decoded = code_of(alloc, ground.code, out)?;
    let frames = frames_of(alloc, ground, &decoded, table, &mut names, out)?;
    if frames.len() > MOST_CODE {
        return out.wrong("no table of so few frames");
    }
    added(
        write_full(alloc, &frames, &decoded.starts, &names, pool, into),
        out,
    )
}

/// Puts the frames of a table written in full, in hexadecimal digits behind those that are there; in front of them the
/// problem, if there is one.
pub fn written(
    alloc: Global,
    ground: Ground<'_>,
    table: &[u8],
    pool: &mut Pool,
    front: &[u8],
    out: &mut Answer,
) -> Option<()> {
    let mut into = out.got(front.to_vec(alloc))?;
    if put_full(alloc, ground, table, pool, &mut into, out).is_none() {
        out.put("; ");
    }
    out.bytes(&into);
    Some(())
}
