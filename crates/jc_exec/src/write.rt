//! Execution data as bytes.
ghost use Rattle.std.specs.Prelude.{◌≡◌, ◌+◌, ◌*◌, ◌/◌, ◌<◌, ◌≤◌, ◌^◌, ◌++◌, [], ℕ, length, map, filter, OnOk, IfOk, All};
ghost use Rattle.std.specs.List.{list_any, flat_map};
ghost use Rattle.jc_exec.specs.Store.{IsSmall};
ghost use Rattle.jc_exec.specs.Writing.{low_first, packed, id_text, size_text, shortest, count_text, time_text};
ghost use Rattle.jc_exec.specs.Writing.{class_text, session_text, by_dump, is_hit, exec_text};

use crate::block::{CLASS, HEADER, SESSION};
use crate::{ClassHits, Session};
use jc_bytes::Memory;
use std::alloc::{AllocError, Global};

#[tactic(auto, unfolding(crate::specs::Writing::id_text))]
fn put_id(out: &mut Vec<u8>, id: u64) -> Result<(), AllocError>
    ensures { OnOk result (out.new.items ≡ out.old.items ++ id_text id) }
{
    out.extend_from_slice(&id.to_be_bytes())
}

#[tactic(auto, unfolding(crate::specs::Writing::size_text))]
fn put_size(out: &mut Vec<u8>, size: u16) -> Result<(), AllocError>
    ensures { OnOk result (out.new.items ≡ out.old.items ++ size_text size) }
{
    out.extend_from_slice(&size.to_be_bytes())
}

/// A count in its shortest spelling.
fn put_shortest(out: &mut Vec<u8>, count: u32) -> Result<(), AllocError>
    ensures { OnOk result ((k : ℕ) → count < 128 ^ (k + 1) → out.new.items ≡ out.old.items ++ shortest k count) }
{
    if count < 0x80 {
        out.push(count as u8)?;
        return Ok(());
    }
    out.push((count % 0x80 + 0x80) as u8)?;
    put_shortest(out, count / 0x80)
}

#[tactic(auto, unfolding(crate::specs::Writing::count_text))]
fn put_count(out: &mut Vec<u8>, count: u32) -> Result<(), AllocError>
    requires { count < 65536 }
    ensures { OnOk result (out.new.items ≡ out.old.items ++ count_text count) }
{
    put_shortest(out, count)
}

/// A time in milliseconds, in two's complement.
fn put_time(out: &mut Vec<u8>, time: i64) -> Result<(), AllocError>
    ensures { OnOk result (out.new.items ≡ out.old.items ++ time_text time) }
{
    put_id(out, time.cast_unsigned())
}

/// The block of a session.
pub fn put_session(out: &mut Vec<u8>, session: &Session) -> Result<(), AllocError>
    requires { length session.now.id < 65536 }
    ensures { OnOk result (out.new.items ≡ out.old.items ++ session_text session.now) }
{
    out.push(SESSION)?;
    put_size(out, session.id.len() as u16)?;
    out.extend_from_slice(&session.id)?;
    put_time(out, session.start)?;
    put_time(out, session.dump)?;
    Ok(())
}

/// The block of a record.
pub fn put_class(out: &mut Vec<u8>, hits: &ClassHits) -> Result<(), AllocError>
    requires { IsSmall hits.now }
    ensures { OnOk result (out.new.items ≡ out.old.items ++ class_text hits.now) }
{
    out.push(CLASS)?;
    put_id(out, hits.id)?;
    put_size(out, hits.name.len() as u16)?;
    out.extend_from_slice(&hits.name)?;
    put_count(out, hits.bits.len() as u32)?;
    out.extend_from_slice(hits.bits.bytes())?;
    Ok(())
}

/// The sessions by the time of their dump; those of one time stay in their order.
fn in_order<'a>(alloc: Global, sessions: &'a [Session]) -> Result<Vec<&'a Session>, AllocError>
    ensures { IfOk result (λ order. map (λ s. s.now) order.items ≡ by_dump sessions.now) }
{
    let mut order: Vec<&Session> = sessions.iter().collect(alloc)?;
    order.sort_by_key(|session| session.dump)?;
    Ok(order)
}

/// The blocks of the sessions.
fn put_sessions(out: &mut Vec<u8>, sessions: &[&Session]) -> Result<(), AllocError>
    requires { All (λ s. length s.now.id < 65536) sessions.now }
    ensures { OnOk result (out.new.items ≡ out.old.items ++ flat_map session_text (map (λ s. s.now) sessions.now)) }
{
    'writing: for session in sessions {
        put_session(out, session)?;
    }
    Ok(())
}

/// The blocks of the records that have a hit.
fn put_classes(out: &mut Vec<u8>, classes: &[ClassHits]) -> Result<(), AllocError>
    requires { All IsSmall classes.now }
    ensures { OnOk result (out.new.items ≡ out.old.items ++ flat_map class_text (filter is_hit classes.now)) }
{
    'writing: for hits in classes {
        if hits.bits.has_true() {
            put_class(out, hits)?;
        }
    }
    Ok(())
}

/// One header, the sessions by the time of their dump, and the records that have a hit.
pub fn exec_data(
    alloc: Global,
    sessions: &[Session],
    classes: &[ClassHits],
) -> Result<Vec<u8>, Memory>
    requires sessions { All (λ s. length s.id < 65536) sessions.now }
    requires classes { All IsSmall classes.now }
    ensures { IfOk result (λ text. text.items ≡ exec_text (record { sessions = sessions.now; classes = classes.now })) }
{
    let mut out = Vec::from_slice(alloc, &HEADER)?;
    let order = in_order(alloc, sessions)?;
    put_sessions(&mut out, &order)?;
    put_classes(&mut out, classes)?;
    Ok(out)
}
