//! The lines that `execinfo` prints.
ghost use Rattle.std.specs.Prelude.{◌≡◌, count_by, IfOk, string_bytes};
ghost use Rattle.jc_command_exec.specs.ExecInfo.{file_line, times_text, session_line, hits_text, record_start, record_line};

use jc_exec::{Bits, ClassHits, Session};
use std::alloc::{AllocError, Global};

/// The line of a file.
pub fn file_line(alloc: Global, file: &str) -> Result<Vec<u8>, AllocError>
    ensures { IfOk result (λ line. line.items ≡ file_line file.now) }
{
    let line = format!(in alloc; "file {file}\n")?;
    Ok(line.into_bytes())
}

/// When a session began and when its data was dumped, as they are printed.
fn times_text(alloc: Global, start: i64, dump: i64) -> Result<String, AllocError>
    ensures { IfOk result (λ text. string_bytes text ≡ times_text start dump) }
{
    format!(in alloc; " start {start} dump {dump}\n")
}

/// The line of a session.
pub fn session_line(alloc: Global, session: &Session) -> Result<Vec<u8>, AllocError>
    ensures { IfOk result (λ line. line.items ≡ session_line session.now) }
{
    let times = times_text(alloc, session.start, session.dump)?;
    let mut line = Vec::from_slice(alloc, b"session ")?;
    line.extend_from_slice(&session.id)?;
    line.extend_from_slice(times.as_bytes())?;
    Ok(line)
}

/// How many probes were hit.
fn hit_count(bits: &Bits) -> usize
    ensures { result ≡ count_by (λ hit. hit) bits.now }
{
    let mut count = 0;
    'counting: for k in 0..bits.len() {
        if bits.get(k) {
            count += 1;
        }
    }
    count
}

/// The kind of a record's line and the class id, as they are printed.
fn record_start(alloc: Global, id: u64) -> Result<String, AllocError>
    ensures { IfOk result (λ text. string_bytes text ≡ record_start id) }
{
    format!(in alloc; "class {id:016x} ")
}

/// How many of so many probes were hit, as it is printed.
fn hits_text(alloc: Global, hits: usize, count: usize) -> Result<String, AllocError>
    ensures { IfOk result (λ text. string_bytes text ≡ hits_text hits count) }
{
    format!(in alloc; " {hits} of {count}\n")
}

/// The line of a record.
pub fn record_line(alloc: Global, class: &ClassHits) -> Result<Vec<u8>, AllocError>
    ensures { IfOk result (λ line. line.items ≡ record_line class.now) }
{
    let hits = hits_text(alloc, hit_count(&class.bits), class.bits.len())?;
    let mut line = record_start(alloc, class.id)?.into_bytes();
    line.extend_from_slice(&class.name)?;
    line.extend_from_slice(hits.as_bytes())?;
    Ok(line)
}
