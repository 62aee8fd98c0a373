//! The blocks of execution data, gathered one after the other.
ghost use Rattle.std.specs.Prelude.{◌≡◌, ◌+◌, ◌≤◌, [], length, IfOk, IfErr, OnOk};
ghost use Rattle.jc_bytes.specs.Reader.{most_read};
ghost use Rattle.jc_exec.specs.Adding.{Gathers, RefusesAll, Keeps, RefusesBlock, Adds, IsStop};
ghost use Rattle.jc_exec.specs.Front.{Fits, block_of};
ghost use Rattle.jc_exec.specs.Store.{Keyed};

use crate::block::{Front, next_block};
use crate::merge::gather;
use crate::packed_records::PackedRecords;
use crate::packed_sessions::PackedSessions;
use crate::records::Records;
use crate::table::Table;
use crate::{ClassHits, ExecRefusal, Session};
use jc_bytes::{Fail, Reader};
use std::alloc::{AllocError, Global};

/// Sessions, and records of classes.
#[derive(Drop)]
pub struct Added {
    pub sessions: Vec<Session>,
    pub records: Records,
}

impl Table for Added {
    ghost held = { λ a. record { sessions = a.sessions.items; records = a.records } };

    fn push_session(&mut self, session: Session) -> Result<(), AllocError> {
        self.sessions.push(session)?;
        Ok(())
    }

    fn merge(&mut self, alloc: Global, hits: &ClassHits) -> Option<Result<(), Fail<ExecRefusal>>> {
        self.records.merge(alloc, hits)
    }

    fn push(&mut self, alloc: Global, hits: ClassHits) -> Result<(), AllocError> {
        self.records.push(alloc, hits)
    }
}

/// Sessions, and records of classes, whose names and bits stand packed.
#[derive(Drop)]
pub struct PackedAdded {
    pub sessions: PackedSessions,
    pub records: PackedRecords,
}

impl Table for PackedAdded {
    ghost held = { λ a. record { sessions = a.sessions; records = a.records } };

    fn push_session(&mut self, session: Session) -> Result<(), AllocError> {
        self.sessions.push(&session)
    }

    fn merge(&mut self, alloc: Global, hits: &ClassHits) -> Option<Result<(), Fail<ExecRefusal>>> {
        self.records.merge(alloc, hits)
    }

    fn push(&mut self, alloc: Global, hits: ClassHits) -> Result<(), AllocError> {
        self.records.push(alloc, &hits)
    }
}

/// Puts a block with what was gathered.
fn keep<T: Table>(
    alloc: Global,
    known: &Records,
    table: &mut T,
    block: Front,
) -> Result<(), Fail<ExecRefusal>>
    requires known { Keyed known.now }
    requires keyed { Keyed (T.held table.old).records }
    requires block { Fits block }
    ensures keeps { OnOk result (Keeps known.now (T.held table.old) (T.held table.new) (block_of block)) }
    ensures refused { IfErr result (λ e. RefusesBlock e known.now (T.held table.old).records (block_of block)) }
{
    match block {
        Front::Header => {}
        Front::Session(session) => table.push_session(session)?,
        Front::Class(hits) => gather(alloc, known, table, hits)?,
    }
    Ok(())
}

/// Puts the blocks of bytes that begin at the offset of a file with what was gathered, over some records. After an
/// error those in front of the refused block were put.
pub fn take_blocks<T: Table>(
    alloc: Global,
    known: &Records,
    table: &mut T,
    bytes: &[u8],
    offset: u32,
) -> Result<(), Fail<ExecRefusal>>
    requires short { offset + length bytes.now ≤ most_read }
    requires known { Keyed known.now }
    requires keyed { Keyed (T.held table.old).records }
    ensures adds { OnOk result (Adds known.now offset bytes.now (T.held table.old) (T.held table.new)) }
    ensures stops { IfErr result (IsStop known.now offset bytes.now (T.held table.old) (T.held table.new)) }
{
    let mut reader = Reader::new(bytes);
    'reading: while (reader.place() as usize) < bytes.len() {
        let kind = bytes[reader.place() as usize];
        let block = next_block(alloc, &mut reader, offset, kind)?;
        keep(alloc, known, table, block)?;
    }
    Ok(())
}

/// The blocks of a file over some records.
pub fn read_blocks(alloc: Global, known: &Records, bytes: &[u8]) -> Result<Added, Fail<ExecRefusal>>
    requires short { length bytes.now ≤ most_read }
    requires keyed { Keyed known.now }
    ensures gathers { IfOk result (λ added. Gathers known.now bytes.now added.sessions.items added.records) }
    ensures refused { IfErr result (RefusesAll known.now bytes.now) }
{
    let sessions = Vec::new(alloc);
    let records = Records::new(alloc);
    let mut added = Added { sessions, records };
    take_blocks(alloc, known, &mut added, bytes, 0)?;
    Ok(added)
}
