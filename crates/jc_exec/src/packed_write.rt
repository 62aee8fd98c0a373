//! Packed execution data as bytes.
ghost use Rattle.std.specs.Prelude.{◌≡◌, ◌<◌, ◌≤◌, ◌++◌, length, filter, OnOk, IfOk, All};
ghost use Rattle.std.specs.List.{flat_map};
ghost use Rattle.jc_exec.specs.Rows.{hits_of, ArePacked};
ghost use Rattle.jc_exec.specs.Store.{IsSmall, classes_of};
ghost use Rattle.jc_exec.specs.Writing.{class_text, session_text, is_hit, exec_text};

use crate::block::HEADER;
use crate::packed_records::{PackedRecords, Row, hits_at};
use crate::packed_sessions::PackedSessions;
use crate::write::{put_class, put_session};
use jc_bytes::Memory;
use std::alloc::{AllocError, Global};

/// The blocks of the sessions.
fn put_sessions(
    alloc: Global,
    out: &mut Vec<u8>,
    sessions: &PackedSessions,
) -> Result<(), AllocError>
    requires { All (λ s. length s.id < 65536) sessions.now }
    ensures { OnOk result (out.new.items ≡ out.old.items ++ flat_map session_text sessions.now) }
{
    'writing: for place in 0..sessions.len() {
        let session = sessions.at(alloc, place)?;
        put_session(out, &session)?;
    }
    Ok(())
}

/// The blocks of the records that have a hit.
fn put_classes(
    alloc: Global,
    out: &mut Vec<u8>,
    ids: &[u64],
    rows: &[Row],
    bytes: &[u8],
) -> Result<(), AllocError>
    requires packed { ArePacked bytes.now ids.now rows.now }
    requires small { All IsSmall (hits_of bytes.now ids.now rows.now) }
    ensures { OnOk result (out.new.items ≡ out.old.items ++ flat_map class_text (filter is_hit (hits_of bytes.now ids.now rows.now))) }
{
    'writing: for place in 0..rows.len() {
        let hits = hits_at(alloc, bytes, ids[place], rows[place])?;
        if hits.bits.has_true() {
            put_class(out, &hits)?;
        }
    }
    Ok(())
}

/// One header, the sessions by the time of their dump, and the records that have a hit.
pub fn packed_data(
    alloc: Global,
    mut sessions: PackedSessions,
    records: PackedRecords,
) -> Result<Vec<u8>, Memory>
    requires sessions { All (λ s. length s.id < 65536) sessions }
    requires classes { All IsSmall (classes_of records) }
    ensures { IfOk result (λ text. text.items ≡ exec_text (record { sessions = sessions; classes = classes_of records })) }
{
    sessions.sort()?;
    let PackedRecords { ids, rows, bytes } = records;
    let ids = ids.into_ids();
    let mut out = Vec::from_slice(alloc, &HEADER)?;
    put_sessions(alloc, &mut out, &sessions)?;
    put_classes(alloc, &mut out, &ids, &rows, &bytes)?;
    Ok(out)
}
