//! Sessions whose names stand in one vector, one behind the other.
ghost use Rattle.std.specs.Prelude.{◌≡◌, ◌+◌, ◌<◌, ◌≤◌, ◌++◌, ◌∷◌, [], length, get_or, IfOk, OnOk, OnErr};
ghost use Rattle.std.specs.List.{AllByRecursion};
ghost use Rattle.jc_exec.specs.Rows.{session_at};
ghost use Rattle.jc_exec.specs.Store.{IsWritable};
ghost use Rattle.jc_exec.specs.Writing.{by_dump};

use crate::Session;
use jc_bytes::Bytes;
use std::alloc::{AllocError, Global};
use std::marker::Model;

/// A session, and where its name stands.
#[derive(Clone, Copy, Debug)]
pub struct SessionRow {
    pub start: i64,
    pub dump: i64,
    pub from: u32,
    pub size: u32,
}

/// Sessions.
#[derive(Drop)]
pub struct PackedSessions {
    names: Vec<u8>,
    rows: Vec<SessionRow>,
}

impl Model for PackedSessions {
    ghost use Rattle.std.specs.Prelude.{List, length};
    ghost use Rattle.jc_exec.specs.declared.session.Session.{Session};
    ghost use Rattle.jc_exec.specs.Rows.{sessions_in, AreInside};

    ghost Value = { List Session };

    ghost view = { λ a. sessions_in a.names.items a.rows.items };

    ghost invariant = { λ a. AreInside (length a.names.items) a.rows.items };
}

/// The session of a row.
fn session_at(alloc: Global, names: &[u8], row: SessionRow) -> Result<Session, AllocError>
    requires { row.from + row.size ≤ length names.now }
    ensures { IfOk result (λ session. session ≡ session_at names.now row) }
{
    let from = row.from as usize;
    Ok(Session {
        id: Bytes::copy_of(alloc, &names[from..from + row.size as usize])?,
        start: row.start,
        dump: row.dump,
    })
}

impl PackedSessions {
    /// No sessions.
    pub fn new(alloc: Global) -> PackedSessions
        ensures { result ≡ [] }
    {
        PackedSessions {
            names: Vec::new(alloc),
            rows: Vec::new(alloc),
        }
    }

    /// These sessions.
    pub fn of(alloc: Global, sessions: &[Session]) -> Result<PackedSessions, AllocError>
        requires { AllByRecursion IsWritable sessions.now }
        ensures { IfOk result (λ packed. packed ≡ sessions.now) }
    {
        let mut packed = PackedSessions::new(alloc);
        'packing: for session in sessions {
            packed.push(session)?;
        }
        Ok(packed)
    }

    /// How many there are.
    pub fn len(&self) -> usize
        ensures { result ≡ length self.now }
    {
        self.rows.len()
    }

    /// A copy of the session at a place.
    pub fn at(&self, alloc: Global, place: usize) -> Result<Session, AllocError>
        requires { place < length self.now }
        ensures { IfOk result (λ session. session ≡ get_or self.now place session) }
    {
        session_at(alloc, &self.names, self.rows[place])
    }

    /// Puts a session last.
    pub fn push(&mut self, session: &Session) -> Result<(), AllocError>
        requires { IsWritable session.now }
        ensures ok { OnOk result (self.new ≡ self.old ++ session.now ∷ []) }
        ensures err { OnErr result (self.new ≡ self.old) }
    {
        let from = self.names.len();
        if from > 0xffff_ffff {
            return Err(AllocError);
        }
        self.names.extend_from_slice(&session.id)?;
        self.rows.push(SessionRow {
            start: session.start,
            dump: session.dump,
            from: from as u32,
            size: session.id.len() as u32,
        })?;
        Ok(())
    }

    /// Puts them into the order of the times of their dump; those of one time stay in their order.
    pub fn sort(&mut self) -> Result<(), AllocError>
        ensures { OnOk result (self.new ≡ by_dump self.old) }
    {
        self.rows.sort_by_key(|row| row.dump)
    }
}
