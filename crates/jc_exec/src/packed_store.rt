//! The union of execution data, packed.
ghost use Rattle.std.specs.Prelude.{◌≡◌, ◌<◌, [], nat_eq, length, get_or, IfOk, IfSome};
ghost use Rattle.std.specs.List.{AllByRecursion};
ghost use Rattle.std.specs.Map.{lookup};
ghost use Rattle.jc_exec.specs.Adding.{store_of};
ghost use Rattle.jc_exec.specs.Store.{IsWritable, IsWritableClass, Keyed, entries_of};
ghost use Rattle.jc_exec.specs.Union.{IsUnion};
ghost use Rattle.jc_exec.specs.Writing.{exec_text};

use crate::gathering::PackedAdded;
use crate::packed_records::PackedRecords;
use crate::packed_sessions::PackedSessions;
use crate::packed_write::packed_data;
use crate::{ClassHits, Session};
use jc_bytes::Memory;
use std::alloc::Global;
use std::marker::Model;

/// The union of execution data, in little more memory than its names, ids, bits and times take.
///
/// It is seen as an `ExecStore` is. It holds at most 4 GiB of names of sessions, and as much of names and bits of records.
#[derive(Drop)]
pub struct PackedStore {
    sessions: PackedSessions,
    records: PackedRecords,
}

impl Model for PackedStore {
    ghost use Rattle.std.specs.List.{AllByRecursion};
    ghost use Rattle.jc_exec.specs.Store.{Store, classes_of, IsWritable, Keyed};

    ghost Value = { Store };

    ghost view = { λ a. record { sessions = a.sessions; classes = classes_of a.records } };

    ghost invariant = { λ a. AllByRecursion IsWritable a.sessions × Keyed a.records };
}

impl PackedStore {
    /// The empty union.
    pub fn new(alloc: Global) -> PackedStore
        ensures empty { result ≡ record { sessions = []; classes = [] } }
        ensures union { IsUnion [] result }
    {
        PackedStore {
            sessions: PackedSessions::new(alloc),
            records: PackedRecords::new(alloc),
        }
    }

    /// How many sessions there are.
    pub fn session_count(&self) -> usize
        ensures { result ≡ length self.now.sessions }
    {
        self.sessions.len()
    }

    /// A copy of a session, by its place in the order in which they were read.
    ///
    /// # Errors
    ///
    /// `Memory`, where memory is refused.
    pub fn session(&self, alloc: Global, place: usize) -> Result<Session, Memory>
        requires { place < length self.now.sessions }
        ensures { IfOk result (λ session. session ≡ get_or self.now.sessions place session) }
    {
        Ok(self.sessions.at(alloc, place)?)
    }

    /// How many records there are.
    pub fn class_count(&self) -> usize
        ensures { result ≡ length self.now.classes }
    {
        self.records.len()
    }

    /// A copy of a record, by its place in the order in which their ids were first seen.
    ///
    /// # Errors
    ///
    /// `Memory`, where memory is refused.
    pub fn class(&self, alloc: Global, place: usize) -> Result<ClassHits, Memory>
        requires { place < length self.now.classes }
        ensures found { IfOk result (λ hits. hits ≡ get_or self.now.classes place hits) }

        // It has at most 65,535 probes and a name in modified UTF-8.
        ensures fits { IfOk result IsWritableClass }
    {
        Ok(self.records.at(alloc, place)?)
    }

    /// A copy of the record of a class id, if there is one.
    ///
    /// # Errors
    ///
    /// `Memory`, where memory is refused.
    pub fn get(&self, alloc: Global, id: u64) -> Result<Option<ClassHits>, Memory>
        ensures found { IfOk result (λ found. found ≡ lookup (nat_eq id) (entries_of self.now.classes)) }

        // It has at most 65,535 probes and a name in modified UTF-8.
        ensures fits { IfOk result (λ found. IfSome found IsWritableClass) }
    {
        Ok(self.records.get(alloc, id)?)
    }

    /// The store as execution data: one header, the sessions by the time of their dump, and then
    /// the records that have a hit, in the store's order. Each count is spelled as short as can be.
    ///
    /// # Errors
    ///
    /// `Memory`, where memory is refused.
    pub fn write(self, alloc: Global) -> Result<Vec<u8>, Memory>
        ensures { IfOk result (λ text. text.items ≡ exec_text self) }
    {
        let PackedStore { sessions, records } = self;
        packed_data(alloc, sessions, records)
    }

    /// The sessions and the records.
    pub(crate) fn into_added(self) -> PackedAdded
        ensures store { store_of result.sessions result.records ≡ self }
        ensures writable { AllByRecursion IsWritable result.sessions }
        ensures keyed { Keyed result.records }
    {
        let PackedStore { sessions, records } = self;
        PackedAdded { sessions, records }
    }

    /// The store of these sessions and records.
    pub(crate) fn of_added(added: PackedAdded) -> PackedStore
        requires writable { AllByRecursion IsWritable added.sessions }
        requires keyed { Keyed added.records }
        ensures { result ≡ store_of added.sessions added.records }
    {
        let PackedAdded { sessions, records } = added;
        PackedStore { sessions, records }
    }
}
