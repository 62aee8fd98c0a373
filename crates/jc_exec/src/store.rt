//! The union of execution data.
ghost use Rattle.std.specs.Prelude.{◌≡◌, ◌≤◌, ◌++◌, [], ◌∷◌, length, List, Contains, IfOk, IfErr, IfSome, IsSomeAnd};
ghost use Rattle.std.specs.Prelude.{All, IsErrAnd, OnOk, OnErr, MatchResult};
ghost use Rattle.std.specs.List.{AllByRecursion};
ghost use Rattle.jc_bytes.specs.Modified.{IsModified};
ghost use Rattle.jc_bytes.specs.Reader.{most_read};
ghost use Rattle.jc_exec.specs.declared.hits.ClassHits.{ClassHits};
ghost use Rattle.jc_exec.specs.declared.session.Session.{Session};
ghost use Rattle.jc_exec.specs.Adding.{store_of};
ghost use Rattle.jc_exec.specs.Answers.{Refuses, SaysOnly, IsConflict, conflict_of, RefusesRecord};
ghost use Rattle.jc_exec.specs.Format.{Block, class, Blocks};
ghost use Rattle.jc_exec.specs.Refusing.{Refused, blocks_of, FirstRefusal};
ghost use Rattle.jc_exec.specs.Store.{Store, IsWritable, IsWritableClass, Keyed};
ghost use Rattle.jc_exec.specs.Union.{IsUnion, ReadsOn};
ghost use Rattle.jc_exec.specs.Writing.{exec_text};

use crate::gathering::{Added, PackedAdded, read_blocks};
use crate::merge::put;
use crate::packed_sessions::PackedSessions;
use crate::records::Records;
use crate::write::exec_data;
use crate::{ClassHits, ExecRefusal, PackedStore, Session};
use jc_bytes::{Fail, Memory};
use std::alloc::{AllocError, Global};
use std::marker::Model;

/// The union of execution data.
///
/// It is seen as the sessions in the order in which they were read, and the records of classes, one
/// for each class id, in the order in which the ids were first seen.
#[derive(Drop)]
pub struct ExecStore {
    sessions: Vec<Session>,
    records: Records,
}

impl Model for ExecStore {
    ghost use Rattle.std.specs.List.{AllByRecursion};
    ghost use Rattle.jc_exec.specs.Store.{Store, classes_of, IsWritable, Keyed};

    ghost Value = { Store };

    ghost view = { λ a. record { sessions = a.sessions.items; classes = classes_of a.records } };

    ghost invariant = { λ a. AllByRecursion IsWritable a.sessions.items × Keyed a.records };
}

impl ExecStore {
    /// A store of nothing.
    ///
    /// # Errors
    ///
    /// `Memory`, where memory is refused.
    pub fn new(alloc: Global) -> Result<ExecStore, Memory>
        ensures empty { IfOk result (λ store. store ≡ record { sessions = []; classes = [] }) }
        ensures union { IfOk result (λ store. IsUnion [] store) }
    {
        Ok(ExecStore {
            sessions: Vec::new(alloc),
            records: Records::new(alloc),
        })
    }

    /// Adds a file of execution data: blocks of which the first is a header of version 1007, and each
    /// later one such a header, a session or a class. A file of no bytes adds nothing. The sessions
    /// are put behind the others, and the bits of records of one id are joined. After an error the
    /// store is as before.
    ///
    /// # Errors
    ///
    /// The first block that can't be taken decides. `BadExec`, with the offset of the block's first
    /// byte, where no block that may stand there is whole with its text in modified UTF-8 (JVM
    /// Specification 4.4.7) and at most 65,535 probes in a count of at most five bytes. `OtherVersion`,
    /// where a whole header has another version. `Conflict`, where the class id is there with another
    /// name or another number of probes. `Memory`, where memory is refused.
    pub fn read(&mut self, alloc: Global, bytes: &[u8]) -> Result<(), Fail<ExecRefusal>>
        requires { length bytes.now ≤ most_read }

        // A union of some blocks becomes the union of those and the blocks read.
        ensures union { OnOk result (ReadsOn bytes.now self.old self.new) }
        ensures refused { IfErr result (λ e. Refuses e self.old bytes.now) }

        // Where the blocks have a union with the store, and where one is refused.
        ensures taken { (read : List Block) (s : Store) → Blocks bytes.now read → IsUnion (blocks_of self.old ++ read) s
            → MatchResult result (λ _. self.new ≡ s) (λ e. e ≡ Fail.Memory) }
        ensures refuses { (why : Refused) → FirstRefusal self.old bytes.now why → IsErrAnd result (SaysOnly why) }
        ensures unchanged { OnErr result (self.new ≡ self.old) }
    {
        let mut added = read_blocks(alloc, &self.records, bytes)?;
        self.sessions.reserve(added.sessions.len())?;
        self.records.put_all(alloc, added.records)?;
        self.sessions.append(&mut added.sessions).unwrap();
        Ok(())
    }

    /// Adds a record, as a file of its block alone would. After an error the store is as before.
    ///
    /// # Errors
    ///
    /// `Conflict`, exactly where the class id is there with another name or another number of probes:
    /// those that are there first, then those of the record. `Memory`, where memory is refused.
    pub fn add(&mut self, alloc: Global, hits: &ClassHits) -> Result<(), Fail<ExecRefusal>>
        requires few { length hits.now.bits ≤ 65535 }
        requires short { length hits.now.name ≤ 65535 }
        requires text { IsModified hits.now.name }

        // A union of some blocks becomes the union of those and the record.
        ensures union { OnOk result ((blocks : List Block) → IsUnion blocks self.old
            → IsUnion (blocks ++ class hits.now ∷ []) self.new) }
        ensures refused { IfErr result (λ e. RefusesRecord e self.old.classes hits.now) }
        ensures refuses { (there : ClassHits) → IsConflict self.old.classes there hits.now
            → IsErrAnd result (SaysOnly (conflict_of there hits.now)) }
        ensures unchanged { OnErr result (self.new ≡ self.old) }
    {
        put(alloc, &mut self.records, hits)
    }

    /// The record of a class id, if there is one.
    pub fn get(&self, id: u64) -> Option<&ClassHits>
        ensures found { IfSome result (λ c. Contains self.now.classes c.now × (c.now.id ≡ id)) }

        // The record is the only one of its id.
        ensures only { (c : ClassHits) → Contains self.now.classes c → c.id ≡ id → IsSomeAnd result (λ d. d.now ≡ c) }

        // It has at most 65,535 probes and a name in modified UTF-8, so that it may be handed to `add`.
        ensures fits { IfSome result (λ c. IsWritableClass c.now) }
    {
        self.records.get(id)
    }

    /// The sessions, in the order in which they were read.
    pub fn sessions(&self) -> &[Session]
        ensures { result.now ≡ self.now.sessions }
    {
        &self.sessions
    }

    /// The records, in the order in which their ids were first seen.
    pub fn classes(&self) -> &[ClassHits]
        ensures classes { result.now ≡ self.now.classes }

        // Each has at most 65,535 probes and a name in modified UTF-8, so that it may be handed to `add`.
        ensures fits { All IsWritableClass result.now }
    {
        self.records.classes()
    }

    /// The store as execution data: one header, the sessions by the time of their dump, and then
    /// the records that have a hit, in the store's order. Each count is spelled as short as can be.
    ///
    /// # Errors
    ///
    /// `Memory`, where memory is refused.
    pub fn write(&self, alloc: Global) -> Result<Vec<u8>, Memory>
        ensures text { IfOk result (λ text. text.items ≡ exec_text self.now) }
    {
        exec_data(alloc, &self.sessions, self.records.classes())
    }

    /// The same union, packed.
    ///
    /// # Errors
    ///
    /// `Memory`, where memory is refused.
    pub fn packed(&self, alloc: Global) -> Result<PackedStore, Memory>
        ensures { IfOk result (λ packed. packed ≡ self.now) }
    {
        Ok(PackedStore::of_added(PackedAdded {
            sessions: PackedSessions::of(alloc, &self.sessions)?,
            records: self.records.packed(alloc)?,
        }))
    }

    /// The sessions and the records.
    pub(crate) fn into_added(self) -> Added
        ensures store { store_of result.sessions.items result.records ≡ self }
        ensures writable { AllByRecursion IsWritable result.sessions.items }
        ensures keyed { Keyed result.records }
    {
        let ExecStore { sessions, records } = self;
        Added { sessions, records }
    }

    /// The store of these sessions and records.
    pub(crate) fn of_added(added: Added) -> ExecStore
        requires writable { AllByRecursion IsWritable added.sessions.items }
        requires keyed { Keyed added.records }
        ensures { result ≡ store_of added.sessions.items added.records }
    {
        let Added { sessions, records } = added;
        ExecStore { sessions, records }
    }
}
