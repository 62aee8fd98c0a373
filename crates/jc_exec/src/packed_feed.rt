//! Execution data in pieces, into a packed store.
ghost use Rattle.std.specs.Prelude.{◌≡◌, ◌+◌, ◌<◌, ◌≤◌, ◌++◌, [], ℕ, List, length, IfOk, IfErr, IsErrAnd, IsOkAnd};
ghost use Rattle.jc_bytes.specs.Reader.{most_read};
ghost use Rattle.jc_exec.specs.Answers.{Refuses, SaysOnly};
ghost use Rattle.jc_exec.specs.Feeding.{Feeds, IsSaid, StandBehindBlocks, most_block, rest_of};
ghost use Rattle.jc_exec.specs.Format.{Block, Blocks};
ghost use Rattle.jc_exec.specs.Refusing.{Refused, blocks_of, FirstRefusal, IsTaken};
ghost use Rattle.jc_exec.specs.Store.{Store};
ghost use Rattle.jc_exec.specs.Union.{IsUnion, ReadsOn};

use crate::gathering::PackedAdded;
use crate::waiting::{State, begun, ended, fed, rest};
use crate::{ExecRefusal, PackedStore};
use jc_bytes::{Fail, Memory};
use std::alloc::Global;
use std::marker::Model;

/// A file of execution data that is read in pieces into a packed store.
///
/// It is seen as how many bytes were fed, and what is kept of them: the store with the whole blocks and the bytes
/// behind these, or why a block was refused.
#[derive(Drop)]
pub struct PackedFeed {
    fed: u32,
    state: State<PackedAdded>,
}

impl Model for PackedFeed {
    ghost use Rattle.std.specs.Prelude.{◌≤◌};
    ghost use Rattle.jc_bytes.specs.Reader.{most_read};
    ghost use Rattle.jc_exec.specs.Feeding.{Feed, feed_of, IsSound};

    ghost Value = { Feed };

    ghost view = { λ f. feed_of (λ a. record { sessions = a.sessions; records = a.records }) f.fed f.state };

    ghost invariant = { λ f. (f.fed ≤ most_read) × IsSound (λ a. record { sessions = a.sessions; records = a.records }) f.state f.fed };
}

impl PackedFeed {
    /// A feed of nothing into a store.
    pub fn begin(alloc: Global, store: PackedStore) -> PackedFeed
        ensures { Feeds result store [] }
    {
        let added = store.into_added();
        PackedFeed {
            fed: 0,
            state: begun(alloc, added),
        }
    }

    /// The feed with a piece more. Once a block is refused the pieces behind it are counted, and no more.
    ///
    /// # Errors
    ///
    /// `Memory`, where memory is refused.
    pub fn feed(self, alloc: Global, piece: &[u8]) -> Result<PackedFeed, Memory>
        requires { self.length + length piece.now ≤ most_read }
        ensures stands { IfOk result (λ later. (before : Store) (bytes : List ℕ) → Feeds self before bytes
            → Feeds later before (bytes ++ piece.now)) }
        ensures length { IfOk result (λ later. later.length ≡ self.length + length piece.now) }
    {
        let PackedFeed { fed: length, state } = self;
        let state = fed(alloc, length, state, piece)?;
        Ok(PackedFeed {
            fed: length + piece.len() as u32,
            state,
        })
    }

    /// How many bytes are kept of a block that isn't whole.
    pub fn rest(&self) -> u32
        ensures kept { result ≡ rest_of self.now.kept }
        ensures small { result < most_block }

        // Where the bytes may still become blocks that are all taken, they stand behind the last whole block.
        ensures behind { (before : Store) (bytes more : List ℕ) → Feeds self.now before bytes → IsTaken before (bytes ++ more)
            → StandBehindBlocks bytes result }
    {
        rest(&self.state)
    }

    /// How many bytes were fed.
    pub fn length(&self) -> u32
        ensures { result ≡ self.now.length }
    {
        self.fed
    }

    /// The store that reading all pieces as one file makes.
    ///
    /// # Errors
    ///
    /// The refusal of `ExecStore::read` of all pieces as one file.
    pub fn finish(self) -> Result<PackedStore, Fail<ExecRefusal>>
        // A union of some blocks becomes the union of those and the blocks that were fed.
        ensures union { (before : Store) (bytes : List ℕ) → Feeds self before bytes → IfOk result (ReadsOn bytes before) }
        ensures refused { (before : Store) (bytes : List ℕ) → Feeds self before bytes
            → IfErr result (λ e. Refuses e before bytes) }

        // Where the blocks have a union with the store, and where one is refused. It asks for no memory.
        ensures taken { (before : Store) (bytes : List ℕ) → Feeds self before bytes → (read : List Block) (s : Store)
            → Blocks bytes read → IsUnion (blocks_of before ++ read) s → IsOkAnd result (λ store. store ≡ s) }
        ensures refuses { (before : Store) (bytes : List ℕ) → Feeds self before bytes → (why : Refused)
            → FirstRefusal before bytes why → IsErrAnd result (SaysOnly why) }
        ensures said { IfErr result IsSaid }
    {
        let PackedFeed { fed: length, state } = self;
        let added = ended(length, state)?;
        Ok(PackedStore::of_added(added))
    }
}
