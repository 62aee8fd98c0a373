//! The files outside, as the tool sees them.
ghost use Rattle.std.specs.Prelude.{◌≡◌, ◌%◌, ◌<◌, ℕ, List, Option};
ghost use Rattle.jc_outside.specs.Outside.{FileMap, LastFailed, ReadGives, ReadCause, PartGives, PartCause, ListGives, ListCause, WriteLeaves, WriteCause, last_failed};

use std::alloc::{AllocError, Global};

/// Why a call of `Files` gave up.
#[derive(Clone, Copy, Debug, PartialEq, Eq)]
pub enum FileFault {
    /// The file couldn't be read or written.
    Failed,
    /// There is no file at the path.
    Missing,
    /// The file has more bytes than `MOST_READ`.
    TooLarge,
    /// Memory was refused.
    Memory,
}

impl From<AllocError> for FileFault {
    ghost use Rattle.std.specs.Prelude.{◌≡◌};
    ghost use Rattle.jc_outside.specs.declared.files.FileFault.TheVariants as faults;

    ghost from_gives = { λ _ e. e ≡ faults.Memory };

    fn from(_: AllocError) -> Self {
        FileFault::Memory
    }
}

/// The most bytes that one call of `read_part` appends.
pub const MOST_PART: usize = 65_536;

/// Files by path. Two paths that differ as texts name two files.
pub trait Files {
    /// What the paths hold, where that is told.
    ghost contents: { Self → Option FileMap };

    /// What a path holds after a write of these bytes.
    ghost landed: { List ℕ → List ℕ → List ℕ };

    /// How often reading has failed.
    ghost read_faults: { Self → ℕ };

    /// How often writing has failed.
    ghost write_faults: { Self → ℕ };

    /// The path of the last reading or listing that answered `Failed`, `Missing` or `TooLarge`, where that is told.
    ghost failed_path: { Self → LastFailed };

    /// Appends the bytes of the file at `path` to `into`, at most 67,108,864 of them.
    ///
    /// After an error `into` begins with what it held. `Failed` comes only where `read_faults`
    /// rose in this call. Where contents are told, `Missing` comes exactly where they lack the
    /// path, and `TooLarge` exactly where the file is longer; where they aren't, only where
    /// `read_faults` rose. `failed_path` is then this path, but for want of memory.
    fn read(&mut self, alloc: Global, path: &str, into: &mut Vec<u8>) -> Result<(), FileFault>
        ensures gives { ReadGives (contents self.old) path.now into.old.items into.new.items result }
        ensures cause { ReadCause (contents self.old) (read_faults self.old) (read_faults self.new) result }
        ensures failed_path { failed_path self.new ≡ last_failed path.now (failed_path self.old) result }
        ensures contents { contents self.new ≡ contents self.old }
        ensures write_faults { write_faults self.new ≡ write_faults self.old };

    /// Appends the bytes of the file at `path` to `into` that stand at the 65,536 places from
    /// `from` on, as many as there are. The answer is false exactly where the file is longer.
    ///
    /// The errors are those of `read`, and have its causes. After an error `into` begins with what
    /// it held. Behind the last part of a file of 67,108,864 bytes the answer is never false.
    fn read_part(
        &mut self,
        alloc: Global,
        path: &str,
        from: u64,
        into: &mut Vec<u8>,
    ) -> Result<bool, FileFault>
        requires aligned { from % 65536 ≡ 0 }
        requires within { from < 67108864 }
        ensures gives { PartGives (contents self.old) path.now from into.old.items into.new.items result }
        ensures cause { PartCause (contents self.old) (read_faults self.old) (read_faults self.new) result }
        ensures failed_path { failed_path self.new ≡ last_failed path.now (failed_path self.old) result }
        ensures contents { contents self.new ≡ contents self.old }
        ensures write_faults { write_faults self.new ≡ write_faults self.old };

    /// The paths of the folder's own plain files whose names end with `.class`, in the order of
    /// their bytes. Each is the folder's path, a `/` unless that path ends with one, and the name.
    ///
    /// `Missing` and `TooLarge` never come, and `Failed` only where `read_faults` rose in this call.
    fn list(&mut self, alloc: Global, folder: &str) -> Result<Vec<String>, FileFault>
        ensures gives { ListGives (contents self.old) folder.now result }
        ensures cause { ListCause (read_faults self.old) (read_faults self.new) result }
        ensures failed_path { failed_path self.new ≡ last_failed folder.now (failed_path self.old) result }
        ensures contents { contents self.new ≡ contents self.old }
        ensures write_faults { write_faults self.new ≡ write_faults self.old };

    /// Makes the file at `path` hold `bytes` and nothing else.
    ///
    /// The only error is `Failed`, and it comes only where `write_faults` rose in this call. The
    /// path then holds a prefix of the bytes, or is lacking as before. Every other path stays.
    fn write(&mut self, path: &str, bytes: &[u8]) -> Result<(), FileFault>
        ensures leaves { WriteLeaves (landed path.now bytes.now) path.now (contents self.old) (contents self.new) result }
        ensures cause { WriteCause (write_faults self.old) (write_faults self.new) result }
        ensures read_faults { read_faults self.new ≡ read_faults self.old }
        ensures failed_path { failed_path self.new ≡ failed_path self.old };
}
