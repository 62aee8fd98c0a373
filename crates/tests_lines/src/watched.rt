//! Files in memory whose writes are watched, and may leave something else than what was written.

use jc_outside::{FileFault, Files, MemoryFiles};
use std::alloc::Global;

/// What writes leave, and who hears of them.
pub trait Writes {
    ghost use Rattle.std.specs.Prelude.{◌≡◌, List, ℕ};

    /// What a path holds after a write of these bytes.
    ghost landed: { List ℕ → List ℕ → List ℕ };

    /// What a path is to hold after a write of these bytes.
    fn landed<'a>(&self, path: &str, bytes: &'a [u8]) -> &'a [u8]
        ensures { result.now ≡ landed path.now bytes.now };

    /// Hears of a write to a path, and whether it was done.
    fn hear(&mut self, path: &str, is_done: bool);
}

/// Writes that leave nothing of what was written, and of which no one hears.
#[derive(Clone, Copy)]
pub struct Forgetful;

impl Writes for Forgetful {
    ghost use Rattle.std.specs.Prelude.{[]};

    ghost landed = { λ path bytes. [] };

    fn landed<'a>(&self, _path: &str, _bytes: &'a [u8]) -> &'a [u8] {
        &[]
    }

    fn hear(&mut self, _path: &str, _is_done: bool) {}
}

/// Files in memory whose writes are watched.
#[derive(Drop)]
pub struct WatchedFiles<W> {
    /// The files.
    pub inner: MemoryFiles,
    /// What writes leave, and who hears of them.
    pub writes: W,
}

impl<W: Writes> Files for WatchedFiles<W> {
    ghost use Rattle.std.specs.Prelude.{Some};

    ghost contents = { λ f. Some f.inner.files };

    ghost landed = { λ path bytes. W.landed path bytes };

    ghost read_faults = { λ f. f.inner.read_faults };

    ghost write_faults = { λ f. f.inner.write_faults };

    ghost failed_path = { λ f. Some f.inner.failed_path };

    fn read(&mut self, alloc: Global, path: &str, into: &mut Vec<u8>) -> Result<(), FileFault> {
        self.inner.read(alloc, path, into)
    }

    fn read_part(
        &mut self,
        alloc: Global,
        path: &str,
        from: u64,
        into: &mut Vec<u8>,
    ) -> Result<bool, FileFault> {
        self.inner.read_part(alloc, path, from, into)
    }

    fn list(&mut self, alloc: Global, folder: &str) -> Result<Vec<String>, FileFault> {
        self.inner.list(alloc, folder)
    }

    fn write(&mut self, path: &str, bytes: &[u8]) -> Result<(), FileFault> {
        let landed = self.writes.landed(path, bytes);
        let written = self.inner.write(path, landed);
        self.writes.hear(path, written.is_ok());
        written
    }
}
