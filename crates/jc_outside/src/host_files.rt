//! The files of the machine, of which nothing is told.
ghost use Rattle.std.specs.Prelude.{◌≡◌, ◌≤◌, ◌<◌, ◌+◌, ◌%◌, None, Some, false, IfOk, OnOk, length, option_map};
ghost use Rattle.jc_outside.specs.Outside.{Begins, FaultCause, ReadGives, PartGives, fault_at};

use crate::failed_path::FailedPath;
use crate::host_folder::list_folder;
use crate::sink::next_count;
use crate::{FileFault, Files, MOST_PART, SinkFault};
use jc_bytes::MOST_READ;
use std::alloc::Global;
use std::io::{Read, Seek, SeekFrom, Write};
use std::path::Path;
use std::{fs, rt};

/// The files of the runtime. What they hold isn't told; this is the trusted edge.
///
/// A path that is missing counts as a failed read, and so does a folder with a class file whose
/// name is no text. `write` makes the folders on the path.
#[derive(Drop)]
pub struct HostFiles<'a, R> {
    rt: &'a R,
    read_faults: u64,
    write_faults: u64,
    failed: Option<FailedPath>,
}

impl<'a, R> HostFiles<'a, R> {
    /// Files over this runtime, with no fault yet.
    pub fn new(rt: &'a R) -> HostFiles<'a, R> {
        HostFiles {
            rt,
            read_faults: 0,
            write_faults: 0,
            failed: None,
        }
    }

    /// Counts a read of a path that failed, unless for want of memory, and answers its fault.
    fn count(&mut self, fault: FileFault, path: &str) -> FileFault
        ensures same { result ≡ fault }
        ensures read_faults { FaultCause None self.old.read_faults self.new.read_faults fault }
        ensures write_faults { self.new.write_faults ≡ self.old.write_faults }
        ensures failed { Some (option_map (λ f. f.path) self.new.failed) ≡ fault_at path.now (Some (option_map (λ f. f.path) self.old.failed)) fault }
    {
        match fault {
            FileFault::Memory => {}
            _ => {
                self.read_faults = next_count(self.read_faults);
                self.failed = Some(FailedPath::of(path.as_bytes()));
            }
        }
        fault
    }
}

/// Appends what the reader gives, piece by piece, at most so many bytes, and answers whether it gave
/// no more. Each turn takes at least a byte, or is the last.
pub fn read_on<F: Read>(file: &mut F, most: usize, into: &mut Vec<u8>) -> Result<bool, FileFault>
    ensures appended { Begins into.old.items into.new.items }
    ensures few { OnOk result (length into.new.items ≤ length into.old.items + most) }
    ensures whole { IfOk result (λ ended. ended ≡ false → length into.new.items ≡ length into.old.items + most) }
{
    let mut piece = [0; 16384];
    let mut room = most;
    'reading: for _ in 0..=most {
        let Ok(count) = file.read(&mut piece) else {
            return Err(FileFault::Failed);
        };
        if count == 0 {
            return Ok(true);
        }
        into.extend_from_slice(&piece[..count.min(room)])?;
        if count > room {
            return Ok(false);
        }
        room -= count;
    }
    Err(FileFault::Failed)
}

/// Appends the bytes of a file.
fn read_file<R: rt::Files>(rt: &R, path: &str, into: &mut Vec<u8>) -> Result<(), FileFault>
    ensures { ReadGives None path.now into.old.items into.new.items result }
{
    let Ok(mut file) = fs::open(rt, path) else {
        return Err(FileFault::Failed);
    };
    if read_on(&mut file, MOST_READ, into)? {
        Ok(())
    } else {
        Err(FileFault::TooLarge)
    }
}

/// Appends the bytes of a file at the 65,536 places from a place on, as many as there are, and
/// answers whether it ends there.
fn read_file_from<R: rt::Files>(
    rt: &R,
    path: &str,
    from: u64,
    into: &mut Vec<u8>,
) -> Result<bool, FileFault>
    requires aligned { from % 65536 ≡ 0 }
    requires within { from < 67108864 }
    ensures { PartGives None path.now from into.old.items into.new.items result }
{
    let Ok(mut file) = fs::open(rt, path) else {
        return Err(FileFault::Failed);
    };
    if file.seek(SeekFrom::Start(from)).is_err() {
        return Err(FileFault::Failed);
    }
    let ended = read_on(&mut file, MOST_PART, into)?;
    if !ended && from as usize + MOST_PART == MOST_READ {
        return Err(FileFault::TooLarge);
    }
    Ok(ended)
}

/// Writes all of the bytes. A write that takes nothing of them is a fault.
pub fn write_on<W: Write>(writer: &mut W, bytes: &[u8]) -> Result<(), SinkFault> {
    let mut rest = bytes;
    'writing: while !rest.is_empty() {
        let Ok(count) = writer.write(rest) else {
            return Err(SinkFault::Failed);
        };
        if count == 0 {
            return Err(SinkFault::Failed);
        }
        rest = &rest[count..];
    }
    Ok(())
}

fn write_file<R: rt::Files>(rt: &R, path: &str, bytes: &[u8]) -> Result<(), SinkFault> {
    if let Some(folder) = Path::new(path).parent() {
        // A folder that can't be made shows when the file is created.
        let _ = fs::create_dir_all(rt, folder);
    }
    let Ok(mut file) = fs::create(rt, path) else {
        return Err(SinkFault::Failed);
    };
    write_on(&mut file, bytes)
}

impl<'a, R: rt::Files> Files for HostFiles<'a, R> {
    ghost contents = { λ files. None };

    ghost landed = { λ path bytes. bytes };

    ghost read_faults = { λ files. files.read_faults };

    ghost write_faults = { λ files. files.write_faults };

    ghost failed_path = { λ files. Some (option_map (λ f. f.path) files.failed) };

    fn read(&mut self, _alloc: Global, path: &str, into: &mut Vec<u8>) -> Result<(), FileFault> {
        match read_file(self.rt, path, into) {
            Ok(()) => Ok(()),
            Err(fault) => Err(self.count(fault, path)),
        }
    }

    fn read_part(
        &mut self,
        _alloc: Global,
        path: &str,
        from: u64,
        into: &mut Vec<u8>,
    ) -> Result<bool, FileFault> {
        match read_file_from(self.rt, path, from, into) {
            Ok(ended) => Ok(ended),
            Err(fault) => Err(self.count(fault, path)),
        }
    }

    fn list(&mut self, alloc: Global, folder: &str) -> Result<Vec<String>, FileFault> {
        match list_folder(self.rt, alloc, folder) {
            Ok(paths) => Ok(paths),
            Err(FileFault::Memory) => Err(FileFault::Memory),
            Err(_) => Err(self.count(FileFault::Failed, folder)),
        }
    }

    fn write(&mut self, path: &str, bytes: &[u8]) -> Result<(), FileFault> {
        if write_file(self.rt, path, bytes).is_err() {
            self.write_faults = next_count(self.write_faults);
            return Err(FileFault::Failed);
        }
        Ok(())
    }
}
