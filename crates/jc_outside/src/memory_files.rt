//! Files in memory, whose calls fail where it is planned.
ghost use Rattle.std.specs.Prelude.{◌≡◌, ◌≤◌, ◌<◌, ◌%◌, [], ◌++◌, map, filter, take, drop, string_bytes, None, Some, true, false, IfOk, OnOk, OnErr, Result, Err, option_map, slice_index};
ghost use Rattle.std.specs.Cmp.Lexicographic.{slice_cmp};
ghost use Rattle.std.specs.FinMap.{get, insert, empty, keys};
ghost use Rattle.std.specs.List.Sorted.{IsStrictlySortedBy};
ghost use Rattle.std.specs.Ordering.{nat_cmp};
ghost use Rattle.jc_outside.specs.Folder.{front_of, is_class_file};
ghost use Rattle.jc_outside.specs.Outside.{ReadGives, ReadCause, PartGives, PartCause, ListGives, ListCause, WriteLeaves, WriteCause, last_failed};
ghost use Rattle.jc_outside.specs.InMemory.{held, emptied, WritesPlanned};
ghost use Rattle.jc_outside.specs.Planned.{is_planned, next_call, count_after};

use crate::failed_path::FailedPath;
use crate::folder::{is_class_file, make_front, put_last};
use crate::planned::{PlannedFaults, front};
use crate::sink::next_count;
use crate::{FileFault, Files, MOST_PART};
use jc_bytes::{MOST_READ, Memory};
use std::alloc::{AllocError, Global};
use std::collections::BTreeMap;
use std::marker::Model;

/// The bytes that a path holds.
fn bytes_at<'a>(files: &'a BTreeMap<String, Vec<u8>>, path: &str) -> Option<&'a [u8]>
    ensures { option_map (λ bytes. bytes.now) result ≡ get (held files.now) path.now }
{
    match files.get(path) {
        Some(bytes) => Some(bytes.as_slice()),
        None => None,
    }
}

/// Makes a path hold these bytes.
fn place(
    alloc: Global,
    files: &mut BTreeMap<String, Vec<u8>>,
    path: &str,
    bytes: &[u8],
) -> Result<(), AllocError>
    ensures ok { OnOk result (held files.new ≡ insert (held files.old) path.now bytes.now) }
    ensures err { OnErr result (held files.new ≡ held files.old) }
{
    let path = String::from_str(alloc, path)?;
    let bytes = Vec::from_slice(alloc, bytes)?;
    files.insert(path, bytes)?;
    Ok(())
}

/// Leaves no byte at a path that holds some.
fn empty_out(files: &mut BTreeMap<String, Vec<u8>>, path: &str)
    ensures { held files.new ≡ emptied (held files.old) path.now }
{
    if let Some(bytes) = files.get_mut(path) {
        bytes.clear();
    }
}

/// Makes a path hold these bytes, or none of them where memory is refused.
fn overwrite(
    alloc: Global,
    files: &mut BTreeMap<String, Vec<u8>>,
    path: &str,
    bytes: &[u8],
) -> Result<(), AllocError>
    ensures ok { OnOk result (held files.new ≡ insert (held files.old) path.now bytes.now) }
    ensures err { OnErr result (held files.new ≡ emptied (held files.old) path.now) }
{
    match place(alloc, files, path, bytes) {
        Ok(()) => Ok(()),
        Err(refused) => {
            empty_out(files, path);
            Err(refused)
        }
    }
}

/// The bytes of a file at the 65,536 places from a place on, as many as there are.
fn part_of(file: &[u8], from: u64) -> &[u8]
    ensures { result.now ≡ take 65536 (drop from file.now) }
{
    let rest = &file[(from as usize).min(file.len())..];
    &rest[..MOST_PART.min(rest.len())]
}

/// The paths of class files, with this before the name, in their order.
fn class_files(
    alloc: Global,
    files: &BTreeMap<String, Vec<u8>>,
    front: &str,
) -> Result<Vec<String>, AllocError>
    ensures told { IfOk result (λ paths. map string_bytes paths.items ≡ filter (is_class_file front.now) (keys (held files.now))) }
    ensures sorted { IfOk result (λ paths. IsStrictlySortedBy (slice_cmp nat_cmp) (map string_bytes paths.items)) }
{
    let mut paths = Vec::new(alloc);
    'listing: for path in files.keys() {
        if is_class_file(front.as_bytes(), path.as_bytes()) {
            put_last(&mut paths, String::from_str(alloc, path.as_str())?)?;
        }
    }
    Ok(paths)
}

/// Files in memory. All that they hold is told, and the calls that are to fail are known.
#[derive(Drop)]
pub struct MemoryFiles {
    alloc: Global,
    files: BTreeMap<String, Vec<u8>>,
    calls: PlannedFaults,
    read_faults: u64,
    write_faults: u64,
    failed: Option<FailedPath>,
}

impl Model for MemoryFiles {
    ghost use Rattle.std.specs.Prelude.{option_map};
    ghost use Rattle.jc_outside.specs.InMemory.{MemoryState, held, state_code};

    ghost Value = { MemoryState };

    ghost coded = { state_code };

    ghost view = { λ m. record {
      files = held m.files;
      calls = record { failing = m.calls.failing; made = m.calls.made };
      read_faults = m.read_faults;
      write_faults = m.write_faults;
      failed_path = option_map (λ f. f.path) m.failed;
    } };
}

impl MemoryFiles {
    /// No files. The calls of `Files` with these numbers, counted from 1 over all calls on the
    /// value, are to fail.
    ///
    /// # Errors
    ///
    /// `Memory` where memory was refused.
    pub fn new(alloc: Global, failing: &[u32]) -> Result<MemoryFiles, Memory>
        ensures { IfOk result (λ m. m ≡ record {
          files = empty;
          calls = record { failing = failing.now; made = 0 };
          read_faults = 0;
          write_faults = 0;
          failed_path = None;
        }) }
    {
        Ok(MemoryFiles {
            alloc,
            files: BTreeMap::new(alloc),
            calls: PlannedFaults::new(alloc, failing)?,
            read_faults: 0,
            write_faults: 0,
            failed: None,
        })
    }

    /// Places a file. This is no call of `Files`, and isn't counted.
    ///
    /// # Errors
    ///
    /// `Memory` where memory was refused. Then nothing has changed.
    pub fn with(&mut self, alloc: Global, path: &str, bytes: &[u8]) -> Result<(), Memory>
        ensures ok { OnOk result (self.new ≡ record self.old { files = insert self.old.files path.now bytes.now }) }
        ensures err { OnErr result (self.new ≡ self.old) }
    {
        place(alloc, &mut self.files, path, bytes)?;
        Ok(())
    }

    /// The bytes that a path holds, or None exactly where there is no file.
    pub fn get(&self, path: &str) -> Option<&[u8]>
        ensures { option_map (λ bytes. bytes.now) result ≡ get self.now.files path.now }
    {
        bytes_at(&self.files, path)
    }
}

impl Files for MemoryFiles {
    ghost contents = { λ m. Some m.files };

    ghost landed = { λ path bytes. bytes };

    ghost read_faults = { λ m. m.read_faults };

    ghost write_faults = { λ m. m.write_faults };

    ghost failed_path = { λ m. Some m.failed_path };

    fn read(&mut self, _alloc: Global, path: &str, into: &mut Vec<u8>) -> Result<(), FileFault>
        ensures gives { ReadGives (Some self.old.files) path.now into.old.items into.new.items result }
        ensures cause { ReadCause (Some self.old.files) self.old.read_faults self.new.read_faults result }
        ensures failed_path { Some self.new.failed_path ≡ last_failed path.now (Some self.old.failed_path) result }
        ensures contents { Some self.new.files ≡ Some self.old.files }
        ensures write_faults { self.new.write_faults ≡ self.old.write_faults }
        // Which calls fail.
        ensures planned { is_planned self.old.calls ≡ true → result ≡ Err FileFault.Failed }
        ensures unplanned { result ≡ Err FileFault.Failed → is_planned self.old.calls ≡ true }
        ensures calls { self.new.calls ≡ next_call self.old.calls }
    {
        if self.calls.next_fails() {
            self.read_faults = next_count(self.read_faults);
            self.failed = Some(FailedPath::of(path.as_bytes()));
            return Err(FileFault::Failed);
        }
        let Some(bytes) = bytes_at(&self.files, path) else {
            self.failed = Some(FailedPath::of(path.as_bytes()));
            return Err(FileFault::Missing);
        };
        if bytes.len() > MOST_READ {
            self.failed = Some(FailedPath::of(path.as_bytes()));
            return Err(FileFault::TooLarge);
        }
        into.extend_from_slice(bytes)?;
        Ok(())
    }

    fn read_part(
        &mut self,
        _alloc: Global,
        path: &str,
        from: u64,
        into: &mut Vec<u8>,
    ) -> Result<bool, FileFault>
        requires aligned { from % 65536 ≡ 0 }
        requires within { from < 67108864 }
        ensures gives { PartGives (Some self.old.files) path.now from into.old.items into.new.items result }
        ensures cause { PartCause (Some self.old.files) self.old.read_faults self.new.read_faults result }
        ensures failed_path { Some self.new.failed_path ≡ last_failed path.now (Some self.old.failed_path) result }
        ensures contents { Some self.new.files ≡ Some self.old.files }
        ensures write_faults { self.new.write_faults ≡ self.old.write_faults }
        // Which calls fail.
        ensures planned { is_planned self.old.calls ≡ true → result ≡ Err FileFault.Failed }
        ensures unplanned { result ≡ Err FileFault.Failed → is_planned self.old.calls ≡ true }
        ensures calls { self.new.calls ≡ next_call self.old.calls }
    {
        if self.calls.next_fails() {
            self.read_faults = next_count(self.read_faults);
            self.failed = Some(FailedPath::of(path.as_bytes()));
            return Err(FileFault::Failed);
        }
        let Some(bytes) = bytes_at(&self.files, path) else {
            self.failed = Some(FailedPath::of(path.as_bytes()));
            return Err(FileFault::Missing);
        };
        let len = bytes.len() as u64;
        if len > MOST_READ as u64 {
            self.failed = Some(FailedPath::of(path.as_bytes()));
            return Err(FileFault::TooLarge);
        }
        into.extend_from_slice(part_of(bytes, from))?;
        Ok(len <= from + MOST_PART as u64)
    }

    fn list(&mut self, alloc: Global, folder: &str) -> Result<Vec<String>, FileFault>
        ensures gives { ListGives (Some self.old.files) folder.now result }
        ensures cause { ListCause self.old.read_faults self.new.read_faults result }
        ensures failed_path { Some self.new.failed_path ≡ last_failed folder.now (Some self.old.failed_path) result }
        ensures contents { Some self.new.files ≡ Some self.old.files }
        ensures write_faults { self.new.write_faults ≡ self.old.write_faults }
        // Which calls fail.
        ensures planned { is_planned self.old.calls ≡ true → result ≡ Err FileFault.Failed }
        ensures unplanned { result ≡ Err FileFault.Failed → is_planned self.old.calls ≡ true }
        ensures calls { self.new.calls ≡ next_call self.old.calls }
    {
        if self.calls.next_fails() {
            self.read_faults = next_count(self.read_faults);
            self.failed = Some(FailedPath::of(folder.as_bytes()));
            return Err(FileFault::Failed);
        }
        let front = make_front(alloc, folder)?;
        Ok(class_files(alloc, &self.files, front.as_str())?)
    }

    fn write(&mut self, path: &str, bytes: &[u8]) -> Result<(), FileFault>
        ensures leaves { WriteLeaves bytes.now path.now (Some self.old.files) (Some self.new.files) result }
        ensures cause { WriteCause self.old.write_faults self.new.write_faults result }
        ensures read_faults { self.new.read_faults ≡ self.old.read_faults }
        ensures failed_path { Some self.new.failed_path ≡ Some self.old.failed_path }
        // Which calls fail, and what they leave. Any other fails for want of memory alone.
        ensures planned { is_planned self.old.calls ≡ true → result ≡ Err FileFault.Failed }
        ensures half { WritesPlanned (is_planned self.old.calls) path.now bytes.now self.old.files self.new.files result }
        ensures calls { self.new.calls ≡ next_call self.old.calls }
    {
        let fails = self.calls.next_fails();
        let part = front(bytes, fails);
        let written = overwrite(self.alloc, &mut self.files, path, part);
        if fails || written.is_err() {
            self.write_faults = next_count(self.write_faults);
            return Err(FileFault::Failed);
        }
        Ok(())
    }
}
