//! The lines of files of execution data.
ghost use Rattle.std.specs.Prelude.{◌≡◌, ◌<◌, ◌++◌, [], length, map, slice_index_or, IfOk, IfSome, OnOk};
ghost use Rattle.jc_command_exec.specs.ExecInfo.{file_lines};
ghost use Rattle.jc_command_exec.specs.Listing.{listed_lines};
ghost use Rattle.jc_command_work.specs.Ending.{DoesOut};
ghost use Rattle.jc_command_work.specs.Part.{writing_all};
ghost use Rattle.jc_command_work.specs.Seen.{stop_seen};
ghost use Rattle.jc_command_work.specs.Step.{to_out};

use crate::info_lines::{file_line, record_line, session_line};
use crate::lines::Lines;
use jc_bytes::Memory;
use jc_command_work::{Stop, put_out};
use jc_exec::PackedStore;
use jc_outside::Sink;
use std::alloc::Global;
use std::marker::Model;

/// A file, and its execution data.
#[derive(Drop)]
pub struct ListedFile<'a> {
    pub path: &'a str,
    pub store: PackedStore,
}

/// How many lines a file has, if they can be counted.
fn line_count(file: &ListedFile<'_>) -> Option<usize>
    ensures { IfSome result (λ count. count ≡ length (listed_lines file.now)) }
{
    let records = file.store.class_count();
    file.store
        .session_count()
        .checked_add(records)?
        .checked_add(1)
}

/// The line of a file at a place: its own, then those of its sessions, then those of its records.
fn line_of(alloc: Global, file: &ListedFile<'_>, place: usize) -> Result<Vec<u8>, Memory>
    requires { place < length (listed_lines file.now) }
    ensures { IfOk result (λ line. line.items ≡ slice_index_or (listed_lines file.now) place []) }
{
    if place == 0 {
        return Ok(file_line(alloc, file.path)?);
    }
    let behind = place - 1;
    let sessions = file.store.session_count();
    if behind < sessions {
        let session = file.store.session(alloc, behind)?;
        return Ok(session_line(alloc, &session)?);
    }
    let class = file.store.class(alloc, behind - sessions)?;
    Ok(record_line(alloc, &class)?)
}

/// Puts the lines of a file last.
fn put_lines(alloc: Global, lines: &mut Lines, file: &ListedFile<'_>) -> Result<(), Memory>
    ensures { OnOk result (lines.new ≡ lines.old ++ listed_lines file.now) }
{
    let Some(count) = line_count(file) else {
        return Err(Memory);
    };
    'putting: for place in 0..count {
        let line = line_of(alloc, file, place)?;
        lines.push(&line)?;
    }
    Ok(())
}

/// The lines of files of execution data, in order.
///
/// Those of the last file are made of its execution data, each as it is asked for. Those of the files before stand as they
/// are printed.
#[derive(Drop)]
pub struct Listing<'a> {
    before: Lines,
    last: Option<ListedFile<'a>>,
}

impl<'a> Model for Listing<'a> {
    ghost use Rattle.std.specs.Prelude.{ℕ, List, ◌++◌};
    ghost use Rattle.jc_command_exec.specs.Listing.{last_lines};

    ghost Value = { List (List ℕ) };

    ghost view = { λ a. a.before ++ last_lines a.last };
}

impl<'a> Listing<'a> {
    /// No lines.
    pub fn new(alloc: Global) -> Listing<'a>
        ensures { result ≡ [] }
    {
        Listing {
            before: Lines::new(alloc),
            last: None,
        }
    }

    /// These lines, and those of a file behind them.
    pub fn ending(before: Lines, last: ListedFile<'a>) -> Listing<'a>
        ensures { result ≡ before ++ listed_lines last.entry }
    {
        Listing {
            before,
            last: Some(last),
        }
    }

    /// All lines as they are printed. The execution data of the last file is dropped.
    pub fn into_lines(self, alloc: Global) -> Result<Lines, Memory>
        ensures { IfOk result (λ lines. lines ≡ self.entry) }
    {
        let Listing { mut before, last } = self;
        if let Some(file) = last {
            put_lines(alloc, &mut before, &file)?;
        }
        Ok(before)
    }

    /// How many lines there are, if they can be counted.
    fn len(&self) -> Option<usize>
        ensures { IfSome result (λ count. count ≡ length self.now) }
    {
        match &self.last {
            None => Some(self.before.len()),
            Some(file) => self.before.len().checked_add(line_count(file)?),
        }
    }

    /// A copy of the line at a place.
    fn line(&self, alloc: Global, place: usize) -> Result<Vec<u8>, Memory>
        requires { place < length self.now }
        ensures { IfOk result (λ line. line.items ≡ slice_index_or self.now place []) }
    {
        let before = self.before.len();
        if place < before {
            return Ok(Vec::from_slice(alloc, self.before.at(place))?);
        }
        match &self.last {
            None => Ok(Vec::new(alloc)),
            Some(file) => line_of(alloc, file, place - before),
        }
    }
}

/// Puts the lines on `out` in order, each as one write, up to the first that fails.
pub fn put_listing<'s, O: Sink>(
    alloc: Global,
    out: &mut O,
    listing: &Listing<'_>,
) -> Result<(), Stop<'s>>
    ensures { DoesOut (writing_all (map to_out listing.now)) (λ _. tt) stop_seen (O.told out.old) (O.told out.new) (O.faults out.old) (O.faults out.new) result }
{
    let Some(count) = listing.len() else {
        return Err(Stop::Memory);
    };
    'putting: for place in 0..count {
        let line = listing.line(alloc, place)?;
        put_out(out, &line)?;
    }
    Ok(())
}
