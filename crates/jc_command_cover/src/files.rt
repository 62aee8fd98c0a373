//! Looking at class files, and writing what comes of them.
ghost use Rattle.std.specs.Prelude.{◌≡◌, ◌<◌, ◌^◌, ◌++◌, [], length, map, OnOk};
ghost use Rattle.jc_command_work.specs.Part.{writing_all};
ghost use Rattle.jc_command_work.specs.Ending.{Does};
ghost use Rattle.jc_command_work.specs.Handed.{OnOutside};
ghost use Rattle.jc_command_work.specs.Seen.{stop_seen};
ghost use Rattle.jc_command_classes.specs.Instrument.{file_writes, decision_seen};
ghost use Rattle.jc_headline.specs.CoverWork.{place_if};
ghost use Rattle.jc_command_cover.specs.Files.{InstrumentsTo, WritesDecided};

use jc_bytes::Memory;
use jc_command_classes::{Decided, decide_all, decided_line};
use jc_command_work::{Outside, Stop, TargetedFiles, put_err, put_out, write_file};
use jc_outside::{Files, Sink};
use std::alloc::Global;
use std::marker::Sync;
use std::thread::Threads;

/// Writes what comes of a class file, which stays as it was read where it is refused, and behind it its line.
fn write_decided<'a, F: Files, O: Sink, E: Sink>(
    alloc: Global,
    outside: &mut Outside<'_, '_, '_, F, O, E>,
    target: &'a str,
    path: &str,
    bytes: &[u8],
    decided: &Decided,
) -> Result<(), Stop<'a>>
    ensures { OnOutside F.Files O.Sink E.Sink outside.old outside.new
        (Does F.landed (writing_all (file_writes target.entry.now path.now bytes.now (decision_seen decided.now))) (λ _. tt) stop_seen)
        result }
{
    let line = decided_line(alloc, path, decided)?;
    match decided {
        Decided::Accepted(class) => {
            write_file(outside.files, target, &class.bytes)?;
            put_out(outside.out, &line)
        }
        Decided::Refused(_) => {
            write_file(outside.files, target, bytes)?;
            put_err(outside.err, &line)
        }
    }
}

/// Puts the place of a class file last, if it is accepted.
fn keep_place(places: &mut Vec<u32>, place: u32, decided: &Decided) -> Result<(), Memory>
    ensures { OnOk result (places.new.items ≡ places.old.items ++ place_if (decision_seen decided.now) place []) }
{
    match decided {
        Decided::Accepted(_) => Ok(places.push(place)?),
        Decided::Refused(_) => Ok(()),
    }
}

/// Writes what comes of class files, and behind each its line, in order. Answers with the places of the accepted ones.
fn write_all_decided<'a, F: Files, O: Sink, E: Sink>(
    alloc: Global,
    outside: &mut Outside<'_, '_, '_, F, O, E>,
    targeted: &TargetedFiles<'a>,
    all: Vec<Decided>,
) -> Result<Vec<u32>, Stop<'a>>
    requires decided { length all.items ≡ length targeted.now.inputs.texts }
    requires few { length targeted.now.inputs.texts < 2 ^ 32 }
    ensures { OnOutside F.Files O.Sink E.Sink outside.old outside.new
        (WritesDecided F.landed targeted.entry.now.targets targeted.entry.now.inputs.paths targeted.entry.now.inputs.texts (map decision_seen all.items))
        result }
{
    let mut places = Vec::new(alloc);
    'writing: for (index, decided) in all.into_iter().enumerate() {
        write_decided(
            alloc,
            outside,
            targeted.target(index),
            targeted.path(index),
            targeted.text(index),
            &decided,
        )?;
        keep_place(&mut places, index as u32, &decided)?;
    }
    Ok(places)
}

/// Looks at class files, and then writes each to its path in a folder, and behind it its line: on `out`, or on `err` where the file is refused and stays as it was read. Answers with the places of the accepted
/// files among all.
///
/// It stops where memory is refused, and at the first write that fails: [`Stop::Write`] names the path, [`Stop::Output`] is a
/// line. A file that is refused stops nothing. No file is written before it is decided what comes of each.
pub fn instrument_files<'a, R: Threads + Sync, F: Files, O: Sink, E: Sink>(
    rt: &R,
    alloc: Global,
    outside: &mut Outside<'_, '_, '_, F, O, E>,
    targeted: &TargetedFiles<'a>,
) -> Result<Vec<u32>, Stop<'a>>
    requires few { length targeted.now.inputs.paths < 2 ^ 32 }
    ensures { OnOutside F.Files O.Sink E.Sink outside.old outside.new
        (InstrumentsTo F.landed targeted.entry.now.targets targeted.entry.now.inputs.paths targeted.entry.now.inputs.texts) result }
{
    let all = decide_all(rt, alloc, targeted.texts())?;
    write_all_decided(alloc, outside, targeted, all)
}
