//! What is written of a program that was run.
ghost use Rattle.std.specs.Prelude.{List};
ghost use Rattle.jc_paths.specs.Paths.{FileText};
ghost use Rattle.jc_headline.specs.CoverWork.{IsReportText, IsClashEnd};
ghost use Rattle.jc_command_cover.specs.CoverSeen.{cover_seen};
ghost use Rattle.jc_command_cover.specs.Deciding.{Decides};
ghost use Rattle.jc_command_cover.specs.Runs.{WritesResults};
ghost use Rattle.jc_command_work.specs.Handed.{OnOutside};
ghost use Rattle.jc_command_work.specs.Seen.{stop_seen};

use crate::options::CoverOptions;
use jc_command_classes::{Data, csv_of_files};
use jc_command_run::Ran;
use jc_command_work::{InputFiles, Outside, Stop, put_out, write_file};
use jc_exec::ExecStore;
use jc_outside::{Files, Sink};
use std::alloc::Global;
use std::marker::Sync;
use std::thread::Threads;

/// The CSV text of files, by the execution data. A record that clashes with a class stops
/// the command, and names the file to which the execution data was written.
fn csv_text<'a, R: Threads + Sync>(
    rt: &R,
    alloc: Global,
    options: &CoverOptions<'a>,
    store: &ExecStore,
    inputs: &InputFiles<'_>,
) -> Result<Vec<u8>, Stop<'a>>
    ensures { Decides (IsReportText options.entry.now.name.now store.now inputs.now.texts) (IsClashEnd options.entry.now.destfile.now store.now inputs.now.texts)
        (λ csv. csv.items) stop_seen result }
{
    let exec_data = Data {
        path: options.destfile,
        store: store.packed(alloc)?,
    };
    csv_of_files(rt, alloc, options.name, &exec_data, inputs)
}

/// Writes the execution data of a run, then the report on the accepted files as they were read, and then what the cases print.
pub fn write_results<'a, R: Threads + Sync, F: Files, O: Sink, E: Sink>(
    rt: &R,
    alloc: Global,
    outside: &mut Outside<'_, '_, '_, F, O, E>,
    options: &CoverOptions<'a>,
    inputs: &InputFiles<'_>,
    ran: Ran,
) -> Result<(), Stop<'a>>
    ensures { (named : List FileText) → OnOutside F.Files O.Sink E.Sink outside.old outside.new
        (WritesResults F.landed (cover_seen options.entry.now named) inputs.now.texts ran) result }
{
    let Ran { store, text } = ran;
    let exec_text = store.write(alloc)?;
    write_file(outside.files, options.destfile, &exec_text)?;
    let csv = csv_text(rt, alloc, options, &store, inputs)?;
    write_file(outside.files, options.csv, &csv)?;
    put_out(outside.out, &text)
}
