//! The command `report`.
ghost use Rattle.std.specs.Prelude.{◌≡◌, ◌∷◌, ◌++◌, [], ℕ, List, Some, IfOk};
ghost use Rattle.jc_command_classes.specs.Report.{report_text, IsReport};
ghost use Rattle.jc_command_classes.specs.ReportSteps.{data_records, data_path, IsReadOf, ReportBy, CountsFiles, MakesWith};
ghost use Rattle.jc_command_work.specs.Seen.{words_of};
ghost use Rattle.jc_command_work.specs.Answered.{AnswersWith, Prepares, writes_seen};
ghost use Rattle.jc_command_work.specs.Handed.{BetweenFiles};

use crate::class_report::look_at_all;
use crate::exec_data::{Data, ExecInput, data_of};
use crate::options::ReportOptions;
use jc_bytes::Memory;
use jc_command_work::{InputFiles, Stop, Write, read_listed};
use jc_outside::Files;
use jc_report::{Counted, csv_text, rows};
use std::alloc::Global;
use std::marker::Sync;
use std::thread::Threads;

/// The CSV text of classes.
fn csv_of(alloc: Global, name: &str, classes: &[Counted]) -> Result<Vec<u8>, Memory>
    ensures { IfOk result (λ text. text.items ≡ report_text name.now classes.now) }
{
    let rows = rows(alloc, name.as_bytes(), classes)?;
    csv_text(alloc, &rows)
}

/// The lines, and behind them the write of the report.
fn with_file<'a>(
    lines: Vec<Write<'a>>,
    path: &'a str,
    bytes: Vec<u8>,
) -> Result<Vec<Write<'a>>, Memory>
    ensures { IfOk result (λ writes. writes.items ≡ lines.entry.items ++ Write.File path.entry bytes ∷ []) }
{
    let mut writes = lines;
    writes.push(Write::File { path, bytes })?;
    Ok(writes)
}

/// The writes of a report of class files.
fn reported<'a, R: Threads + Sync>(
    rt: &R,
    alloc: Global,
    options: &ReportOptions<'a>,
    exec_data: Option<&Data<'a>>,
    inputs: &InputFiles<'_>,
) -> Result<Vec<Write<'a>>, Stop<'a>>
    ensures { MakesWith writes_seen (IsReport options.entry.now.csv.now options.entry.now.name.now inputs.now.paths)
        (data_records exec_data.entry) (data_path exec_data.entry) inputs.now.texts result }
{
    let kept = look_at_all(rt, alloc, exec_data, inputs)?;
    let bytes = csv_of(alloc, options.name, &kept.made)?;
    Ok(with_file(kept.lines, options.csv, bytes)?)
}

/// The CSV text of class files, by execution data. A class file that is refused has no
/// row, and no line is made of it.
///
/// It stops where memory is refused, and where a record of the execution data clashes with a class: the stop then names the
/// file of the execution data, as the first input.
pub fn csv_of_files<'a, R: Threads + Sync>(
    rt: &R,
    alloc: Global,
    name: &str,
    exec_data: &Data<'a>,
    inputs: &InputFiles<'_>,
) -> Result<Vec<u8>, Stop<'a>>
    ensures { CountsFiles name.now exec_data.entry.now.store.classes (Some exec_data.entry.now.path.now) inputs.now.texts result }
{
    let kept = look_at_all(rt, alloc, Some(exec_data), inputs)?;
    Ok(csv_of(alloc, name, &kept.made)?)
}

/// The writes of a report, of what was read.
fn reported_of<'a, R: Threads + Sync>(
    rt: &R,
    alloc: Global,
    options: &ReportOptions<'a>,
    exec: Option<ExecInput<'a>>,
    inputs: &InputFiles<'_>,
) -> Result<Vec<Write<'a>>, Stop<'a>>
    ensures { (read : List (List ℕ)) → IsReadOf exec.entry read
        → AnswersWith (ReportBy options.entry.now exec.entry read inputs.now.paths inputs.now.texts) result }
{
    let exec_data = data_of(exec)?;
    reported(rt, alloc, options, exec_data.as_ref(), inputs)
}

/// The writes of `report --csv OUT [--name NAME] [--exec IN] FILE..`, where the execution data of IN has been read.
pub fn prepare_report<'a, R: Threads + Sync, F: Files>(
    rt: &R,
    alloc: Global,
    files: &mut F,
    options: &ReportOptions<'a>,
    exec: Option<ExecInput<'a>>,
    paths: &'a [String],
) -> Result<Vec<Write<'a>>, Stop<'a>>
    ensures { (read : List (List ℕ)) → IsReadOf exec.entry read → BetweenFiles F.Files files.old files.new (Prepares F.landed (words_of paths.entry.now)
        (ReportBy options.entry.now exec.entry read (words_of paths.entry.now))) result }
{
    let inputs = read_listed(alloc, files, paths)?;
    reported_of(rt, alloc, options, exec, &inputs)
}
