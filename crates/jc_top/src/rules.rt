//! The commands `lines` and `check`, each with all that it reads, writes and says.
ghost use Rattle.std.specs.Prelude.{◌≡◌, ℕ, List, map};
ghost use Rattle.jc_paths.specs.Looks.{file_view};
ghost use Rattle.jc_command_words.specs.Seen.{lines_called, check_called};
ghost use Rattle.jc_command_work.specs.Closing.{end_of};
ghost use Rattle.jc_command_work.specs.Ending.{Ends};
ghost use Rattle.jc_command_work.specs.Handed.{OnOutside};
ghost use Rattle.jc_command_work.specs.Part.{status_of};
ghost use Rattle.jc_command_classes.specs.ReportSteps.{exec_path, IsReadOf};
ghost use Rattle.jc_top.specs.Completes.{CompletesCheck};
ghost use Rattle.jc_top.specs.Work.{checking, lining, nothing_taken, work_of};

use crate::complete::complete;
use jc_command_classes::ExecInput;
use jc_command_exec::read_alone;
use jc_command_rules::{Checked, prepare_check, prepare_lines};
use jc_command_words::{CheckWords, LinesWords};
use jc_command_work::{Outside, Status, Stop, list_files, write_all};
use jc_outside::{Files, Sink};
use std::alloc::Global;
use std::marker::Sync;
use std::thread::Threads;

/// Prints the lines of the classes with their statuses, by the hits in execution data that was read, if there is any.
fn lines_of_files<R: Threads + Sync, F: Files, O: Sink, E: Sink>(
    rt: &R,
    alloc: Global,
    outside: &mut Outside<'_, '_, '_, F, O, E>,
    words: &LinesWords<'_>,
    exec: Option<ExecInput<'_>>,
) -> Status
    ensures { (xs : List (List ℕ)) → IsReadOf exec.entry xs → OnOutside F.Files O.Sink E.Sink outside.old outside.new
        (Ends F.landed (lining (exec_path exec.entry) xs (map file_view words.now.files.items))) result }
{
    let paths = match list_files(alloc, outside.files, &words.files) {
        Ok(paths) => paths,
        Err(stop) => return jc_command_work::report(alloc, outside.err, stop),
    };
    let prepared = prepare_lines(rt, alloc, outside.files, exec, &paths);
    complete(alloc, outside, prepared)
}

/// Prints the lines of the classes with their statuses, by the hits in the execution data that is named, if it is.
pub fn lines<R: Threads + Sync, F: Files, O: Sink, E: Sink>(
    rt: &R,
    alloc: Global,
    outside: &mut Outside<'_, '_, '_, F, O, E>,
    words: &LinesWords<'_>,
) -> Status
    ensures { OnOutside F.Files O.Sink E.Sink outside.old outside.new (Ends F.landed (work_of nothing_taken (lines_called words.now))) result }
{
    let Some(path) = words.exec else {
        return lines_of_files(rt, alloc, outside, words, None);
    };
    match read_alone(alloc, outside.files, path) {
        Ok(gathered) => {
            let input = Some(ExecInput { path, gathered });
            lines_of_files(rt, alloc, outside, words, input)
        }
        Err(stop) => jc_command_work::report(alloc, outside.err, stop),
    }
}

/// The status of a run that has written all, by whether its rules hold.
fn status_by(holds: bool) -> Status
    ensures { result ≡ status_of (end_of holds) }
{
    if holds { Status::Done } else { Status::Broken }
}

/// Makes the writes that were prepared, or reports what had stopped the command. Answers with its status, by whether the rules
/// hold where all was written.
fn complete_check<'a, F: Files, O: Sink, E: Sink>(
    alloc: Global,
    outside: &mut Outside<'_, '_, '_, F, O, E>,
    prepared: Result<Checked<'a>, Stop<'a>>,
) -> Status
    ensures { OnOutside F.Files O.Sink E.Sink outside.old outside.new (CompletesCheck F.landed prepared.entry) result }
{
    let checked = match prepared {
        Ok(checked) => checked,
        Err(stop) => return jc_command_work::report(alloc, outside.err, stop),
    };
    match write_all(outside, &checked.writes) {
        Ok(()) => status_by(checked.holds),
        Err(stop) => jc_command_work::report(alloc, outside.err, stop),
    }
}

/// Judges the rules over the totals of the classes, by the hits in execution data that was read, if there is any.
fn check_files<R: Threads + Sync, F: Files, O: Sink, E: Sink>(
    rt: &R,
    alloc: Global,
    outside: &mut Outside<'_, '_, '_, F, O, E>,
    words: &CheckWords<'_>,
    exec: Option<ExecInput<'_>>,
) -> Status
    ensures { (xs : List (List ℕ)) → IsReadOf exec.entry xs → OnOutside F.Files O.Sink E.Sink outside.old outside.new
        (Ends F.landed (checking words.now.rules.items (exec_path exec.entry) xs (map file_view words.now.files.items))) result }
{
    let paths = match list_files(alloc, outside.files, &words.files) {
        Ok(paths) => paths,
        Err(stop) => return jc_command_work::report(alloc, outside.err, stop),
    };
    let prepared = prepare_check(rt, alloc, outside.files, &words.rules, exec, &paths);
    complete_check(alloc, outside, prepared)
}

/// Judges the rules over the totals of the classes, by the hits in the execution data that is named, if it is.
pub fn check<R: Threads + Sync, F: Files, O: Sink, E: Sink>(
    rt: &R,
    alloc: Global,
    outside: &mut Outside<'_, '_, '_, F, O, E>,
    words: &CheckWords<'_>,
) -> Status
    ensures { OnOutside F.Files O.Sink E.Sink outside.old outside.new (Ends F.landed (work_of nothing_taken (check_called words.now))) result }
{
    let Some(path) = words.exec else {
        return check_files(rt, alloc, outside, words, None);
    };
    match read_alone(alloc, outside.files, path) {
        Ok(gathered) => {
            let input = Some(ExecInput { path, gathered });
            check_files(rt, alloc, outside, words, input)
        }
        Err(stop) => jc_command_work::report(alloc, outside.err, stop),
    }
}
