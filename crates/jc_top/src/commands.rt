//! The commands, each with all that it reads, writes and says.
ghost use Rattle.std.specs.Prelude.{◌≤◌, ◌<◌, ◌^◌, ℕ, List, length, map};
ghost use Rattle.jc_paths.specs.Looks.{file_view};
ghost use Rattle.jc_command_words.specs.Commands.{dumping, exec_info, class_info, cover_sample, refs, files_of};
ghost use Rattle.jc_command_words.specs.Seen.{instrument_called, mode_seen, run_called, merge_called, report_called, cover_called, command_seen};
ghost use Rattle.jc_command_work.specs.Ending.{Ends};
ghost use Rattle.jc_command_work.specs.Handed.{OnOutside};
ghost use Rattle.jc_bytes.specs.Reader.{most_read};
ghost use Rattle.jc_command_work.specs.Seen.{texts_of, words_of as paths_of};
ghost use Rattle.jc_command_dumped.specs.DumpedAnswers.{Taken};
ghost use Rattle.jc_command_classes.specs.ReportSteps.{exec_path, IsReadOf};
ghost use Rattle.jc_top.specs.Bounds.{IsBounded, IsBoundedMode};
ghost use Rattle.jc_top.specs.Work.{nothing_taken, reporting, run_on, work_of};

use crate::complete::{complete, complete_listing};
use crate::rules::{check, lines};
use jc_bytes::Bytes;
use jc_command_classes::{
    ExecInput, ReportOptions, prepare_class_info, prepare_instrument, prepare_report,
};
use jc_command_cover::CoverOptions;
use jc_command_dumped::{DumpOptions, dump_paths, prepare_dumped};
use jc_command_exec::{prepare_exec_info, prepare_merge, read_alone};
use jc_command_monitored::{MonitoredOptions, prepare_monitored};
use jc_command_refs::prepare_refs;
use jc_command_run::{RunOptions, prepare_run};
use jc_command_words::{
    Command, CoverWords, InstrumentWords, MergeWords, ReportWords, RunMode, RunWords,
};
use jc_command_work::{Outside, Resources, Status, list_files, read_one};
use jc_outside::{Files, Sink};
use jc_paths::{FileWord, all_in_folder};
use jc_workers::Gate;
use std::alloc::Global;
use std::marker::Sync;
use std::thread::Threads;

/// Writes each class file into the folder `dest`, with probes where it is instrumented.
fn instrument<R: Threads + Sync, F: Files, O: Sink, E: Sink>(
    rt: &R,
    alloc: Global,
    outside: &mut Outside<'_, '_, '_, F, O, E>,
    words: &InstrumentWords<'_>,
) -> Status
    ensures { OnOutside F.Files O.Sink E.Sink outside.old outside.new (Ends F.landed (work_of nothing_taken (instrument_called words.now))) result }
{
    let paths = match list_files(alloc, outside.files, &words.files) {
        Ok(paths) => paths,
        Err(stop) => return jc_command_work::report(alloc, outside.err, stop),
    };
    let targets = match all_in_folder(alloc, words.dest, &paths) {
        Ok(targets) => targets,
        Err(_) => return Status::Memory,
    };
    let prepared = prepare_instrument(rt, alloc, outside.files, &paths, &targets);
    complete(alloc, outside, prepared)
}

/// Runs a run plan's cases on class files, and writes dumps to files of a folder, the other hits and what the cases print.
fn run_with_dumps<R: Threads + Sync, F: Files, O: Sink, E: Sink, G: Gate + Sync>(
    resources: &Resources<'_, '_, R, G>,
    outside: &mut Outside<'_, '_, '_, F, O, E>,
    options: &RunOptions<'_>,
    dir: &str,
    every: u32,
    text: &Bytes,
    paths: &[String],
) -> Status
    requires few { length paths.now < 2 ^ 32 }
    requires plan { length text.now ≤ most_read }
    requires every { (1 ≤ every) × (every ≤ 256) }
    requires workers { (1 ≤ options.now.workers) × (options.now.workers ≤ 16) }
    ensures { (taken : Taken) × OnOutside F.Files O.Sink E.Sink outside.old outside.new
        (Ends F.landed (run_on taken options.now.plan.now options.now.destfile.now
        (dumping dir.now every options.now.workers) text.now (paths_of paths.now))) result }
{
    let alloc = resources.alloc;
    let dumps = match dump_paths(alloc, dir) {
        Ok(dumps) => dumps,
        Err(_) => return Status::Memory,
    };
    let options = DumpOptions {
        plan: options.plan,
        destfile: options.destfile,
        dumps: &dumps,
        every,
        workers: options.workers,
    };
    let prepared = prepare_dumped(resources, outside.files, &options, text, paths);
    complete(alloc, outside, prepared)
}

/// Runs a run plan's cases on class files, and writes the hits and what the cases print.
fn run_listed<R: Threads + Sync, F: Files, O: Sink, E: Sink, G: Gate + Sync>(
    resources: &Resources<'_, '_, R, G>,
    outside: &mut Outside<'_, '_, '_, F, O, E>,
    words: &RunWords<'_>,
    text: &Bytes,
    paths: &[String],
) -> Status
    requires few { length paths.now < 2 ^ 32 }
    requires plan { length text.now ≤ most_read }
    requires bounded { IsBoundedMode (mode_seen words.now.mode) }
    ensures { (taken : Taken) × OnOutside F.Files O.Sink E.Sink outside.old outside.new
        (Ends F.landed (run_on taken words.now.plan.now words.now.destfile.now (mode_seen words.now.mode) text.now
        (paths_of paths.now))) result }
{
    let Resources { alloc, gate, .. } = *resources;
    let plan = words.plan;
    let destfile = words.destfile;
    match words.mode {
        RunMode::Plain { workers } => {
            let options = RunOptions {
                plan,
                destfile,
                workers,
            };
            let prepared = prepare_run(resources, outside.files, &options, text, paths);
            complete(alloc, outside, prepared)
        }
        RunMode::Dumping {
            dir,
            every,
            workers,
        } => {
            let options = RunOptions {
                plan,
                destfile,
                workers,
            };
            run_with_dumps(resources, outside, &options, dir, every, text, paths)
        }
        RunMode::Monitored => {
            let options = MonitoredOptions { plan, destfile };
            let prepared = prepare_monitored(alloc, gate, outside.files, &options, text, paths);
            complete(alloc, outside, prepared)
        }
    }
}

/// Runs the run plan's cases on the class files, and writes the hits and what the cases print.
fn run<R: Threads + Sync, F: Files, O: Sink, E: Sink, G: Gate + Sync>(
    resources: &Resources<'_, '_, R, G>,
    outside: &mut Outside<'_, '_, '_, F, O, E>,
    words: &RunWords<'_>,
) -> Status
    requires { IsBoundedMode (mode_seen words.now.mode) }
    ensures { (taken : Taken) × OnOutside F.Files O.Sink E.Sink outside.old outside.new
        (Ends F.landed (work_of taken (run_called words.now))) result }
{
    let alloc = resources.alloc;
    let text = match read_one(alloc, outside.files, words.plan) {
        Ok(text) => text,
        Err(stop) => return jc_command_work::report(alloc, outside.err, stop),
    };
    let paths = match list_files(alloc, outside.files, &words.files) {
        Ok(paths) => paths,
        Err(stop) => return jc_command_work::report(alloc, outside.err, stop),
    };
    run_listed(resources, outside, words, &text, &paths)
}

/// Writes the union of the execution data in the inputs.
fn merge<F: Files, O: Sink, E: Sink>(
    alloc: Global,
    outside: &mut Outside<'_, '_, '_, F, O, E>,
    words: &MergeWords<'_>,
) -> Status
    requires { length words.now.inputs.items < 2 ^ 32 }
    ensures { OnOutside F.Files O.Sink E.Sink outside.old outside.new (Ends F.landed (work_of nothing_taken (merge_called words.now))) result }
{
    let prepared = prepare_merge(alloc, outside.files, words.destfile, &words.inputs);
    complete(alloc, outside, prepared)
}

/// Writes the CSV text of the class files, by the hits in execution data that was read, if there is any.
fn report_files<R: Threads + Sync, F: Files, O: Sink, E: Sink>(
    rt: &R,
    alloc: Global,
    outside: &mut Outside<'_, '_, '_, F, O, E>,
    words: &ReportWords<'_>,
    exec: Option<ExecInput<'_>>,
) -> Status
    ensures { (xs : List (List ℕ)) → IsReadOf exec.entry xs → OnOutside F.Files O.Sink E.Sink outside.old outside.new
        (Ends F.landed (reporting words.now.csv.now words.now.name.now (exec_path exec.entry) xs (map file_view words.now.files.items)))
        result }
{
    let paths = match list_files(alloc, outside.files, &words.files) {
        Ok(paths) => paths,
        Err(stop) => return jc_command_work::report(alloc, outside.err, stop),
    };
    let options = ReportOptions {
        csv: words.csv,
        name: words.name,
    };
    let prepared = prepare_report(rt, alloc, outside.files, &options, exec, &paths);
    complete(alloc, outside, prepared)
}

/// Writes the CSV text of the class files, by the hits in the execution data that is named, if it is.
fn report<R: Threads + Sync, F: Files, O: Sink, E: Sink>(
    rt: &R,
    alloc: Global,
    outside: &mut Outside<'_, '_, '_, F, O, E>,
    words: &ReportWords<'_>,
) -> Status
    ensures { OnOutside F.Files O.Sink E.Sink outside.old outside.new (Ends F.landed (work_of nothing_taken (report_called words.now))) result }
{
    let Some(path) = words.exec else {
        return report_files(rt, alloc, outside, words, None);
    };
    match read_alone(alloc, outside.files, path) {
        Ok(gathered) => {
            let input = Some(ExecInput { path, gathered });
            report_files(rt, alloc, outside, words, input)
        }
        Err(stop) => jc_command_work::report(alloc, outside.err, stop),
    }
}

/// Prints the sessions and the records of each file of execution data.
fn exec_info<F: Files, O: Sink, E: Sink>(
    alloc: Global,
    outside: &mut Outside<'_, '_, '_, F, O, E>,
    inputs: &[&str],
) -> Status
    requires { length inputs.now < 2 ^ 32 }
    ensures { OnOutside F.Files O.Sink E.Sink outside.old outside.new
        (Ends F.landed (work_of nothing_taken (exec_info (texts_of inputs.now)))) result }
{
    let prepared = prepare_exec_info(alloc, outside.files, inputs);
    complete_listing(alloc, outside, prepared)
}

/// Prints the id, the methods and the probes of each class.
fn class_info<R: Threads + Sync, F: Files, O: Sink, E: Sink>(
    rt: &R,
    alloc: Global,
    outside: &mut Outside<'_, '_, '_, F, O, E>,
    words: &[FileWord<'_>],
) -> Status
    ensures { OnOutside F.Files O.Sink E.Sink outside.old outside.new
        (Ends F.landed (work_of nothing_taken (class_info (map file_view words.now)))) result }
{
    let paths = match list_files(alloc, outside.files, words) {
        Ok(paths) => paths,
        Err(stop) => return jc_command_work::report(alloc, outside.err, stop),
    };
    let prepared = prepare_class_info(rt, alloc, outside.files, &paths);
    complete(alloc, outside, prepared)
}

/// Instruments the class files, runs the run plan's cases on them, on so many workers, and reports.
fn cover<R: Threads + Sync, F: Files, O: Sink, E: Sink, G: Gate + Sync>(
    resources: &Resources<'_, '_, R, G>,
    outside: &mut Outside<'_, '_, '_, F, O, E>,
    words: &CoverWords<'_>,
) -> Status
    requires { (1 ≤ words.now.workers) × (words.now.workers ≤ 16) }
    ensures { OnOutside F.Files O.Sink E.Sink outside.old outside.new (Ends F.landed (work_of nothing_taken (cover_called words.now))) result }
{
    let alloc = resources.alloc;
    let text = match read_one(alloc, outside.files, words.plan) {
        Ok(text) => text,
        Err(stop) => return jc_command_work::report(alloc, outside.err, stop),
    };
    let paths = match list_files(alloc, outside.files, &words.files) {
        Ok(paths) => paths,
        Err(stop) => return jc_command_work::report(alloc, outside.err, stop),
    };
    let targets = match all_in_folder(alloc, words.dest, &paths) {
        Ok(targets) => targets,
        Err(_) => return Status::Memory,
    };
    let options = CoverOptions {
        dest: words.dest,
        plan: words.plan,
        destfile: words.destfile,
        csv: words.csv,
        name: words.name,
        workers: words.workers,
    };
    match jc_command_cover::cover(resources, outside, &options, &text, &paths, &targets) {
        Ok(()) => Status::Done,
        Err(stop) => jc_command_work::report(alloc, outside.err, stop),
    }
}

/// Runs a generated class of so many methods, and writes its line.
fn cover_sample<R: Threads + Sync, F: Files, O: Sink, E: Sink, G: Gate + Sync>(
    resources: &Resources<'_, '_, R, G>,
    outside: &mut Outside<'_, '_, '_, F, O, E>,
    methods: u32,
) -> Status
    requires { (1 ≤ methods) × (methods ≤ 1000) }
    ensures { OnOutside F.Files O.Sink E.Sink outside.old outside.new (Ends F.landed (work_of nothing_taken (cover_sample methods))) result }
{
    match jc_command_sample::sample(resources, outside.out, methods) {
        Ok(()) => Status::Done,
        Err(stop) => jc_command_work::report(resources.alloc, outside.err, stop),
    }
}

/// Says whether each reference suits what takes it, or the first instruction at which one doesn't.
fn refs<F: Files, O: Sink, E: Sink>(
    alloc: Global,
    outside: &mut Outside<'_, '_, '_, F, O, E>,
    words: &[FileWord<'_>],
) -> Status
    ensures { OnOutside F.Files O.Sink E.Sink outside.old outside.new
        (Ends F.landed (work_of nothing_taken (refs (map file_view words.now)))) result }
{
    let paths = match list_files(alloc, outside.files, words) {
        Ok(paths) => paths,
        Err(stop) => return jc_command_work::report(alloc, outside.err, stop),
    };
    let prepared = prepare_refs(alloc, outside.files, &paths);
    complete(alloc, outside, prepared)
}

/// Does what the command asks for.
pub fn run_command<R: Threads + Sync, F: Files, O: Sink, E: Sink, G: Gate + Sync>(
    resources: &Resources<'_, '_, R, G>,
    outside: &mut Outside<'_, '_, '_, F, O, E>,
    command: &Command<'_>,
) -> Status
    requires few { length (files_of (command_seen command.now)) < 2 ^ 32 }
    requires bounded { IsBounded (command_seen command.now) }
    ensures { (taken : Taken) × OnOutside F.Files O.Sink E.Sink outside.old outside.new (Ends F.landed (work_of taken (command_seen command.now))) result }
{
    let Resources { rt, alloc, .. } = *resources;
    match command {
        Command::Instrument(words) => instrument(rt, alloc, outside, words),
        Command::Run(words) => run(resources, outside, words),
        Command::Merge(words) => merge(alloc, outside, words),
        Command::Report(words) => report(rt, alloc, outside, words),
        Command::ExecInfo { inputs } => exec_info(alloc, outside, inputs),
        Command::ClassInfo { files } => class_info(rt, alloc, outside, files),
        Command::Cover(words) => cover(resources, outside, words),
        Command::CoverSample { methods } => cover_sample(resources, outside, *methods),
        Command::Refs { files } => refs(alloc, outside, files),
        Command::Lines(words) => lines(rt, alloc, outside, words),
        Command::Check(words) => check(rt, alloc, outside, words),
    }
}
