//! The commands, as what their options are given and their files make them.
ghost use Rattle.std.specs.Prelude.{◌≡◌, IfOk, map};
ghost use Rattle.std.specs.Option.{option_map};
ghost use Rattle.jc_paths.specs.Paths.{file_text};
ghost use Rattle.jc_command_words.specs.Commands.{lines};
ghost use Rattle.jc_command_words.specs.Decide.{check_with, command_with, cover_with, instrument_with, merge_with, methods_in, mode_in, name_in, report_with, rules_given, run_with, workers_in};
ghost use Rattle.jc_paths.specs.Looks.{file_view};
ghost use Rattle.jc_command_words.specs.Seen.{command_seen, given_seen, mode_seen, text_seen};
ghost use Rattle.jc_command_words.specs.RulesOutcome.{rules_seen};

use crate::dumps::MOST_DUMPS;
use crate::name::CommandName;
use crate::number::number_up_to;
use crate::rules::rules_in;
use crate::words::{
    CheckWords, CoverWords, InstrumentWords, LinesWords, MergeWords, ReportWords, RunMode, RunWords,
};
use jc_bytes::Memory;
use jc_paths::{FileWord, file_word};
use jc_rules::Rule;
use std::alloc::Global;

/// A command that the words call, with its paths and texts borrowed from them.
#[derive(Drop)]
pub enum Command<'a> {
    /// Writes each class file into the folder `dest`, with probes where it is instrumented.
    Instrument(InstrumentWords<'a>),
    /// Runs the run plan's cases on the class files, and writes the hits.
    Run(RunWords<'a>),
    /// Writes the union of the execution data in the inputs.
    Merge(MergeWords<'a>),
    /// Writes the CSV text of the class files, by the hits in the execution data `exec`, if it is named.
    Report(ReportWords<'a>),
    /// Prints the sessions and the records of each file of execution data.
    ExecInfo { inputs: Vec<&'a str> },
    /// Prints the id, the methods and the probes of each class.
    ClassInfo { files: Vec<FileWord<'a>> },
    /// Instruments the class files, runs the run plan's cases on them and reports.
    Cover(CoverWords<'a>),
    /// Runs a generated class of so many methods.
    CoverSample { methods: u32 },
    /// Says whether each reference suits what takes it, or the first instruction at which one doesn't.
    Refs { files: Vec<FileWord<'a>> },
    /// Prints the lines of each class with their statuses, by the hits in the execution data `exec`, if it is named.
    Lines(LinesWords<'a>),
    /// Judges rules over the totals of the classes, by the hits in the execution data `exec`, if it is named.
    Check(CheckWords<'a>),
}

/// What the options of a command are given, and its files.
#[derive(Drop)]
pub struct Given<'a> {
    pub dest: Option<&'a str>,
    pub plan: Option<&'a str>,
    pub destfile: Option<&'a str>,
    pub csv: Option<&'a str>,
    pub workers: Option<&'a str>,
    pub dumps: Option<&'a str>,
    pub every: Option<&'a str>,
    pub monitors: bool,
    pub name: Option<&'a str>,
    pub exec: Option<&'a str>,
    pub min: Option<&'a str>,
    pub files: Vec<&'a str>,
}

/// The name of a report that is given none.
const DEFAULT_NAME: &str = "JaCoCo Coverage Report";

/// The most workers.
const MOST_WORKERS: u32 = 16;

/// One worker, or the number from 1 to 16 that is given.
fn workers_in(given: Option<&str>) -> Option<u32>
    ensures { result ≡ workers_in (text_seen given.entry) }
{
    match given {
        Some(text) => number_up_to(MOST_WORKERS, text),
        None => Some(1),
    }
}

/// The most methods of the generated class.
const MOST_METHODS: u32 = 1000;

/// The number from 1 to 1000 that is given.
pub fn methods_in(given: Option<&str>) -> Option<u32>
    ensures { result ≡ methods_in (text_seen given.entry) }
{
    match given {
        Some(text) => number_up_to(MOST_METHODS, text),
        None => None,
    }
}

/// The name that is given, or the default.
fn name_in<'a>(given: Option<&'a str>) -> &'a str
    ensures { result.now ≡ name_in (text_seen given.entry) }
{
    match given {
        Some(name) => name,
        None => DEFAULT_NAME,
    }
}

/// What the files stand for.
fn file_words<'a>(alloc: Global, files: &[&'a str]) -> Result<Vec<FileWord<'a>>, Memory>
    ensures { IfOk result (λ words. map file_view words.items ≡ map file_text (map (λ f. f.now) files.now)) }
{
    let mut words = Vec::with_capacity(alloc, files.len())?;
    'reading: for file in files {
        words.push(file_word(file))?;
    }
    Ok(words)
}

fn instrument_with<'a>(alloc: Global, given: &Given<'a>) -> Result<Option<Command<'a>>, Memory>
    ensures { IfOk result (λ o. option_map command_seen o
        ≡ instrument_with (given_seen given.now).dest (given_seen given.now).files) }
{
    let Some(dest) = given.dest else {
        return Ok(None);
    };
    let files = file_words(alloc, &given.files)?;
    Ok(Some(Command::Instrument(InstrumentWords { dest, files })))
}

/// How the cases are run. There is no answer where `--dumps` or `--every` is given without the other, a number isn't within its
/// bounds, or `--monitors` is given with dumps or more than one worker.
fn mode_in<'a>(given: &Given<'a>) -> Option<RunMode<'a>>
    ensures { option_map mode_seen result ≡ mode_in (given_seen given.now) }
{
    let workers = workers_in(given.workers)?;
    if given.monitors {
        return match (given.dumps, given.every) {
            (None, None) if workers == 1 => Some(RunMode::Monitored),
            _ => None,
        };
    }
    match (given.dumps, given.every) {
        (None, None) => Some(RunMode::Plain { workers }),
        (Some(dir), Some(text)) => {
            let every = number_up_to(MOST_DUMPS, text)?;
            Some(RunMode::Dumping {
                dir,
                every,
                workers,
            })
        }
        _ => None,
    }
}

fn run_with<'a>(alloc: Global, given: &Given<'a>) -> Result<Option<Command<'a>>, Memory>
    ensures { IfOk result (λ o. option_map command_seen o
        ≡ run_with (given_seen given.now).plan (given_seen given.now).destfile (mode_in (given_seen given.now)) (given_seen given.now).files) }
{
    let Some(plan) = given.plan else {
        return Ok(None);
    };
    let Some(destfile) = given.destfile else {
        return Ok(None);
    };
    let Some(mode) = mode_in(given) else {
        return Ok(None);
    };
    let files = file_words(alloc, &given.files)?;
    Ok(Some(Command::Run(RunWords {
        plan,
        destfile,
        mode,
        files,
    })))
}

fn merge_with<'a>(given: Given<'a>) -> Option<Command<'a>>
    ensures { option_map command_seen result ≡ merge_with (given_seen given.entry).destfile (given_seen given.entry).files }
{
    match given.destfile {
        Some(destfile) => Some(Command::Merge(MergeWords {
            destfile,
            inputs: given.files,
        })),
        None => None,
    }
}

fn report_with<'a>(alloc: Global, given: &Given<'a>) -> Result<Option<Command<'a>>, Memory>
    ensures { IfOk result (λ o. option_map command_seen o
        ≡ report_with (given_seen given.now).csv (name_in (given_seen given.now).name) (given_seen given.now).exec (given_seen given.now).files) }
{
    let Some(csv) = given.csv else {
        return Ok(None);
    };
    let name = name_in(given.name);
    let files = file_words(alloc, &given.files)?;
    Ok(Some(Command::Report(ReportWords {
        csv,
        name,
        exec: given.exec,
        files,
    })))
}

fn cover_with<'a>(alloc: Global, given: &Given<'a>) -> Result<Option<Command<'a>>, Memory>
    ensures { let values = given_seen given.now in IfOk result (λ o. option_map command_seen o
        ≡ cover_with values.dest values.plan values.destfile values.csv (workers_in values.workers) (name_in values.name) values.files) }
{
    let Some(dest) = given.dest else {
        return Ok(None);
    };
    let Some(plan) = given.plan else {
        return Ok(None);
    };
    let Some(destfile) = given.destfile else {
        return Ok(None);
    };
    let Some(csv) = given.csv else {
        return Ok(None);
    };
    let Some(workers) = workers_in(given.workers) else {
        return Ok(None);
    };
    let name = name_in(given.name);
    let files = file_words(alloc, &given.files)?;
    Ok(Some(Command::Cover(CoverWords {
        dest,
        plan,
        destfile,
        csv,
        workers,
        name,
        files,
    })))
}

fn lines_with<'a>(alloc: Global, given: &Given<'a>) -> Result<Command<'a>, Memory>
    ensures { IfOk result (λ command. command_seen command
        ≡ lines (given_seen given.now).exec (map file_text (given_seen given.now).files)) }
{
    let files = file_words(alloc, &given.files)?;
    Ok(Command::Lines(LinesWords {
        exec: given.exec,
        files,
    }))
}

/// The rules that are given, if some are.
fn rules_given(alloc: Global, given: Option<&str>) -> Result<Option<Vec<Rule>>, Memory>
    ensures { IfOk result (λ o. rules_seen o ≡ rules_given (text_seen given.entry)) }
{
    match given {
        Some(text) => rules_in(alloc, text),
        None => Ok(None),
    }
}

fn check_with<'a>(alloc: Global, given: &Given<'a>) -> Result<Option<Command<'a>>, Memory>
    ensures { IfOk result (λ o. option_map command_seen o
        ≡ check_with (rules_given (given_seen given.now).min) (given_seen given.now).exec (given_seen given.now).files) }
{
    let Some(rules) = rules_given(alloc, given.min)? else {
        return Ok(None);
    };
    let files = file_words(alloc, &given.files)?;
    Ok(Some(Command::Check(CheckWords {
        rules,
        exec: given.exec,
        files,
    })))
}

/// The command of this name with these values and files. There is none where an option that it needs isn't given, a number
/// isn't within its bounds, or the rules are none.
pub fn command_with<'a>(
    alloc: Global,
    name: CommandName,
    given: Given<'a>,
) -> Result<Option<Command<'a>>, Memory>
    ensures { IfOk result (λ o. option_map command_seen o ≡ command_with name (given_seen given.entry)) }
{
    match name {
        CommandName::Instrument => instrument_with(alloc, &given),
        CommandName::Run => run_with(alloc, &given),
        CommandName::Merge => Ok(merge_with(given)),
        CommandName::Report => report_with(alloc, &given),
        CommandName::ExecInfo => Ok(Some(Command::ExecInfo {
            inputs: given.files,
        })),
        CommandName::ClassInfo => {
            let files = file_words(alloc, &given.files)?;
            Ok(Some(Command::ClassInfo { files }))
        }
        CommandName::Cover => cover_with(alloc, &given),
        CommandName::Refs => {
            let files = file_words(alloc, &given.files)?;
            Ok(Some(Command::Refs { files }))
        }
        CommandName::Lines => {
            let command = lines_with(alloc, &given)?;
            Ok(Some(command))
        }
        CommandName::Check => check_with(alloc, &given),
    }
}
