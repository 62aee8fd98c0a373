//! The top call, which does all that the program does.
ghost use Rattle.std.specs.Prelude.{◌<◌, ◌^◌, length, IfOk};
ghost use Rattle.jc_command_words.specs.Commands.{files_of};
ghost use Rattle.jc_command_words.specs.Outcome.{CommandRead};
ghost use Rattle.jc_command_words.specs.Seen.{command_seen};
ghost use Rattle.jc_command_words.specs.Words.{words_of};
ghost use Rattle.jc_command_work.specs.Step.{outside};
ghost use Rattle.jc_command_work.specs.Ending.{Ends};
ghost use Rattle.jc_command_work.specs.Handed.{Between};
ghost use Rattle.jc_top.specs.Bounds.{IsBounded};
ghost use Rattle.jc_top.specs.CoverHeadline.{KeepsHeadline};
ghost use Rattle.jc_command_dumped.specs.DumpedAnswers.{Taken};
ghost use Rattle.jc_top.specs.Work.{the_work};

use crate::commands::run_command;
use jc_bytes::Fail;
use jc_command_words::{Command, Usage, read_words};
use jc_command_work::{Outside, Resources, Status, report_usage};
use jc_outside::{Files, Sink};
use jc_workers::Gate;
use std::alloc::Global;
use std::marker::Sync;
use std::thread::Threads;

/// The command that the words call, whose numbers are within their bounds.
fn read_command<'a>(alloc: Global, words: &'a [String]) -> Result<Command<'a>, Fail<Usage>>
    ensures read { CommandRead (words_of words.entry.now) result }
    ensures few { IfOk result (λ command. length (files_of (command_seen command)) < 2 ^ 32) }
    ensures bounded { IfOk result (λ command. IsBounded (command_seen command)) }
{
    read_words(alloc, words)
}

/// Does all that the words behind the program's name ask for, and answers how it ended.
///
/// The words are one of
///
/// - `instrument --dest DIR FILE..`
/// - `run --plan PLAN --destfile OUT [--workers N] FILE..`, or `run --plan PLAN --destfile OUT --dumps DIR --every K [--workers N] FILE..`,
///   or `run --monitors --plan PLAN --destfile OUT [--workers 1] FILE..`
/// - `merge --destfile OUT IN..`
/// - `report --csv OUT [--name NAME] [--exec IN] FILE..`
/// - `execinfo IN..`
/// - `classinfo FILE..`
/// - `cover --dest DIR --plan PLAN --destfile OUT --csv CSV [--workers N] [--name NAME] FILE..`, or `cover --sample N`
/// - `refs FILE..`
/// - `lines [--exec IN] FILE..`
/// - `check --min RULES [--exec IN] FILE..`
///
/// where options stand in any order in front of the files, and a FILE that ends with `/` stands for the class files of the folder
/// of that path. A command reads its run plan or execution data, lists the folders and reads the files. Then it refuses
/// what is wrong with them, and then writes; `cover` alone reads back what it has written, and may refuse then. The first failure
/// ends a command and decides the status; its message goes to `err`, and a failure of that last message changes nothing. Want of
/// memory prints no message.
///
/// A class file that `instrument`, `report` or `cover` refuses is no failure. `report` begins its writes with a line on `err`
/// for each. `instrument` and `cover` write each class file to DIR/FILE, and behind it its line: one that is refused byte for
/// byte as it was read, with a line on `err` that gives the reason; one whose class stays as it is too, with a line on `out`;
/// and each other one with its probes, whose number is in its line on `out`. Class files are looked at, and cases run, in
/// threads, which `rt` starts; `gate` is told when a case of a run plan begins, and may hold its worker. With `--monitors` the
/// threads of a case take locks, and its cases run one after another.
///
/// `run --dumps` takes a dump of the hits behind each case whose number is a multiple of K, and writes the dumps to DIR/1.exec,
/// DIR/2.exec and so on, and to OUT the hits that no dump has. Which dump has a hit may depend on when a worker runs, where there
/// are several: so its work is said by dumps and a rest, and there are some that are as `run_dumping` of jc_dump promises.
///
/// All of this is the work of the words, which the contract names: the calls that they ask for, one after the other, and the
/// end. A run makes all of them, and says the message of the end; or first ones of them up to one that fails, whose count rose,
/// and says that the file at its path couldn't be read or written, or, of `out` and `err`, that output couldn't be; or first
/// ones of them until memory is refused, and then says nothing [`work`]. Where a file couldn't be read or a folder listed, the
/// files tell that its path is the one which failed last. What each status says, and what stands then, is in the laws of this
/// crate.
///
/// Of `cover` the headline holds, where it is done and contents are told and read back as they were written [`headline`]. It is
/// said of all class files that the words name: each case of the instrumented files prints and leaves what the originals give under
/// its schedule without the turns of probes, the written data is the union of the probes passed, every reported instruction and
/// branch was executed, or is, instructions alone, next in a stopped thread, and exactly what was executed is reported where every
/// thread returned and nothing was thrown, and every refused class is copied unchanged, and its reason printed. It is done exactly
/// where its run plan and class files fit, no call fails and memory isn't refused: see [`jc_headline::each_fit_cover_is_done`].
pub fn run_tool<R: Threads + Sync, F: Files, O: Sink, E: Sink, G: Gate + Sync>(
    rt: &R,
    alloc: Global,
    words: &[String],
    files: &mut F,
    out: &mut O,
    err: &mut E,
    gate: &G,
) -> Status
    ensures work { (taken : Taken) × Between F.Files O.Sink E.Sink (files.old, out.old, err.old) (files.new, out.new, err.new)
        (Ends F.landed (the_work taken (words_of words.now))) result }
    ensures headline { KeepsHeadline F.landed (words_of words.now)
        (outside (F.contents files.old) (F.failed_path files.old) (O.told out.old) (E.told err.old))
        (outside (F.contents files.new) (F.failed_path files.new) (O.told out.new) (E.told err.new)) result }
{
    match read_command(alloc, words) {
        Ok(command) => {
            let resources = Resources { rt, alloc, gate };
            let mut outside = Outside { files, out, err };
            run_command(&resources, &mut outside, &command)
        }
        Err(Fail::Memory) => Status::Memory,
        Err(Fail::Said(Usage)) => report_usage(err),
    }
}
