//! The command `cover`, behind the text of its run plan and the list of its files.
ghost use Rattle.std.specs.Prelude.{◌≡◌, ◌≤◌, ◌<◌, ◌^◌, List, length, map};
ghost use Rattle.jc_bytes.specs.Reader.{most_read};
ghost use Rattle.jc_paths.specs.Paths.{FileText, in_folder};
ghost use Rattle.jc_headline.specs.CoverWork.{covering};
ghost use Rattle.jc_command_cover.specs.CoverSeen.{cover_seen};
ghost use Rattle.jc_command_work.specs.Ending.{Ran};
ghost use Rattle.jc_command_work.specs.Handed.{OnOutside};
ghost use Rattle.jc_command_work.specs.Seen.{stop_seen, words_of};

use crate::accepted::accepted_files;
use crate::files::instrument_files;
use crate::options::CoverOptions;
use crate::running::run_accepted;
use jc_bytes::Bytes;
use jc_command_run::plan_of;
use jc_command_work::{Outside, Resources, Stop, TargetedFiles, as_texts, read_listed};
use jc_outside::{Files, Sink};
use jc_workers::Gate;
use std::marker::Sync;
use std::thread::Threads;

/// Does the command `cover` by the text of its run plan, the paths of its class files, and the paths in the folder to which they
/// are written.
///
/// It reads the files, and refuses the run plan's text by its first line that doesn't fit. It writes each file instrumented, or as
/// it was read where it is refused, with its line. Then it reads back those that weren't refused, and runs the program that is
/// linked of what was read back. It writes the execution data of all cases, the report on these files as they were read at first,
/// and on `out` what the cases print. Where it is done, each call was made in this order, and none failed.
///
/// # Errors
///
/// The first of these ends it: a file that can't be read or written, or a text on `out` or `err` that can't be; the run plan's
/// text; files read back that are no program, which are named by their places among all files; a thread of the run plan without a
/// method to begin with; and, once the execution data is written, a record of it that clashes with a class of the files as they
/// were read at first, which names the file of execution data as the first input. `Memory` may come at any time.
pub fn cover<'a, R: Threads + Sync, F: Files, O: Sink, E: Sink, G: Gate + Sync>(
    resources: &Resources<'_, '_, R, G>,
    outside: &mut Outside<'_, '_, '_, F, O, E>,
    options: &CoverOptions<'a>,
    plan_text: &Bytes,
    paths: &'a [String],
    targets: &'a [String],
) -> Result<(), Stop<'a>>
    requires few { length paths.now < 2 ^ 32 }
    requires workers { (1 ≤ options.now.workers) × (options.now.workers ≤ 16) }
    requires short { length plan_text.now ≤ most_read }
    requires targets { words_of targets.now ≡ map (in_folder options.now.dest.now) (words_of paths.now) }
    ensures { (named : List FileText) → OnOutside F.Files O.Sink E.Sink outside.old outside.new
        (Ran F.landed (covering (cover_seen options.entry.now named) plan_text.now (words_of paths.entry.now)) stop_seen) result }
{
    let alloc = resources.alloc;
    let inputs = read_listed(alloc, outside.files, paths)?;
    let plan = plan_of(alloc, options.plan, plan_text)?;
    let file_targets = as_texts(alloc, targets)?;
    let targeted = TargetedFiles::new(inputs, file_targets);
    let places = instrument_files(resources.rt, alloc, outside, &targeted)?;
    let accepted = accepted_files(alloc, targeted, places)?;
    run_accepted(resources, outside, options, &plan, accepted)
}
