//! What `run --dumps` reads, and what it writes of it.
ghost use Rattle.std.specs.Prelude.{◌<◌, ◌≤◌, ◌^◌, ◌∷◌, length};
ghost use Rattle.jc_bytes.specs.Reader.{most_read};
ghost use Rattle.jc_command_work.specs.Answered.{Prepares};
ghost use Rattle.jc_command_work.specs.Handed.{BetweenFiles};
ghost use Rattle.jc_command_work.specs.Seen.{words_of};
ghost use Rattle.jc_command_dumped.specs.DumpedAnswers.{Taken, DumpedAnswers};
ghost use Rattle.jc_command_dumped.specs.OptionsSeen.{dumping_seen};

use crate::answer::decided;
use crate::options::DumpOptions;
use jc_bytes::Bytes;
use jc_command_work::{Resources, Stop, Write, read_listed};
use jc_outside::Files;
use jc_workers::Gate;
use std::marker::Sync;
use std::thread::Threads;

/// The writes of `run --dumps`, of a run plan's text that was read: the dumps in order, each to its file, the rest of the execution
/// data, to its file, and then the text of the cases, on `out`. Each case passes through the gate when it begins.
///
/// # Errors
///
/// `Read` with the path of the first class file that can't be read, before anything is refused. Then `Refused` with the path
/// of the run plan and the first line that doesn't fit; `Refused` with the path of the first class file that isn't linked, or
/// `Clash` with those of two files of one class name, or else of two whose probes have one id; `Refused` with the path of the
/// run plan and the line of the first thread that has no method to begin with. `Memory` at any time.
pub fn prepare_dumped<'a, R: Threads + Sync, F: Files, G: Gate + Sync>(
    resources: &Resources<'_, '_, R, G>,
    files: &mut F,
    options: &DumpOptions<'a>,
    plan_text: &Bytes,
    paths: &'a [String],
) -> Result<Vec<Write<'a>>, Stop<'a>>
    requires few { length paths.now < 2 ^ 32 }
    requires enough { 256 ≤ length options.now.dumps.now }
    requires every { (1 ≤ options.now.every) × (options.now.every ≤ 256) }
    requires workers { (1 ≤ options.now.workers) × (options.now.workers ≤ 16) }
    requires plan { length plan_text.now ≤ most_read }
    ensures { (taken : Taken) × BetweenFiles F.Files files.old files.new (Prepares F.landed (words_of paths.entry.now)
        (λ read. DumpedAnswers taken (dumping_seen options.entry.now) (words_of paths.entry.now) (plan_text.now ∷ read))) result }
{
    let inputs = read_listed(resources.alloc, files, paths)?;
    decided(resources, options, plan_text, &inputs)
}
