//! What `run --monitors` reads, and what it writes of it.
ghost use Rattle.std.specs.Prelude.{◌<◌, ◌≤◌, ◌^◌, ◌∷◌, length};
ghost use Rattle.jc_bytes.specs.Reader.{most_read};
ghost use Rattle.jc_command_work.specs.Answered.{Prepares};
ghost use Rattle.jc_command_work.specs.Handed.{BetweenFiles};
ghost use Rattle.jc_command_work.specs.Seen.{words_of};
ghost use Rattle.jc_command_monitored.specs.MonitoredAnswers.{MonitoredAnswers};

use crate::answer::decided;
use crate::options::MonitoredOptions;
use jc_bytes::Bytes;
use jc_command_work::{Stop, Write, read_listed};
use jc_outside::Files;
use jc_workers::Gate;
use std::alloc::Global;

/// The writes of `run --monitors`, of a run plan's text that was read: the execution data, to its file, and then the text of the
/// cases, on `out`. The cases run one after another, and each passes the gate when it begins.
///
/// # Errors
///
/// `Read` with the path of the first class file that can't be read, before anything is refused. Then `Refused` with the path
/// of the run plan and the first line that doesn't fit; `Refused` with the path of the first class file that isn't linked, or
/// `Clash` with those of two files of one class name, or else of two whose probes have one id; `Refused` with the path of the
/// run plan and the line of the first thread that has no method to begin with. `Memory` at any time.
pub fn prepare_monitored<'a, F: Files, G: Gate>(
    alloc: Global,
    gate: &G,
    files: &mut F,
    options: &MonitoredOptions<'a>,
    plan_text: &Bytes,
    paths: &'a [String],
) -> Result<Vec<Write<'a>>, Stop<'a>>
    requires few { length paths.now < 2 ^ 32 }
    requires plan { length plan_text.now ≤ most_read }
    ensures { BetweenFiles F.Files files.old files.new (Prepares F.landed (words_of paths.entry.now)
        (λ read. MonitoredAnswers options.entry.now.plan.now options.entry.now.destfile.now (words_of paths.entry.now) (plan_text.now ∷ read))) result }
{
    let inputs = read_listed(alloc, files, paths)?;
    decided(alloc, gate, options, plan_text, &inputs)
}
