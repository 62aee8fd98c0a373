//! What `refs` reads, and what it writes of it.
ghost use Rattle.std.specs.Prelude.{◌<◌, ◌^◌, length};
ghost use Rattle.jc_command_refs.specs.RefsAnswers.{RefsFiles};
ghost use Rattle.jc_command_work.specs.Answered.{Prepares};
ghost use Rattle.jc_command_work.specs.Handed.{BetweenFiles};
ghost use Rattle.jc_command_work.specs.Seen.{words_of};

use crate::answer::decided;
use jc_command_work::{Stop, Write, read_listed};
use jc_outside::Files;
use std::alloc::Global;

/// The write of `refs`: a line on `out`, where the class files have a program and it passes the reference check.
///
/// # Errors
///
/// `Read` with the path of the first class file that can't be read, before anything is refused. Then `Refused` with the path
/// of the first class file that isn't linked, or `Clash` with those of two files of one class name, or else of two whose
/// probes have one id; `Refused` with the path of the first class in which a reference doesn't suit what takes it, and the
/// first instruction at which it doesn't. `Memory` at any time.
pub fn prepare_refs<'a, F: Files>(
    alloc: Global,
    files: &mut F,
    paths: &'a [String],
) -> Result<Vec<Write<'a>>, Stop<'a>>
    requires { length paths.now < 2 ^ 32 }
    ensures { BetweenFiles F.Files files.old files.new (Prepares F.landed (words_of paths.entry.now)
        (RefsFiles (words_of paths.entry.now))) result }
{
    let inputs = read_listed(alloc, files, paths)?;
    decided(alloc, &inputs)
}
