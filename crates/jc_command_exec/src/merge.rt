//! The command `merge`.
ghost use Rattle.std.specs.Prelude.{◌≡◌, ◌<◌, ◌^◌, ℕ, List, [], ◌∷◌, length, IfOk, IfErr};
ghost use Rattle.jc_command_exec.specs.Gathering.{IsGathered, ReadsFiles};
ghost use Rattle.jc_command_work.specs.Step.{Word};
ghost use Rattle.jc_command_work.specs.Seen.{texts_of};
ghost use Rattle.jc_command_work.specs.Answered.{AnswersWith, Prepares};
ghost use Rattle.jc_command_work.specs.Handed.{BetweenFiles};
ghost use Rattle.jc_command_exec.specs.Merge.{MergeAnswers};

use crate::gathered::{Gathered, read_on};
use jc_command_work::{Stop, Write};
use jc_exec::PackedStore;
use jc_outside::Files;
use std::alloc::Global;

/// The union of the execution data in the files, in order, or the first of them that is refused. Each file is read to its end, part by
/// part, into one buffer.
fn union_of<'a, F: Files>(
    alloc: Global,
    files: &mut F,
    paths: &[&'a str],
) -> Result<Gathered<'a>, Stop<'a>>
    requires { length paths.now < 2 ^ 32 }
    ensures { BetweenFiles F.Files files.old files.new (ReadsFiles F.landed (texts_of paths.entry.now)) result }
{
    let mut part = Vec::new(alloc);
    let mut gathered = Gathered::Union(PackedStore::new(alloc));
    'merging: for index in 0..paths.len() {
        gathered = read_on(
            alloc,
            files,
            paths[index],
            index as u32,
            &mut part,
            gathered,
        )?;
    }
    Ok(gathered)
}

/// A list of one write.
fn one_write<'a>(alloc: Global, write: Write<'a>) -> Result<Vec<Write<'a>>, Stop<'a>>
    ensures ok { IfOk result (λ writes. writes.items ≡ write.entry ∷ []) }
    ensures err { IfErr result (λ stop. stop ≡ Stop.Memory) }
{
    let mut writes = Vec::new(alloc);
    match writes.push(write) {
        Ok(()) => Ok(writes),
        Err(_) => Err(Stop::Memory),
    }
}

/// The one write of the command, of what it read.
fn merged<'a>(
    alloc: Global,
    destfile: &'a str,
    gathered: Gathered<'a>,
) -> Result<Vec<Write<'a>>, Stop<'a>>
    ensures { (paths : List Word) (texts : List (List ℕ)) → IsGathered paths texts gathered.entry
        → AnswersWith (MergeAnswers destfile.entry.now paths texts) result }
{
    match gathered {
        Gathered::Union(store) => {
            let bytes = store.write(alloc)?;
            one_write(
                alloc,
                Write::File {
                    path: destfile,
                    bytes,
                },
            )
        }
        Gathered::Refused(stop) => Err(stop),
    }
}

/// The writes of `merge --destfile OUT IN..`.
pub fn prepare_merge<'a, F: Files>(
    alloc: Global,
    files: &mut F,
    destfile: &'a str,
    paths: &[&'a str],
) -> Result<Vec<Write<'a>>, Stop<'a>>
    requires { length paths.now < 2 ^ 32 }
    ensures { BetweenFiles F.Files files.old files.new (Prepares F.landed (texts_of paths.entry.now) (MergeAnswers destfile.entry.now (texts_of paths.entry.now))) result }
{
    let gathered = union_of(alloc, files, paths)?;
    merged(alloc, destfile, gathered)
}
