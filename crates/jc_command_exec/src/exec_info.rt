//! The command `execinfo`.
ghost use Rattle.std.specs.Prelude.{◌≡◌, ◌<◌, ◌^◌, ℕ, List, length};
ghost use Rattle.jc_command_work.specs.Step.{Word};
ghost use Rattle.jc_command_exec.specs.Informing.{IsAlone, PutsNext, InformsFile, InformsFiles, IsListed, ListsWith, Lists};
ghost use Rattle.jc_command_exec.specs.ExecInfo.{InfoAnswers};
ghost use Rattle.jc_command_work.specs.Seen.{texts_of};
ghost use Rattle.jc_command_work.specs.Handed.{BetweenFiles};

use crate::gathered::{Gathered, read_on};
use crate::lines::Lines;
use crate::listing::{ListedFile, Listing};
use jc_command_work::Stop;
use jc_exec::PackedStore;
use jc_outside::Files;
use std::alloc::Global;

/// The lines of the files so far, and how the first of them that is refused stops the command.
#[derive(Drop)]
struct Listed<'a> {
    listing: Listing<'a>,
    refused: Option<Stop<'a>>,
}

/// A store of nothing for a file, unless one before it is refused.
fn alone<'a>(alloc: Global, refused: Option<Stop<'a>>) -> Gathered<'a>
    ensures { IsAlone refused.entry result }
{
    match refused {
        None => Gathered::Union(PackedStore::new(alloc)),
        Some(stop) => Gathered::Refused(stop),
    }
}

/// Puts the lines of a file last. Once one is refused there are none.
fn put_next<'a>(alloc: Global, path: &'a str, before: Lines, gathered: Gathered<'a>) -> Listed<'a>
    ensures { PutsNext path.entry.now before gathered.entry result }
{
    match gathered {
        Gathered::Union(store) => Listed {
            listing: Listing::ending(before, ListedFile { path, store }),
            refused: None,
        },
        Gathered::Refused(stop) => Listed {
            listing: Listing::new(alloc),
            refused: Some(stop),
        },
    }
}

/// Reads the file at a path, the one of this index, into a store of its own, and puts its lines last.
fn inform<'a, F: Files>(
    alloc: Global,
    files: &mut F,
    path: &'a str,
    index: u32,
    part: &mut Vec<u8>,
    listed: Listed<'a>,
) -> Result<Listed<'a>, Stop<'a>>
    ensures { BetweenFiles F.Files files.old files.new (InformsFile F.landed path.entry index listed.entry) result }
{
    let Listed { listing, refused } = listed;
    let before = listing.into_lines(alloc)?;
    let gathered = read_on(alloc, files, path, index, part, alone(alloc, refused))?;
    Ok(put_next(alloc, path, before, gathered))
}

/// The lines of the files at the paths, in order. Each file is read to its end, part by part, into one buffer.
fn informed<'a, F: Files>(
    alloc: Global,
    files: &mut F,
    paths: &[&'a str],
) -> Result<Listed<'a>, Stop<'a>>
    requires { length paths.now < 2 ^ 32 }
    ensures { BetweenFiles F.Files files.old files.new (InformsFiles F.landed (texts_of paths.entry.now)) result }
{
    let mut part = Vec::new(alloc);
    let mut listed = Listed {
        listing: Listing::new(alloc),
        refused: None,
    };
    'informing: for index in 0..paths.len() {
        listed = inform(alloc, files, paths[index], index as u32, &mut part, listed)?;
    }
    Ok(listed)
}

/// The lines, or how the first file that is refused stops the command.
fn answer_of<'a>(listed: Listed<'a>) -> Result<Listing<'a>, Stop<'a>>
    ensures { (paths : List Word) (texts : List (List ℕ)) → IsListed paths texts listed.entry → ListsWith (InfoAnswers paths texts) result }
{
    let Listed { listing, refused } = listed;
    match refused {
        None => Ok(listing),
        Some(stop) => Err(stop),
    }
}

/// The lines that `execinfo IN..` prints.
pub fn prepare_exec_info<'a, F: Files>(
    alloc: Global,
    files: &mut F,
    paths: &[&'a str],
) -> Result<Listing<'a>, Stop<'a>>
    requires { length paths.now < 2 ^ 32 }
    ensures { BetweenFiles F.Files files.old files.new (Lists F.landed (texts_of paths.entry.now) (InfoAnswers (texts_of paths.entry.now))) result }
{
    let listed = informed(alloc, files, paths)?;
    answer_of(listed)
}
