//! The files that words name.
ghost use Rattle.std.specs.Prelude.{◌≡◌, ◌<◌, ◌^◌, ◌++◌, ◌∷◌, [], length, map, IfOk, OnOk};
ghost use Rattle.jc_paths.specs.Looks.{file_view};
ghost use Rattle.jc_command_work.specs.Folders.{once, paths_of, all_paths, files_of};
ghost use Rattle.jc_command_work.specs.Ending.{DoesFiles};
ghost use Rattle.jc_command_work.specs.Handed.{BetweenFiles};
ghost use Rattle.jc_command_work.specs.Seen.{words_of, stop_seen};

use crate::input::list_folder;
use crate::stop::Stop;
use indexmap::IndexSet;
use jc_bytes::Memory;
use jc_outside::Files;
use jc_paths::FileWord;
use std::alloc::Global;

/// A path alone.
fn one_path(alloc: Global, path: &str) -> Result<Vec<String>, Memory>
    ensures { IfOk result (λ paths. words_of paths.items ≡ path.now ∷ []) }
{
    let mut paths = Vec::with_capacity(alloc, 1)?;
    paths.push(String::from_str(alloc, path)?)?;
    Ok(paths)
}

/// The path of a file, or those of a folder's class files.
fn paths_of<'a, F: Files>(
    alloc: Global,
    files: &mut F,
    word: FileWord<'a>,
) -> Result<Vec<String>, Stop<'a>>
    ensures { BetweenFiles F.Files files.old files.new (DoesFiles F.landed (paths_of (file_view word.entry)) (λ paths. words_of paths.items) stop_seen) result }
{
    match word {
        FileWord::Plain(path) => Ok(one_path(alloc, path)?),
        FileWord::Folder(path) => list_folder(alloc, files, path),
    }
}

/// Puts paths behind others.
fn put_last(paths: &mut Vec<String>, more: Vec<String>) -> Result<(), Memory>
    ensures { OnOk result (words_of paths.new.items ≡ words_of paths.old.items ++ words_of more.items) }
{
    let mut more = more;
    paths.append(&mut more)?;
    Ok(())
}

/// The paths that the words stand for, in order.
fn all_paths<'a, F: Files>(
    alloc: Global,
    files: &mut F,
    words: &[FileWord<'a>],
) -> Result<Vec<String>, Stop<'a>>
    ensures { BetweenFiles F.Files files.old files.new (DoesFiles F.landed (all_paths (map file_view words.entry.now)) (λ paths. words_of paths.items) stop_seen) result }
{
    let mut paths = Vec::new(alloc);
    'listing: for word in words {
        let more = paths_of(alloc, files, *word)?;
        put_last(&mut paths, more)?;
    }
    Ok(paths)
}

/// Each path where it stands first. 4,294,967,296 of them or more count as want of memory.
fn once(alloc: Global, paths: Vec<String>) -> Result<Vec<String>, Memory>
    ensures once { IfOk result (λ kept. words_of kept.items ≡ once [] (words_of paths.items)) }
    ensures few { IfOk result (λ kept. length kept.items < 2 ^ 32) }
{
    let mut seen = IndexSet::new(alloc);
    'keeping: for path in paths {
        seen.insert_full(path)?;
    }
    if seen.len() > u32::MAX as usize {
        return Err(Memory);
    }
    Ok(seen.into_iter().collect(alloc)?)
}

/// The paths of the files that the words name, in order: a folder stands for the class files of its own, and a path that
/// has come before is dropped. 4,294,967,296 paths or more count as want of memory.
pub fn list_files<'a, F: Files>(
    alloc: Global,
    files: &mut F,
    words: &[FileWord<'a>],
) -> Result<Vec<String>, Stop<'a>>
    ensures does { BetweenFiles F.Files files.old files.new (DoesFiles F.landed (files_of (map file_view words.entry.now)) (λ paths. words_of paths.items) stop_seen) result }
    ensures few { IfOk result (λ paths. length paths.items < 2 ^ 32) }
{
    let paths = all_paths(alloc, files, words)?;
    Ok(once(alloc, paths)?)
}
