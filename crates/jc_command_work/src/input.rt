//! Reading the inputs of a command.
ghost use Rattle.std.specs.Prelude.{◌≡◌, ◌≤◌, length, map, IfOk, string_bytes};
ghost use Rattle.jc_bytes.specs.Reader.{most_read};
ghost use Rattle.jc_command_work.specs.Part.{reading, listing};
ghost use Rattle.jc_command_work.specs.Ending.{DoesFiles};
ghost use Rattle.jc_command_work.specs.Handed.{BetweenFiles};
ghost use Rattle.jc_command_work.specs.Seen.{words_of, texts_of, stop_seen, read_stop};

use crate::stop::Stop;
use jc_bytes::{Bytes, Memory, are_bytes};
use jc_outside::{FileFault, Files};
use std::alloc::Global;

/// How a read that failed stops a command.
pub fn read_stop<'a>(fault: FileFault, path: &'a str) -> Stop<'a>
    ensures { result ≡ read_stop fault path.entry }
{
    match fault {
        FileFault::Memory => Stop::Memory,
        FileFault::Failed | FileFault::Missing | FileFault::TooLarge => Stop::Read(path),
    }
}

/// The bytes of the file at a path.
pub fn read_one<'a, F: Files>(
    alloc: Global,
    files: &mut F,
    path: &'a str,
) -> Result<Bytes, Stop<'a>>
    ensures does { BetweenFiles F.Files files.old files.new (DoesFiles F.landed (reading path.entry.now) (λ bytes. bytes) stop_seen) result }
    ensures short { IfOk result (λ bytes. length bytes ≤ most_read) }
{
    let mut bytes = Vec::new(alloc);
    match files.read(alloc, path, &mut bytes) {
        Ok(()) => {
            are_bytes(bytes.as_slice());
            Ok(Bytes::from_vec(bytes))
        }
        Err(fault) => Err(read_stop(fault, path)),
    }
}

/// The paths, as texts.
pub fn as_texts<'a>(alloc: Global, paths: &'a [String]) -> Result<Vec<&'a str>, Memory>
    ensures { IfOk result (λ texts. texts_of texts.items ≡ words_of paths.entry.now) }
{
    let mut texts = Vec::with_capacity(alloc, paths.len())?;
    'naming: for path in paths {
        texts.push(path.as_str())?;
    }
    Ok(texts)
}

/// The paths of the class files of a folder's own.
pub fn list_folder<'a, F: Files>(
    alloc: Global,
    files: &mut F,
    folder: &'a str,
) -> Result<Vec<String>, Stop<'a>>
    ensures { BetweenFiles F.Files files.old files.new (DoesFiles F.landed (listing folder.entry.now) (λ paths. map string_bytes paths.items) stop_seen) result }
{
    match files.list(alloc, folder) {
        Ok(paths) => Ok(paths),
        Err(fault) => Err(read_stop(fault, folder)),
    }
}
