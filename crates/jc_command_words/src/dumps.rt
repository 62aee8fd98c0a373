//! The paths of dumps among the words.
ghost use Rattle.std.specs.Prelude.{◌≡◌, IfOk, map};
ghost use Rattle.std.specs.List.{list_any};
ghost use Rattle.std.specs.Option.{option_map};
ghost use Rattle.jc_command_words.specs.Dumps.{has_dump, is_dump, is_dump_name};

use crate::number::number_up_to;
use jc_bytes::Memory;
use jc_paths::in_folder;
use std::alloc::Global;

/// The most dumps: as many as a run plan has cases at most.
pub const MOST_DUMPS: u32 = 256;

/// Whether a name is that of a dump: its number and `.exec`.
fn is_dump_name(name: &str) -> bool
    ensures { result ≡ is_dump_name name.now }
{
    match name.strip_suffix(".exec") {
        Some(number) => number_up_to(MOST_DUMPS, number).is_some(),
        None => false,
    }
}

/// Whether a path is that of a dump in a folder, whose path ends with `/`.
fn is_dump(folder: &str, path: &str) -> bool
    ensures { result ≡ is_dump folder.now path.now }
{
    match path.strip_prefix(folder) {
        Some(name) => is_dump_name(name),
        None => false,
    }
}

/// Whether one of the paths is that of a dump in a folder, whose path ends with `/`.
fn any_dump(folder: &str, paths: &[&str]) -> bool
    ensures { result ≡ list_any (λ p. is_dump folder.now p.now) paths.now }
{
    paths.iter().any(|path| is_dump(folder, *path))
}

/// Whether one of the paths is that of a dump in the folder for dumps, if there is one.
pub fn has_dump(alloc: Global, dumps: Option<&str>, paths: &[&str]) -> Result<bool, Memory>
    ensures { IfOk result (λ has. has ≡ has_dump (option_map (λ w. w.now) dumps.entry) (map (λ p. p.now) paths.now)) }
{
    let Some(dir) = dumps else {
        return Ok(false);
    };
    let folder = in_folder(alloc, dir, "")?;
    Ok(any_dump(folder.as_str(), paths))
}
