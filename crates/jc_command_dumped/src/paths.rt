//! The files of dumps.
ghost use Rattle.std.specs.Prelude.{◌≡◌, ◌<◌, IfOk, string_bytes};
ghost use Rattle.jc_paths.specs.Paths.{words_of};
ghost use Rattle.jc_command_dumped.specs.DumpedAnswers.{dump_path, dump_paths};

use jc_bytes::Memory;
use jc_paths::in_folder;
use std::alloc::{AllocError, Global};

/// The most dumps: as many as a run plan has cases at most.
const MOST_DUMPS: usize = 256;

/// The file of a dump in a folder, by the number of the dumps in front of it.
fn dump_path(alloc: Global, dir: &str, before: usize) -> Result<String, AllocError>
    requires { before < 256 }
    ensures { IfOk result (λ path. string_bytes path ≡ dump_path dir.now before) }
{
    let number = before + 1;
    let name = format!(in alloc; "{number}.exec")?;
    in_folder(alloc, dir, name.as_str())
}

/// The files of dumps in a folder: `1.exec`, `2.exec` and so on, as many as there may be dumps.
///
/// # Errors
///
/// `Memory` where memory was refused.
pub fn dump_paths(alloc: Global, dir: &str) -> Result<Vec<String>, Memory>
    ensures { IfOk result (λ paths. words_of paths.items ≡ dump_paths dir.now) }
{
    let mut paths = Vec::with_capacity(alloc, MOST_DUMPS)?;
    'naming: for before in 0..MOST_DUMPS {
        paths.push(dump_path(alloc, dir, before)?)?;
    }
    Ok(paths)
}
