//! Files, folders, and the paths of files in a folder.
ghost use Rattle.std.specs.Prelude.{◌≡◌, IfOk, map, string_bytes};
ghost use Rattle.jc_paths.specs.Paths.{ends_with_slash, file_text, in_folder, words_of};
ghost use Rattle.jc_paths.specs.Looks.{file_view};

use jc_bytes::Memory;
use std::alloc::{AllocError, Global};

/// A file, or a folder, which stands for files in it.
#[derive(Clone, Copy, Debug, PartialEq, Eq)]
pub enum FileWord<'a> {
    /// The path of a file: a word that doesn't end with `/`.
    Plain(&'a str),
    /// The path of a folder: a word without the `/` at its end.
    Folder(&'a str),
}

/// What a word among the files stands for.
pub fn file_word<'a>(word: &'a str) -> FileWord<'a>
    ensures { file_view result ≡ file_text word.entry.now }
{
    match word.strip_suffix("/") {
        Some(path) => FileWord::Folder(path),
        None => FileWord::Plain(word),
    }
}

/// Whether a word ends with `/`.
pub fn ends_with_slash(word: &str) -> bool
    ensures { result ≡ ends_with_slash word.now }
{
    word.as_bytes().ends_with(b"/")
}

/// The path of a file in a folder.
pub fn in_folder(alloc: Global, folder: &str, path: &str) -> Result<String, AllocError>
    ensures { IfOk result (λ target. string_bytes target ≡ in_folder folder.now path.now) }
{
    if ends_with_slash(folder) {
        format!(in alloc; "{folder}{path}")
    } else {
        format!(in alloc; "{folder}/{path}")
    }
}

/// The paths of the files in a folder, in order.
pub fn all_in_folder(alloc: Global, folder: &str, paths: &[String]) -> Result<Vec<String>, Memory>
    ensures { IfOk result (λ targets. words_of targets.items ≡ map (in_folder folder.now) (words_of paths.now)) }
{
    let mut targets = Vec::with_capacity(alloc, paths.len())?;
    'joining: for path in paths {
        targets.push(in_folder(alloc, folder, path.as_str())?)?;
    }
    Ok(targets)
}
