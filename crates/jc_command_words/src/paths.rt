//! Paths among the words.
ghost use Rattle.std.specs.Prelude.{◌≡◌, ◌++◌, IfOk, map, string_bytes};
ghost use Rattle.std.specs.Option.{option_map};
ghost use Rattle.std.specs.List.{list_all, list_any};
ghost use Rattle.std.specs.Str.{bytes_eq};
ghost use Rattle.jc_command_words.specs.Words.{words_of};
ghost use Rattle.jc_command_words.specs.Paths.{components, is_component, is_relative, path_options, path_values, targets_in, are_distinct};
ghost use Rattle.jc_command_words.specs.Looks.{used_view};

use crate::scan::Used;
use indexmap::IndexSet;
use jc_bytes::Memory;
use jc_paths::{FileWord, ends_with_slash, file_word, in_folder};
use std::alloc::{AllocError, Global};

/// Whether the bytes are neither empty nor `.` nor `..`.
fn is_component(bytes: &[u8]) -> bool
    ensures { result ≡ is_component bytes.now }
{
    match bytes {
        [] => false,
        [a] => *a != b'.',
        [a, b] => !(*a == b'.' && *b == b'.'),
        _ => true,
    }
}

/// Whether each part between slashes is a name.
fn are_components(bytes: &[u8]) -> bool
    ensures { result ≡ list_all is_component (components bytes.now) }
{
    let mut rest = bytes;
    'parts: while let Some(end) = rest.iter().position(|b| *b == b'/') {
        if !is_component(&rest[..end]) {
            return false;
        }
        rest = &rest[end + 1..];
    }
    is_component(rest)
}

/// Whether the path of a file or folder leads to no other folder.
fn is_relative(word: &str) -> bool
    ensures { result ≡ is_relative word.now }
{
    match file_word(word) {
        FileWord::Plain(path) => are_components(path.as_bytes()),
        FileWord::Folder(path) => are_components(path.as_bytes()),
    }
}

/// Whether the path of each is so.
pub fn all_relative(files: &[String]) -> bool
    ensures { result ≡ list_all (λ f. is_relative (string_bytes f)) files.now }
{
    files.iter().all(|f| is_relative(f.as_str()))
}

/// The paths in a folder, if there is one, of the files that are no folders.
pub fn targets_in(
    alloc: Global,
    dest: Option<&str>,
    files: &[String],
) -> Result<Vec<String>, AllocError>
    ensures { IfOk result (λ targets. words_of targets.items ≡ targets_in (option_map (λ w. w.now) dest.entry) (words_of files.now)) }
{
    let mut targets = Vec::new(alloc);
    let Some(dest) = dest else {
        return Ok(targets);
    };
    'joining: for file in files {
        if !ends_with_slash(file.as_str()) {
            targets.push(in_folder(alloc, dest, file.as_str())?)?;
        }
    }
    Ok(targets)
}

/// Whether the value of an option is the path of a file.
fn is_path_option(name: &str) -> bool
    ensures { result ≡ list_any (bytes_eq name.now) path_options }
{
    match name {
        "plan" | "destfile" | "csv" | "exec" => true,
        _ => false,
    }
}

/// Puts words behind paths.
fn put_words<'t>(paths: &mut Vec<&'t str>, words: &'t [String]) -> Result<(), Memory>
    ensures { IfOk result (λ _. map (λ p. p.now) paths.new.items ≡ map (λ p. p.now) paths.old.items ++ words_of words.entry.now) }
{
    'putting: for word in words {
        paths.push(word.as_str())?;
    }
    Ok(())
}

/// Puts the values that are paths behind paths.
fn put_values<'t>(paths: &mut Vec<&'t str>, uses: &[Used<'t>]) -> Result<(), Memory>
    ensures { IfOk result (λ _. map (λ p. p.now) paths.new.items ≡ map (λ p. p.now) paths.old.items ++ path_values (map used_view uses.now)) }
{
    'putting: for used in uses {
        if is_path_option(used.name) {
            paths.push(used.value)?;
        }
    }
    Ok(())
}

/// The paths that words name: the files, the values that are paths, and these paths of the files in a folder.
pub fn named_paths<'t>(
    alloc: Global,
    uses: &[Used<'t>],
    files: &'t [String],
    targets: &'t [String],
) -> Result<Vec<&'t str>, Memory>
    ensures { IfOk result (λ paths. map (λ p. p.now) paths.items
        ≡ words_of files.entry.now ++ (path_values (map used_view uses.now) ++ words_of targets.entry.now)) }
{
    let mut paths = Vec::new(alloc);
    put_words(&mut paths, files)?;
    put_values(&mut paths, uses)?;
    put_words(&mut paths, targets)?;
    Ok(paths)
}

/// Whether no two of the texts are equal.
pub fn are_distinct(alloc: Global, texts: &[&str]) -> Result<bool, Memory>
    ensures { IfOk result (λ distinct. distinct ≡ are_distinct (map (λ t. t.now) texts.now)) }
{
    let mut seen = IndexSet::new(alloc);
    'seeing: for text in texts {
        let (_, is_new) = seen.insert_full(*text)?;
        if !is_new {
            return Ok(false);
        }
    }
    Ok(true)
}
