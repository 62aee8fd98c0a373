//! Whether words that were cut are of the form of a command.
ghost use Rattle.std.specs.Prelude.{◌≡◌, IfOk, map, string_bytes};
ghost use Rattle.std.specs.Option.{option_map};
ghost use Rattle.std.specs.List.{list_all, list_any};
ghost use Rattle.std.specs.Str.{bytes_eq};
ghost use Rattle.jc_command_words.specs.Words.{is_plain, is_valued, value_of, words_of};
ghost use Rattle.jc_command_words.specs.Paths.{are_distinct, are_relative, wants_relative};
ghost use Rattle.jc_command_words.specs.Forms.{options_of};
ghost use Rattle.jc_command_words.specs.Decide.{are_apart, is_call, is_stated, values_of};
ghost use Rattle.jc_command_words.specs.Looks.{scan_view, used_view};
ghost use Rattle.jc_command_words.specs.Seen.{given_seen, texts_seen};

use crate::command::Given;
use crate::dumps::has_dump;
use crate::name::{CommandName, is_flag, options_of};
use crate::paths::{all_relative, are_distinct, named_paths, targets_in};
use crate::scan::{Scanned, Used};
use jc_bytes::Memory;
use std::alloc::Global;

/// Whether this is the name of an option.
fn is_option(options: &[&str], name: &str) -> bool
    ensures { result ≡ list_any (λ o. bytes_eq name.now o.now) options.now }
{
    options.iter().any(|o| name == *o)
}

/// Whether each use is of an option.
fn all_known(options: &[&str], uses: &[Used<'_>]) -> bool
    ensures { result ≡ list_all (λ u. list_any (λ o. bytes_eq u.name.now o.now) options.now) uses.now }
{
    uses.iter().all(|u| is_option(options, u.name))
}

/// Whether an option is used.
fn is_used(uses: &[Used<'_>], name: &str) -> bool
    ensures { result ≡ list_any (λ u. bytes_eq name.now u.name.now) uses.now }
{
    uses.iter().any(|u| name == u.name)
}

/// Whether no option is used twice. There are few uses of options that differ.
fn once(uses: &[Used<'_>]) -> bool
    ensures { result ≡ are_distinct (map (λ u. u.name.now) uses.now) }
{
    let Some((first, rest)) = uses.split_first() else {
        return true;
    };
    if is_used(rest, first.name) {
        false
    } else {
        once(rest)
    }
}

/// Whether a word is neither empty nor begins with `-`.
pub fn is_plain(word: &str) -> bool
    ensures { result ≡ is_plain word.now }
{
    !matches!(word.as_bytes(), [] | [b'-', ..])
}

/// Whether the value is such a word, or, of a flag, there is none.
fn is_valued(used: &Used<'_>) -> bool
    ensures { result ≡ is_valued (used_view used.now) }
{
    if is_flag(used.name) {
        !used.joined && used.value.is_empty()
    } else {
        is_plain(used.value)
    }
}

/// Whether each value is so.
fn are_valued(uses: &[Used<'_>]) -> bool
    ensures { result ≡ list_all (λ u. is_valued (used_view u)) uses.now }
{
    uses.iter().all(|used| is_valued(used))
}

/// Whether each file is such a word.
fn files_are_plain(files: &[String]) -> bool
    ensures { result ≡ list_all (λ f. is_plain (string_bytes f)) files.now }
{
    files.iter().all(|f| is_plain(f.as_str()))
}

/// Whether words are of the form of a command with these options.
pub fn is_call(name: CommandName, words: &Scanned<'_>) -> bool
    ensures { result ≡ is_call (options_of name) (scan_view words.now) }
{
    let uses = words.uses.as_slice();
    if !all_known(options_of(name), uses) {
        return false;
    }
    let once = once(uses);
    let values = are_valued(uses);
    let files = files_are_plain(words.files);
    once & (values & (files & !words.files.is_empty()))
}

/// What an option is given.
pub fn value_of<'a>(uses: &[Used<'a>], name: &str) -> Option<&'a str>
    ensures { option_map (λ w. w.now) result ≡ value_of (map used_view uses.now) name.now }
{
    'seeking: for used in uses {
        if used.name == name {
            return Some(used.value);
        }
    }
    None
}

/// The files, as texts.
fn file_texts<'a>(alloc: Global, files: &'a [String]) -> Result<Vec<&'a str>, Memory>
    ensures { IfOk result (λ texts. texts_seen texts.items ≡ words_of files.entry.now) }
{
    let mut texts = Vec::with_capacity(alloc, files.len())?;
    'taking: for file in files {
        texts.push(file.as_str())?;
    }
    Ok(texts)
}

/// What the options are given, and the files.
pub fn given_in<'a>(alloc: Global, words: &Scanned<'a>) -> Result<Given<'a>, Memory>
    ensures { IfOk result (λ given. given_seen given ≡ values_of (scan_view words.now).uses (scan_view words.now).files) }
{
    let files = file_texts(alloc, words.files)?;
    Ok(Given {
        dest: value_of(&words.uses, "dest"),
        plan: value_of(&words.uses, "plan"),
        destfile: value_of(&words.uses, "destfile"),
        csv: value_of(&words.uses, "csv"),
        workers: value_of(&words.uses, "workers"),
        dumps: value_of(&words.uses, "dumps"),
        every: value_of(&words.uses, "every"),
        monitors: value_of(&words.uses, "monitors").is_some(),
        name: value_of(&words.uses, "name"),
        exec: value_of(&words.uses, "exec"),
        min: value_of(&words.uses, "min"),
        files,
    })
}

/// Whether the files of a command are to be relative.
fn wants_relative(name: CommandName) -> bool
    ensures { result ≡ wants_relative name }
{
    match name {
        CommandName::Instrument => true,
        CommandName::Run => true,
        CommandName::Merge => false,
        CommandName::Report => false,
        CommandName::ExecInfo => false,
        CommandName::ClassInfo => true,
        CommandName::Cover => true,
        CommandName::Refs => true,
        CommandName::Lines => false,
        CommandName::Check => false,
    }
}

/// Whether the files of a command are relative, where they are to be.
fn are_relative(name: CommandName, files: &[String]) -> bool
    ensures { result ≡ are_relative name (words_of files.now) }
{
    !wants_relative(name) || all_relative(files)
}

/// Whether no two of the paths that words name are equal, and none is that of a dump.
fn are_apart(alloc: Global, words: &Scanned<'_>) -> Result<bool, Memory>
    ensures { IfOk result (λ apart. apart ≡ are_apart (scan_view words.now).uses (scan_view words.now).files) }
{
    let dest = value_of(&words.uses, "dest");
    let targets = targets_in(alloc, dest, words.files)?;
    let paths = named_paths(alloc, &words.uses, words.files, &targets)?;
    if !are_distinct(alloc, &paths)? {
        return Ok(false);
    }
    let dumps = value_of(&words.uses, "dumps");
    let has_dump = has_dump(alloc, dumps, &paths)?;
    Ok(!has_dump)
}

/// Whether words that were cut are those of a command, but for the options that must be there and the numbers among them.
pub fn is_stated(alloc: Global, name: CommandName, words: &Scanned<'_>) -> Result<bool, Memory>
    ensures { IfOk result (λ stated. stated ≡ is_stated name (scan_view words.now)) }
{
    if !is_call(name, words) {
        return Ok(false);
    }
    if !are_relative(name, words.files) {
        return Ok(false);
    }
    are_apart(alloc, words)
}
