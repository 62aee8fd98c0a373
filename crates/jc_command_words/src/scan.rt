//! The words behind a command's name, cut into uses of options and files as clap found them.
ghost use Rattle.std.specs.Prelude.{◌≡◌, ◌∷◌, ◌++◌, IfOk, map};
ghost use Rattle.std.specs.Option.{option_map};
ghost use Rattle.std.specs.Str.{bytes_eq};
ghost use Rattle.clap.specs.Matches.{found_of};
ghost use Rattle.jc_command_words.specs.Words.{words_of};
ghost use Rattle.jc_command_words.specs.Spelled.{joined_word, named_word, options_found, spelled, tail_at, use_at};
ghost use Rattle.jc_command_words.specs.Looks.{scan_view, tail_view};

use crate::name::is_flag;
use clap::ArgMatches;
use jc_bytes::Memory;
use std::alloc::Global;

/// One use of an option. A flag's value is empty.
#[derive(Drop)]
pub struct Used<'a> {
    pub name: &'a str,
    pub value: &'a str,
    pub joined: bool,
}

/// Words, cut into uses of options, perhaps `--`, and files.
#[derive(Drop)]
pub struct Scanned<'a> {
    pub uses: Vec<Used<'a>>,
    pub dash: bool,
    pub files: &'a [String],
}

/// Whether the word is `--name`.
fn is_named(word: &str, name: &str) -> bool
    ensures { result ≡ bytes_eq word.now (named_word name.now) }
{
    match word.as_bytes() {
        [b'-', b'-', body @ ..] => body == name.as_bytes(),
        _ => false,
    }
}

/// Whether the text is `name=value`.
fn joins(text: &[u8], name: &[u8], value: &[u8]) -> bool
    ensures { result ≡ bytes_eq text.now (name.now ++ 61 ∷ value.now) }
{
    let [wanted, names @ ..] = name else {
        return match text {
            [b'=', given @ ..] => given == value,
            _ => false,
        };
    };
    let [first, behind @ ..] = text else {
        return false;
    };
    if *first != *wanted {
        return false;
    }
    joins(behind, names, value)
}

/// Whether the word is `--name=value`.
fn is_joined(word: &str, name: &str, value: &str) -> bool
    ensures { result ≡ bytes_eq word.now (joined_word name.now value.now) }
{
    match word.as_bytes() {
        [b'-', b'-', body @ ..] => joins(body, name.as_bytes(), value.as_bytes()),
        _ => false,
    }
}

/// Whether the words begin with a joined use of the option with this value, or with a use of two words or of a flag; and the
/// words behind it.
fn use_at<'w>(words: &'w [String], name: &str, value: &str) -> Option<(bool, &'w [String])>
    ensures { option_map (λ p. (p.0, words_of p.1.now)) result ≡ use_at name.now value.now (words_of words.entry.now) }
{
    let (word, behind) = words.split_first()?;
    if is_joined(word.as_str(), name, value) {
        return Some((true, behind));
    }
    if !is_named(word.as_str(), name) {
        return None;
    }
    if is_flag(name) {
        return Some((false, behind));
    }
    let (next, behind) = behind.split_first()?;
    if next.as_str() == value {
        Some((false, behind))
    } else {
        None
    }
}

/// Whether `--` comes first, and the files.
fn tail_at<'w>(words: &'w [String]) -> (bool, &'w [String])
    ensures { tail_view result.0 result.1.now ≡ tail_at (words_of words.entry.now) }
{
    match words {
        [first, files @ ..] if first.as_str() == "--" => (true, files),
        files => (false, files),
    }
}

/// Cuts the words behind a command's name into what clap found: each option with its value in their order, perhaps `--`,
/// and files. There is no answer where the words spell something else.
pub fn scan_found<'a>(
    alloc: Global,
    words: &'a [String],
    found: &ArgMatches<'a>,
) -> Result<Option<Scanned<'a>>, Memory>
    ensures { IfOk result (λ o. option_map scan_view o
        ≡ spelled (options_found (found_of found.now)) (words_of words.entry.now)) }
{
    let mut uses = Vec::new(alloc);
    let mut rest = words;
    'spelling: for name in found.ids() {
        if name == "FILE" {
            continue;
        }
        let Some(value) = found.get_str(name) else {
            return Ok(None);
        };
        let Some((joined, behind)) = use_at(rest, name, value) else {
            return Ok(None);
        };
        uses.push(Used {
            name,
            value,
            joined,
        })?;
        rest = behind;
    }
    let (dash, files) = tail_at(rest);
    Ok(Some(Scanned { uses, dash, files }))
}
