//! The words, read by clap: what it is told of the commands, and how the words spell what it finds.
ghost use Rattle.std.specs.Prelude.{◌≡◌, ◌<◌, ◌^◌, false, fold, length, map, option_map, IfOk};
ghost use Rattle.clap.specs.Simple.{with_rule};
ghost use Rattle.clap.specs.Words.{app_of, rule_of};
ghost use Rattle.clap.specs.declared.builder.command.Command.TheViews.{out-Command};
ghost use Rattle.jc_command_words.specs.Reader.{app_with, bare_app, file_rule, first_commands_app, flag_rule, jcov_app, more_commands_app, most_commands_app, option_rule, rule_for, with_option};
ghost use Rattle.jc_command_words.specs.Words.{words_of};
ghost use Rattle.jc_command_words.specs.Looks.{call_seen};
ghost use Rattle.jc_command_words.specs.Reads.{CallCut, MatchesIf};

use crate::name::{CommandName, is_flag, name_of};
use crate::scan::{Scanned, scan_found};
use clap::error::ErrorKind;
use clap::{Arg, ArgAction, ArgMatches, Command};
use jc_bytes::Memory;
use std::alloc::{AllocError, Global};

/// An option with a value.
fn option<'a>(alloc: Global, name: &'a str) -> Arg<'a>
    ensures rule { rule_of result ≡ option_rule name.entry.now }
    ensures local { result.global ≡ false }
{
    Arg::new(alloc, name).long(name).action(ArgAction::Set)
}

/// An option without a value: its use counts as one with an empty value.
fn flag<'a>(alloc: Global, name: &'a str) -> Arg<'a>
    ensures rule { rule_of result ≡ flag_rule name.entry.now }
    ensures local { result.global ≡ false }
{
    option(alloc, name).num_args(0).default_missing_value("")
}

/// An option with a value, or a flag.
fn any_option<'a>(alloc: Global, name: &'a str) -> Arg<'a>
    ensures rule { rule_of result ≡ rule_for name.entry.now }
    ensures local { result.global ≡ false }
{
    if is_flag(name) {
        flag(alloc, name)
    } else {
        option(alloc, name)
    }
}

/// The files, one or more.
fn files<'a>(alloc: Global) -> Arg<'a>
    ensures rule { rule_of result ≡ file_rule }
    ensures local { result.global ≡ false }
{
    Arg::new(alloc, "FILE").num_args(1..)
}

/// The command, told of these options and of the files.
fn told<'a>(
    alloc: Global,
    command: Command<'a>,
    options: &[&'a str],
) -> Result<Command<'a>, AllocError>
    requires { (out-Command command).has_globals ≡ false }
    ensures app { IfOk result (λ c. app_of c
        ≡ with_rule (fold with_option (app_of command.entry) (map (λ o. o.now) options.now)) file_rule) }
    ensures local { IfOk result (λ c. (out-Command c).has_globals ≡ false) }
{
    match options {
        [] => command.arg(files(alloc)),
        [first, behind @ ..] => {
            let command = command.arg(any_option(alloc, *first))?;
            told(alloc, command, behind)
        }
    }
}

/// The command of this name, with these options and with files.
fn command<'a>(alloc: Global, name: &'a str, options: &[&'a str]) -> Result<Command<'a>, AllocError>
    ensures app { IfOk result (λ c. app_of c ≡ app_with name.entry.now (map (λ o. o.now) options.now)) }
    ensures local { IfOk result (λ c. (out-Command c).has_globals ≡ false) }
{
    told(alloc, Command::new(alloc, name), options)
}

fn bare<'a>(alloc: Global) -> Command<'a>
    ensures app { app_of result ≡ bare_app }
    ensures local { (out-Command result).has_globals ≡ false }
{
    Command::new(alloc, "jcov")
        .no_binary_name(true)
        .disable_help_flag(true)
        .disable_help_subcommand(true)
        .subcommand_required(true)
}

fn first_commands<'a>(alloc: Global) -> Result<Command<'a>, AllocError>
    ensures app { IfOk result (λ c. app_of c ≡ first_commands_app) }
    ensures local { IfOk result (λ c. (out-Command c).has_globals ≡ false) }
{
    let instrument = command(alloc, "instrument", &["dest"])?;
    let options = ["plan", "destfile", "workers", "dumps", "every", "monitors"];
    let run = command(alloc, "run", &options)?;
    let merge = command(alloc, "merge", &["destfile"])?;
    bare(alloc)
        .subcommand(instrument)?
        .subcommand(run)?
        .subcommand(merge)
}

fn more_commands<'a>(alloc: Global) -> Result<Command<'a>, AllocError>
    ensures app { IfOk result (λ c. app_of c ≡ more_commands_app) }
    ensures local { IfOk result (λ c. (out-Command c).has_globals ≡ false) }
{
    let report = command(alloc, "report", &["csv", "name", "exec"])?;
    let exec_info = command(alloc, "execinfo", &[])?;
    let class_info = command(alloc, "classinfo", &[])?;
    first_commands(alloc)?
        .subcommand(report)?
        .subcommand(exec_info)?
        .subcommand(class_info)
}

fn most_commands<'a>(alloc: Global) -> Result<Command<'a>, AllocError>
    ensures app { IfOk result (λ c. app_of c ≡ most_commands_app) }
    ensures local { IfOk result (λ c. (out-Command c).has_globals ≡ false) }
{
    let options = [
        "dest", "plan", "destfile", "csv", "workers", "name", "sample",
    ];
    let cover = command(alloc, "cover", &options)?;
    let refs = command(alloc, "refs", &[])?;
    more_commands(alloc)?.subcommand(cover)?.subcommand(refs)
}

/// The command line: one level of commands, without help and version words.
fn jcov<'a>(alloc: Global) -> Result<Command<'a>, AllocError>
    ensures { IfOk result (λ c. app_of c ≡ jcov_app) }
{
    let lines = command(alloc, "lines", &["exec"])?;
    let check = command(alloc, "check", &["min", "exec"])?;
    most_commands(alloc)?.subcommand(lines)?.subcommand(check)
}

/// What clap finds in words, if it takes them.
fn matches_of<'a>(alloc: Global, words: &'a [String]) -> Result<Option<ArgMatches<'a>>, Memory>
    ensures { IfOk result (MatchesIf (words_of words.entry.now)) }
{
    let command = jcov(alloc)?;
    match command.try_get_matches_from(words) {
        Ok(matches) => Ok(Some(matches)),
        Err(error) => match error.kind() {
            ErrorKind::OutOfMemory => Err(Memory),
            _ => Ok(None),
        },
    }
}

/// A command's name, and the words behind it.
#[derive(Drop)]
pub struct CallWords<'a> {
    pub name: CommandName,
    pub words: Scanned<'a>,
}

/// Reads the words by clap, and cuts them into what it found. There is no answer where they are those of no call.
pub fn read_call<'a>(alloc: Global, words: &'a [String]) -> Result<Option<CallWords<'a>>, Memory>
    requires { length words.now < 2 ^ 32 }
    ensures { IfOk result (λ o. CallCut (words_of words.entry.now) (option_map call_seen o)) }
{
    let Some(matches) = matches_of(alloc, words)? else {
        return Ok(None);
    };
    let Some((_, found)) = matches.subcommand() else {
        return Ok(None);
    };
    let Some((first, rest)) = words.split_first() else {
        return Ok(None);
    };
    let Some(name) = name_of(first.as_str()) else {
        return Ok(None);
    };
    match scan_found(alloc, rest, found)? {
        Some(words) => Ok(Some(CallWords { name, words })),
        None => Ok(None),
    }
}
