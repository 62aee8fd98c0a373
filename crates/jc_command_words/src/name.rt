//! The commands, by their names, and the options of each.
ghost use Rattle.std.specs.Prelude.{◌≡◌, map};
ghost use Rattle.jc_command_words.specs.Forms.{named, options_of};
ghost use Rattle.jc_command_words.specs.Words.{is_flag};

/// The name of a command.
#[derive(Clone, Copy, Debug, PartialEq, Eq)]
pub enum CommandName {
    Instrument,
    Run,
    Merge,
    Report,
    ExecInfo,
    ClassInfo,
    Cover,
    Refs,
    Lines,
    Check,
}

/// The command that a word names.
pub fn name_of(word: &str) -> Option<CommandName>
    ensures { result ≡ named word.now }
{
    match word {
        "instrument" => Some(CommandName::Instrument),
        "run" => Some(CommandName::Run),
        "merge" => Some(CommandName::Merge),
        "report" => Some(CommandName::Report),
        "execinfo" => Some(CommandName::ExecInfo),
        "classinfo" => Some(CommandName::ClassInfo),
        "cover" => Some(CommandName::Cover),
        "refs" => Some(CommandName::Refs),
        "lines" => Some(CommandName::Lines),
        "check" => Some(CommandName::Check),
        _ => None,
    }
}

/// Whether the name is that of a flag, an option without a value.
pub fn is_flag(name: &str) -> bool
    ensures { result ≡ is_flag name.now }
{
    name == "monitors"
}

/// The options of a command, without their `--`.
pub fn options_of(name: CommandName) -> &'static [&'static str]
    ensures { map (λ o. o.now) result.now ≡ options_of name }
{
    match name {
        CommandName::Instrument => &["dest"],
        CommandName::Run => &["plan", "destfile", "workers", "dumps", "every", "monitors"],
        CommandName::Merge => &["destfile"],
        CommandName::Report => &["csv", "name", "exec"],
        CommandName::ExecInfo => &[],
        CommandName::ClassInfo => &[],
        CommandName::Cover => &["dest", "plan", "destfile", "csv", "workers", "name"],
        CommandName::Refs => &[],
        CommandName::Lines => &["exec"],
        CommandName::Check => &["min", "exec"],
    }
}
