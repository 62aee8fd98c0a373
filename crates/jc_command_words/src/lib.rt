//! The words of the command line: the command that they call, or that they are of no stated form.
#![tactic(auto)]

mod call;
mod command;
mod dumps;
mod name;
mod number;
mod paths;
mod read;
mod reader;
mod rules;
mod scan;
mod words;

pub use command::Command;
pub use jc_paths::FileWord;
pub use read::{Usage, each_list_of_words_calls_one_command, read_words};
pub use rules::rules_in;
pub use words::{
    CheckWords, CoverWords, InstrumentWords, LinesWords, MergeWords, ReportWords, RunMode, RunWords,
};
