//! The top call: all that the program `jcov` does, over files and texts that it is handed.
#![tactic(auto)]

mod commands;
mod complete;
mod laws;
mod rules;
mod run;

pub use jc_command_work::{Fault, Status};
pub use jc_workers::{Gate, OpenGate};
pub use laws::{
    a_command_but_cover_that_refuses_has_written_nothing, each_run_ends_as_its_work,
    each_run_leaves_a_front_of_its_work, each_status_has_its_cause,
    usage_comes_for_words_of_no_form, want_of_memory_leaves_what_was_or_first_writes,
    words_have_one_work, words_without_dumps_have_their_work_whatever_is_taken,
};
pub use run::run_tool;
