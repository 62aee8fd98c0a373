//! The commands `lines` and `check`: the lines of classes with their statuses, and rules on how much has to be covered.
#![tactic(auto)]

mod check;
mod class_text;
mod laws;
mod lines;
mod rule_text;

pub use check::{Checked, prepare_check};
pub use laws::{checks_have_an_answer, lines_have_an_answer};
pub use lines::prepare_lines;
