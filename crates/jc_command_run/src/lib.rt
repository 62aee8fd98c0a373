//! The command `run`: it runs the cases of a run plan on class files, and writes which probes they hit and what they print.
#![tactic(auto)]

mod answer;
mod beginnings;
mod cases;
mod clash;
mod laws;
mod options;
mod planning;
mod plans;
mod prepare;
mod program;
mod records;
mod texts;

pub use answer::ran_writes;
pub use beginnings::line_without_entry;
pub use clash::link_stop;
pub use laws::{a_run_has_an_answer, a_run_has_one_answer};
pub use options::RunOptions;
pub use planning::{Planned, planned_program};
pub use plans::plan_of;
pub use prepare::prepare_run;
pub use program::{Ran, run_program};
pub use records::hit_store;
pub use texts::texts_of;
