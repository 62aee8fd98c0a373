//! The command `run --monitors`: it runs the cases of a run plan on class files, one after another, whose threads take locks, and
//! writes which probes they hit and what they print.
#![tactic(auto)]

mod answer;
mod cases;
mod laws;
mod options;
mod prepare;
mod program;

pub use laws::a_monitored_run_has_an_answer;
pub use options::MonitoredOptions;
pub use prepare::prepare_monitored;
pub use program::run_monitored;
