//! The command `run --dumps`: it runs the cases of a run plan on class files, writes dumps of which probes they hit, and what they
//! print.
#![tactic(auto)]

mod answer;
mod laws;
mod options;
mod paths;
mod prepare;
mod program;
mod writes;

pub use laws::{a_dumped_run_has_one_answer_by_its_dumps, each_run_plan_has_dumps};
pub use options::DumpOptions;
pub use paths::dump_paths;
pub use prepare::prepare_dumped;
pub use program::{DumpedRun, run_dumped};
