//! The command `refs`: it links class files as `run` does, and says whether each reference suits what takes it.
#![tactic(auto)]

mod answer;
mod laws;
mod prepare;

pub use laws::refs_have_an_answer;
pub use prepare::prepare_refs;
