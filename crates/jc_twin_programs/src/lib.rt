//! The twin of a program: the same classes, some of them with their probes.
#![tactic(auto)]

mod checks;
mod programs;

pub use checks::each_twin_program_is_verified;
pub use programs::{each_body_is_owned, each_body_is_seen, each_class_has_its_pair};
