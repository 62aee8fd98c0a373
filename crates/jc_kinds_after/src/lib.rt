//! The types of values after an instruction (JVM Specification 4.10.1.9, 6.5).
#![tactic(auto)]

mod arrays;
mod by_opcode;
mod effect;
mod effects;
mod elements;
mod form;
mod laws;
mod locals;
mod moves;
mod objects;
mod state_after;
mod step;
mod table;
mod uses;
mod want;

pub use effects::Effects;
pub use laws::{a_step_shifts, each_array_has_a_name};
pub use state_after::after;
pub use want::Want;
