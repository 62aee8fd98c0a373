//! The reference check of programs.
//!
//! The kind check of class files says which operands are references, but not of which class. This check compares classes by their
//! names, at each instruction of each method that threads may enter.
#![tactic(auto)]

mod caught;
mod check;
mod classes;
mod columns;
mod flow;
mod frames;
mod guards;
mod handlers;
mod known;
mod members;
mod operands;
mod ref_refusal;
mod suits;
mod walk;

pub use check::check_refs;
pub use ref_refusal::RefRefusal;
