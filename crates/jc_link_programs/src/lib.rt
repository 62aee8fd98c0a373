//! Programs: class files that are linked.
#![tactic(auto)]

mod asked;
mod laws;
mod link_refusal;
mod linking;
mod own_bootstrap;
mod pairs;
mod probe_inits;
mod statics;

pub use laws::{each_file_has_one_link_reason, files_have_a_program_or_one_refusal};
pub use link_refusal::{LinkClash, LinkRefusal};
pub use linking::{link, link_or_clash};
