//! Laws of instrumented class files.
#![tactic(auto)]

mod laws;

pub use laws::{each_changed_file_is_a_twin_class, each_class_file_becomes_one};
