//! The bodies of methods (JVM Specification 4.7.3, 4.9), with instruction numbers in place of offsets.
#![tactic(auto)]

mod attributes;
mod checks;
mod code;
mod coded;
mod faults;
mod form;
mod items;
mod laws;
mod method;
mod places;
mod reading;
mod stack_map;
mod standing;
mod table_item;
mod tables;
mod texts;
mod uses;

pub use attributes::has_name;
pub use laws::{each_method_has_one_answer, each_stack_map_has_frames_or_a_fault};
pub use reading::read_body;
