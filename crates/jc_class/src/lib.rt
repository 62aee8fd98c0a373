//! Class files (JVM Specification 4.1): read, written back, and their ids.
#![tactic(auto)]

mod class_file;
mod constant;
mod id;
mod item;
mod laws;
mod parts;
mod read;
mod write;

pub use class_file::{Attribute, ClassFile, Member};
pub use id::class_id;
pub use laws::{each_class_has_one_text, each_constant_has_a_place, each_text_is_read_or_refused};
pub use parts::read_attributes;
pub use read::read_class;
pub use write::write_class;
