//! Instructions of the Java virtual machine as bytes: decoding, sizes and encoding.
#![tactic(auto)]

mod decoding;
mod encoding;
mod item;
mod laws;
mod operands;
mod places;
mod size;
mod switch;
mod write;

pub use decoding::{Decoded, decode};
pub use encoding::encode;
pub use laws::{
    each_code_is_spelled_or_refused, each_image_begins_where_its_instruction_does, one_code,
    one_spelling,
};
pub use size::size_of;
