//! The text that is printed of a case.
#![tactic(auto)]

mod ends;
mod statics;
mod text;

pub use text::case_text;
