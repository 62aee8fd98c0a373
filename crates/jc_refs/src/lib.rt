//! The reference check of programs and its laws: what the crates jc_refs_check and jc_refs_laws give, by one name.
#![tactic(auto)]

pub use jc_refs_check::{RefRefusal, check_refs};
pub use jc_refs_laws::{refs_kept, refs_sound};
