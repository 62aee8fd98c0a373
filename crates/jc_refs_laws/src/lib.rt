//! What the reference check says of the runs of programs, and of their twins.
#![tactic(auto)]

mod laws;

pub use laws::{refs_kept, refs_sound};
