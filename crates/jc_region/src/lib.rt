//! Blocks of words in one piece of memory.
#![tactic(auto)]

mod region;

pub use region::{Block, Region};
