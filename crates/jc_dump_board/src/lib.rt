//! The probes of the classes of a program in words that threads share, and from which hits can be taken while threads hit.
#![tactic(auto)]

mod board;
mod seat;
mod steps;
mod taking;

pub use board::{DumpBoard, DumpSeat};
