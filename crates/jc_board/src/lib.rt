//! The probes of the classes of a program in words that threads share.
#![tactic(auto)]

mod board;
mod closing;
mod known;
mod layout;
mod seat;
mod steps;

pub use board::{Board, Seat};
pub use closing::copy;
pub use known::KnownHits;
pub use layout::{lay, room_for};
