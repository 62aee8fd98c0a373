//! The command `cover`: it instruments class files into a folder, runs what it wrote of them, and reports on the files as they
//! were read.
#![tactic(auto)]

mod accepted;
mod accepted_items;
mod covering;
mod entries;
mod files;
mod linking;
mod options;
mod results;
mod running;

pub use covering::cover;
pub use options::CoverOptions;
