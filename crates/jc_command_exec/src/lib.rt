//! The commands on execution data: what they read, and what they write of it.
#![tactic(auto)]

mod exec_info;
mod gathered;
mod info_lines;
mod lines;
mod listing;
mod merge;

pub use exec_info::prepare_exec_info;
pub use gathered::{Gathered, read_alone, read_on};
pub use listing::{Listing, put_listing};
pub use merge::prepare_merge;
