//! The Code attributes of instrumented methods as bytes (JVM Specification 4.7.3).
#![tactic(auto)]

mod attributes;
mod code;
mod init;
mod laws;
mod merging;
mod numbers;
mod parts;
mod tables;
mod texts;

pub use code::{CodePlaces, CodeTables, NamedFrames, write_code, write_laid};
pub use init::{AddedPlaces, write_added};
pub use laws::{each_layout_can_be_written, first_places};
pub use merging::{merged_frames, used_frames};
pub use texts::first_text;
