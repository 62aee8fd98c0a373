//! Stack map tables (JVM Specification 4.7.4).
#![tactic(auto)]

mod building;
mod fault;
mod full_classes;
mod full_frames;
mod items;
mod laws;
mod method;
mod read;
mod reading;
mod running;
mod walk;

pub use fault::frame_fault;
pub use full_classes::take_classes;
pub use full_frames::{write_full, write_taken};
pub use items::{FrameForm, FrameItem, TypeForm, TypeItem};
pub use jc_methods::entry_state;
pub use laws::{
    a_frame_says_something_or_has_a_fault, a_pool_takes_classes_or_is_full,
    each_table_has_frames_or_a_fault, frames_of_a_body_can_be_written,
    frames_of_a_table_are_well_made, full_frames_are_read_back, written_frames_are_read_back,
};
pub use read::read_frames;
