//! The instrumented code of a method: its definition and its laws, and the methods that have no room for it.
#![tactic(auto)]

mod checks;
mod emitting;
mod frames;
mod image;
mod laws;
mod places;
mod segments;
mod stages;
mod straddling;
mod switches;
mod tables;
mod written;

pub use checks::{each_init_is_verified, each_twin_is_verified};
pub use emitting::emit;
pub use laws::{
    each_body_has_a_twin, each_emission_is_told, each_image_comes_soon, each_image_stands,
    each_probe_is_of_a_branch, each_probe_is_once, each_row_is_kept, each_twin_goes_on,
    each_twin_has_its_marks, each_twin_is_known, each_twin_is_seen, each_twin_is_told,
    each_unchanged_body_goes_on, each_wide_frame_is_told, each_wide_twin_is_wide,
};
pub use places::Places;
pub use stages::{EmittedCode, EmittedParts, PlacedBody, emit_code, emit_parts};
pub use straddling::straddles;
pub use tables::MovedTables;
