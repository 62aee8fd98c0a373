//! Where instructions stand in code, and how wide their jumps are.
#![tactic(auto)]

mod choice;
mod far;
mod jumps;
mod laws;
mod layouts;
mod offsets;
mod shift;
mod widening;

pub use laws::{
    each_emission_can_be_laid, each_laid_body_has_a_twin, each_laid_body_is_spelled,
    each_layout_is_chosen,
};
pub use layouts::{Laid, layout, layout_code};
