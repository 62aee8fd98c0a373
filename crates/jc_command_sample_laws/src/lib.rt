//! Laws of `cover --sample`: [`each_sample_is_done`] is the promise of this crate; the other is a step.
#![tactic(auto)]

mod laws;

pub use laws::{each_sample_is_a_class, each_sample_is_done};
