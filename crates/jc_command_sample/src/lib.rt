//! The sample of `cover`: a class of so many methods is instrumented, run and reported on in memory.
#![tactic(auto)]

mod coverage;
mod file;
mod laws;
mod line;
mod plan;
mod work;

pub use laws::{
    a_sample_that_is_not_done_wrote_nothing, each_sample_ends_by_itself, each_sample_has_one_work,
};
pub use work::{sample, sample_line};
