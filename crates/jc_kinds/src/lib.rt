//! The types of values at each instruction of a method, and whether they fit where control goes on (JVM
//! Specification 4.10.1).
#![tactic(auto)]

mod check;
mod fits;
mod frames;
mod guarded;
mod laws;
mod missing;
mod rows;
mod runs;
mod walk;

pub use check::{check_body, states};
pub use jc_kinds_after::after;
pub use laws::{
    each_body_passes_or_is_refused, more_names_change_no_state, states_shift, the_tests_decide,
};
