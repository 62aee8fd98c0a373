//! The world of a program that runs: its threads, what they share, and what each turn makes of it (JVM Specification 2.5,
//! 2.6, 2.11, 6.5).
#![tactic(auto)]

mod arithmetic;
mod laws;

pub use arithmetic::{
    division_rounds_towards_zero, longs_are_compared, numbers_are_narrowed,
    shift_counts_are_masked, sums_wrap_around,
};
pub use laws::{
    a_thread_that_has_ended_stays, a_turn_is_what_the_instruction_does,
    each_case_begins_in_a_world_that_fits,
};
