//! Worked examples of programs that run.
//!
//! Each law of an example holds by computation: the definitions give what was worked by hand from the JVM Specification, or
//! what a Java virtual machine gave.
#![tactic(auto)]

mod constants;
mod edges;
mod insns;
mod programs;
mod runs;

pub use constants::{
    worked_bootstraps, worked_both_ways, worked_casts, worked_constant, worked_constant_checks,
    worked_constant_threads, worked_fetches,
};
pub use edges::{
    worked_calls_and_throws, worked_either_way, worked_loop, worked_stands, worked_switch,
};
pub use insns::{
    worked_calls, worked_elements, worked_handlers, worked_ints, worked_jumps, worked_locals,
    worked_longs, worked_moves, worked_outside, worked_prints, worked_probes, worked_static_fields,
    worked_throwables,
};
pub use programs::{worked_probed_programs, worked_programs, worked_values_on_a_stack};
pub use runs::{
    worked_absolute_value, worked_arrays, worked_catch, worked_choice, worked_countdown,
    worked_divisions, worked_either_way_probes, worked_entries, worked_few_calls,
    worked_lost_update, worked_many_calls, worked_stopped_threads, worked_turns,
};
