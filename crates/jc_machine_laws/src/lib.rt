//! Laws of the turns and runs of a program.
#![tactic(auto)]

mod laws;

pub use laws::{
    each_hit_is_of_a_probe, each_stack_has_room, each_turn_keeps_a_world_fitting,
    each_world_of_a_run_fits, effects_keep_types, equal_programs_run_alike,
    turns_of_monitors_keep_a_world_fitting,
};
