//! The machine: the world of a case, its turns and its runs.
#![tactic(auto)]

mod calling;
mod case_ends;
mod first_threads;
mod integral_fields;
mod locked_turns;
mod running;
mod runs;
mod seen;
mod sink;
mod standing;
mod thread_stack;
mod thread_turn;
mod throwing;
mod turns;
mod world;

pub use jc_programs::{ProbeSink, entry};
pub use runs::{drawn_thread, next_drawn};
pub use sink::BitSink;
pub use standing::{Callee, Standing, Top};
pub use world::World;
