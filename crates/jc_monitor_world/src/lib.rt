//! The world of a case whose threads take locks, its turns and its runs (JVM Specification 2.11.10).
#![tactic(auto)]

mod frames;
mod lock;
mod locks;
mod monitor_world;
mod next_turn;
mod runs;
mod turns;

pub use monitor_world::MonitorWorld;
