//! Worlds of cases whose threads take locks, and the laws of their turns and runs: what the crates jc_monitor_model,
//! jc_monitor_world, jc_monitor_runs and jc_monitor_laws give, by one name.
#![tactic(auto)]

pub use jc_monitor_laws::same_monitored;
pub use jc_monitor_model::idle_turns_change_nothing;
pub use jc_monitor_runs::equal_programs_run_alike_with_locks;
pub use jc_monitor_world::MonitorWorld;
