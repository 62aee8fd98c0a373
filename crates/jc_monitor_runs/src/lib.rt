//! Runs of programs whose threads take locks: what is printed and hit, and which programs run alike (JVM Specification 2.11.10).
#![tactic(auto)]

mod laws;

pub use laws::equal_programs_run_alike_with_locks;
