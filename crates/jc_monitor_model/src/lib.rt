//! The world of a program whose threads take locks, as definitions: who holds which lock, and what each turn makes of the world and
//! of the locks (JVM Specification 2.11.10; Java Language Specification 17.1).
#![tactic(auto)]

mod laws;

pub use laws::idle_turns_change_nothing;
