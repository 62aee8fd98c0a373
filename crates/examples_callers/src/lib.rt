//! Callers of the libraries: small functions of use, each with a contract that follows from the clauses of the calls that it
//! makes. The pages of `docs/callers` show them.
#![tactic(auto)]

mod body;
mod class_files;
mod code;
mod coverage;
mod execution;
mod machine;
mod monitor;
mod pool;
mod workers;

pub use body::method_size;
pub use class_files::class_name;
pub use code::return_count;
pub use coverage::counters_by;
pub use execution::merged;
pub use machine::{counts, text_of_case};
pub use monitor::text_of_monitored_case;
pub use pool::{CallPlaces, add_call};
pub use workers::ends_and_hits;
