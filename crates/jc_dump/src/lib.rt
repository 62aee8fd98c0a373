//! Dumps with reset: the hits of a run plan's cases, taken while cases run.
#![tactic(auto)]

mod in_order;
mod running;
mod seat;
mod sink;

pub use running::{Dumped, run_dumping};
pub use sink::{DumpSink, Origin};
