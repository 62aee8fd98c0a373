//! Workers that run the cases of a run plan beside each other.
#![tactic(auto)]

mod alone;
mod case_seat;
mod claim_steps;
mod claims;
mod drawn;
mod gate;
mod plan_runner;
mod pool;
mod results;
mod runner;
mod running;
mod sink;

pub use alone::run_alone;
pub use case_seat::CaseSeat;
pub use claims::{Claims, Drawer};
pub use gate::{Gate, OpenGate};
pub use plan_runner::{PlanRunner, entries_of, probe_counts};
pub use pool::{Drew, Turn, Work, deal, take_turn};
pub use results::{all_ends, collect, no_ends};
pub use runner::CaseRunner;
pub use running::run_cases;
pub use sink::{Place, SeatSink};
