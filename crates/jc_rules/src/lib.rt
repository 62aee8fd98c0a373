//! The lines of a class with their statuses, totals over classes, and rules on how much has to be covered (JaCoCo's
//! documentation on coverage counters).
#![tactic(auto)]

mod adding;
mod laws;
mod listing;
mod placed;
mod rule;
mod span;
mod status;
mod total;

pub use adding::totals;
pub use laws::{
    each_class_has_a_line_list, each_class_has_one_line_list, each_line_has_one_status,
};
pub use listing::line_list;
pub use rule::{CounterKind, Rule, holds};
pub use status::{LineState, LineStatus};
pub use total::{Total, Totalled, Totals};
