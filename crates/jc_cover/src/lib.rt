//! Which edges of a class are covered by hits of its probes, and the counters of a class (JaCoCo's
//! documentation on control flow and on coverage counters).
#![tactic(auto)]

mod counting;
mod coverage;
mod covering;
mod laws;
mod lines;
mod marking;
mod planned;
mod sums;
mod tally;

pub use counting::counters;
pub use coverage::{Count, Counters, Coverage};
pub use covering::covered;
pub use laws::{
    each_chain_follows_the_rule, each_class_has_one_coverage, each_counter_has_its_whole,
    each_counter_is_small, each_coverage_tells_what_is_covered, each_covered_edge_is_entered,
    each_line_is_found, each_mark_is_a_covered_instruction,
};
pub use tally::Tally;
