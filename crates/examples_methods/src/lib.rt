//! Worked examples, and slow programs straight from the definitions, for tests.
//!
//! Each law of an example holds by computation: the definitions give what was worked by hand from the JVM Specification
//! and from JaCoCo's documentation.
#![tactic(auto)]

mod coverage;
mod edges;
mod reports;
mod slow_union;
mod twins;

pub use coverage::{worked_counters, worked_lines, worked_values};
pub use edges::{worked_counts, worked_edges, worked_plans};
pub use reports::{
    worked_classes, worked_fields, worked_files, worked_order, worked_packages, worked_texts,
};
pub use slow_union::{text, union};
pub use twins::{
    worked_abs, worked_abs_by_constant, worked_catches, worked_counts_down, worked_ids,
    worked_jumps_to_next, worked_second_wide, worked_shift, worked_switches, worked_tables,
    worked_wide,
};
