//! The edges of a method's flow graph, and where its probes stand.
#![tactic(auto)]

mod branch;
mod class_laws;
mod edge_list;
mod entries;
mod laws;
mod lines;
mod planning;

pub use branch::{Branch, Way, put_branches};
pub use class_laws::{
    each_analysed_class_is_planned, each_branch_is_planned,
    each_edge_without_a_probe_is_the_one_way, each_id_is_of_one_body, each_id_is_of_one_edge,
    each_outcome_chooses_a_branch,
};
pub use edge_list::edges;
pub use laws::{
    each_id_is_its_own, each_line_is_tested, each_plan_is_one, each_plan_is_read,
    each_position_is_of_one_branch, each_target_is_once, each_way_is_tested,
};
pub use planning::plan;
