//! Whole class files: their bodies and probes, or why they have none.
#![tactic(auto)]

mod again;
mod alone;
mod analysis;
mod attributes;
mod bodies;
mod bootstraps;
mod checks;
mod class;
mod class_walk;
mod constants;
mod described;
mod found;
mod instrumented;
mod kept;
mod known;
mod laws;
mod layouts;
mod looked;
mod looking;
mod members;
mod needs;
mod plans;
mod ready;
mod ready_class;
mod room;
mod states;
mod twin;
mod whole;
mod writing;

pub use analysis::analyse;
pub use bodies::named_bodies;
pub use class::is_wrong_version;
pub use class_walk::{ClassOutline, ClassWalk};
pub use instrumented::{
    each_class_has_one_reason, each_class_has_one_twin, each_pool_grows, reasons_are_in_order,
};
pub use known::PlannedMethod;
pub use laws::{each_class_has_an_analysis_or_a_reason, each_class_has_one_analysis_reason};
pub use whole::{Instrumented, instrument};
