//! Run plans, programs of class files, and the laws of both: what the crates jc_run_plans, jc_link_programs and jc_link_laws
//! give, by one name.
#![tactic(auto)]

pub use jc_link_laws::{
    each_instrumented_file_is_written, files_have_a_program_or_a_refusal,
    twins_fail_to_link_by_size_or_by_id, twins_link,
};
pub use jc_link_programs::{
    LinkRefusal, each_file_has_one_link_reason, files_have_a_program_or_one_refusal, link,
};
pub use jc_run_plans::{
    PlanRefusal, each_plan_fits, each_text_is_a_plan_or_has_a_first_unfit_line, read_plan,
};
