//! Run plans: which cases are to run, read from text.
#![tactic(auto)]

mod begun;
mod plan_laws;
mod plan_lines;
mod plan_numbers;
mod plan_reading;
mod plan_refusal;
mod plan_words;

pub use plan_laws::{each_plan_fits, each_text_is_a_plan_or_has_a_first_unfit_line};
pub use plan_reading::read_plan;
pub use plan_refusal::PlanRefusal;
