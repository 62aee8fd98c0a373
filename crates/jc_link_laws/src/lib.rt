//! Laws of instrumented class files that are linked.
#![tactic(auto)]

mod laws;

pub use laws::{
    each_instrumented_file_is_written, files_have_a_program_or_a_refusal,
    twins_fail_to_link_by_size_or_by_id, twins_link,
};
