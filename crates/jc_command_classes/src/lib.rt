//! The commands on class files: what they read, and what they write of it.
#![tactic(auto)]

mod class_info;
mod class_report;
mod covered_class;
mod each;
mod exec_data;
mod instrument;
mod kept;
mod lines;
mod options;
mod report;

pub use class_info::prepare_class_info;
pub use class_report::look_at_all;
pub use covered_class::{CoveredClass, look_at};
pub use each::each_answer;
pub use exec_data::{Data, ExecInput, bits_of, data_of, slice_of};
pub use instrument::{Decided, decide_all, decided_line, prepare_instrument};
pub use kept::{Kept, Seen, keep_all};
pub use options::ReportOptions;
pub use report::{csv_of_files, prepare_report};
