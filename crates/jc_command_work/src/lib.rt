//! The work of a command: the calls that it makes outside, the parts that it is made of, and how it ends.
#![tactic(auto)]

mod fault_text;
mod folders;
mod input;
mod input_files;
mod message;
mod output;
mod outside;
mod status;
mod stop;
mod targeted_files;

pub use fault_text::class_refusal_text;
pub use folders::list_files;
pub use input::{as_texts, list_folder, read_one, read_stop};
pub use input_files::{InputFiles, read_files, read_listed};
pub use message::{report, report_usage};
pub use output::{Write, keep, put_err, put_out, write_all, write_file};
pub use outside::{Outside, Resources};
pub use status::{Fault, Status};
pub use stop::{Stop, class_stop, exec_stop};
pub use targeted_files::{TargetedFiles, read_again};
