//! The paths of files and folders, as words name them.
#![tactic(auto)]

mod paths;

pub use paths::{FileWord, all_in_folder, ends_with_slash, file_word, in_folder};
