//! The report of coverage as comma-separated values (RFC 4180), with the columns of JaCoCo's report.
#![tactic(auto)]

mod class_rows;
mod csv_file;
mod laws;
mod names;
mod row;

pub use class_rows::rows;
pub use csv_file::csv_text;
pub use laws::{each_name_is_shown, each_split_is_at_the_last, rows_stand_in_order};
pub use row::{Counted, Row};
