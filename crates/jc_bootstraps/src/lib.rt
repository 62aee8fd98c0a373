//! The bootstrap methods of a class (JVM Specification 4.7.23): how many there are, the last one, and one more.
#![tactic(auto)]

mod bootstraps;
mod laws;

pub use bootstraps::{
    LastBootstrap, bootstrap_count, class_bootstraps, last_bootstrap, push_bootstrap,
};
pub use laws::{each_body_has_one_list, each_name_is_a_text};
