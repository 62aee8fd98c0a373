//! The methods of an instrumented class as they were written: read again, they have their
//! instrumented code, and pass the kind check (JVM Specification 4.7.3, 4.10.1).
#![tactic(auto)]

mod laws;

pub use laws::{
    each_method_passes_again, each_written_method_is_read_back, the_added_method_is_read_back,
};
