//! What was read of a run plan.
use jc_bytes::List;
use jc_programs::{Case, ThreadLine};

/// What was read of a run plan.
#[derive(Debug, Drop)]
pub struct Begun {
    /// The cases that are whole.
    pub cases: List<Case>,
    /// The threads of a case that is begun.
    pub threads: Option<List<ThreadLine>>,
}
