//! Bodies that were looked at and have room for their probes.
use crate::ready::UnreadBody;
use jc_bytes::List;
use jc_methods::{Body, Plan, State};

/// A body that is kept until its instrumented code is written.
#[derive(Debug, Drop)]
pub struct KeptBody {
    /// The body.
    pub body: Body,
    /// Its plan.
    pub plan: Plan,
    /// The states before its instructions.
    pub states: List<State>,
}

/// A body that was looked at.
#[derive(Debug, Drop)]
pub enum LookedBody {
    /// It is kept.
    Kept(KeptBody),
    /// It takes too many places to be kept.
    Unread(UnreadBody),
}
