//! Totals over classes.
use jc_cover::Counters;

/// How many items of classes are missed, and how many are covered.
#[derive(Clone, Copy, Debug, PartialEq, Eq)]
pub struct Total {
    pub missed: u64,
    pub covered: u64,
}

/// The totals of classes.
#[derive(Clone, Copy, Debug, PartialEq, Eq)]
pub struct Totals {
    pub instruction: Total,
    pub branch: Total,
    pub line: Total,
    pub complexity: Total,
    pub method: Total,
    pub class: Total,
}

/// A class with its counters.
#[derive(Clone, Copy, Debug, PartialEq, Eq)]
pub struct Totalled {
    pub counters: Counters,
}
