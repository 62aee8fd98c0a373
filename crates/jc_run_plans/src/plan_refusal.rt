//! Why a text is no run plan.

/// Why a text is no run plan.
#[derive(Clone, Copy, Debug, PartialEq, Eq)]
pub struct PlanRefusal {
    /// The number of the first line that doesn't fit, from 1. For a text that ends too early it is the number of its
    /// lines, and one more.
    pub line: u32,
}
