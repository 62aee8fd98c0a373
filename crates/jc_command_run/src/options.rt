//! What the options of `run` are given.

/// What the options of `run` are given.
#[derive(Clone, Copy)]
pub struct RunOptions<'a> {
    /// The file of the run plan.
    pub plan: &'a str,
    /// The file to which the execution data goes.
    pub destfile: &'a str,
    /// How many threads run cases.
    pub workers: u32,
}
