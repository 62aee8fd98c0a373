//! What the options of `run --dumps` are given.

/// What the options of `run --dumps` are given.
#[derive(Clone, Copy)]
pub struct DumpOptions<'a> {
    /// The file of the run plan.
    pub plan: &'a str,
    /// The file to which the rest of the execution data goes.
    pub destfile: &'a str,
    /// The files to which the dumps go, in their order.
    pub dumps: &'a [String],
    /// After how many cases each dump is taken.
    pub every: u32,
    /// How many threads run cases.
    pub workers: u32,
}
