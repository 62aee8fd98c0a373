//! What the options of `run --monitors` are given.

/// What the options of `run --monitors` are given.
#[derive(Clone, Copy)]
pub struct MonitoredOptions<'a> {
    /// The file of the run plan.
    pub plan: &'a str,
    /// The file to which the execution data goes.
    pub destfile: &'a str,
}
