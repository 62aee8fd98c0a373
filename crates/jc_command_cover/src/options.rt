//! What the options of `cover` are given.

/// What the options of `cover` are given.
#[derive(Clone, Copy)]
pub struct CoverOptions<'a> {
    /// The folder to which the class files are written.
    pub dest: &'a str,
    /// The file of the run plan.
    pub plan: &'a str,
    /// The file to which the execution data goes.
    pub destfile: &'a str,
    /// The file to which the report goes.
    pub csv: &'a str,
    /// The name of the report.
    pub name: &'a str,
    /// How many threads run cases.
    pub workers: u32,
}
