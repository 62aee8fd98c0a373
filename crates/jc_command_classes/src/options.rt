//! What the options of `report` are given.

/// What the options of `report` are given, but for its execution data.
#[derive(Clone, Copy)]
pub struct ReportOptions<'a> {
    /// The file to which the report goes.
    pub csv: &'a str,
    /// The name of the report.
    pub name: &'a str,
}
