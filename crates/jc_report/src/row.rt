//! The rows of a report, and what they are made from.
use jc_bytes::{Bytes, List};
use jc_cover::Counters;

/// A class with its counters.
#[derive(Debug, Drop)]
pub struct Counted {
    /// The class id.
    pub id: u64,
    /// The name of the class in internal form (JVM Specification 4.2.1), in modified UTF-8.
    pub name: Bytes,
    /// The name of its superclass, if it has one.
    pub super_name: Option<Bytes>,
    /// The names of its interfaces, in their order.
    pub interfaces: List<Bytes>,
    /// The counters of the class.
    pub counters: Counters,
}

/// A row of a report.
#[derive(Debug, Drop, PartialEq, Eq)]
pub struct Row {
    /// The name of the report.
    pub group: Bytes,
    /// The name of the package, as it is shown.
    pub package: Bytes,
    /// The name of the class, as it is shown.
    pub class: Bytes,
    /// The class id, which isn't shown.
    pub id: u64,
    /// The counters of the class.
    pub counters: Counters,
}
