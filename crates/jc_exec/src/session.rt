use jc_bytes::Bytes;

/// A run of a program whose execution data was dumped.
#[derive(Debug, Drop, PartialEq, Eq)]
pub struct Session {
    /// The name of the run, in modified UTF-8.
    pub id: Bytes,
    /// When the run began, in milliseconds since 1970.
    pub start: i64,
    /// When its data was dumped, in milliseconds since 1970.
    pub dump: i64,
}
