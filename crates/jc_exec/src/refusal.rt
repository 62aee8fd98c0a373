use jc_bytes::Bytes;

/// Why execution data is refused.
#[derive(Debug, Drop, PartialEq, Eq)]
pub enum ExecRefusal {
    /// What stands at the offset is no block that may stand there. The first block is a header of
    /// version 1007; each later one is such a header, a session or a class, whole, with its text in
    /// modified UTF-8 (JVM Specification 4.4.7) and at most 65,535 probes.
    BadExec {
        /// The offset of the block's first byte.
        place: u32,
    },
    /// A whole header has another version.
    OtherVersion {
        /// The version that was found.
        found: u16,
    },
    /// The id of a class is there already, with another name or another number of probes.
    Conflict {
        /// The class id.
        id: u64,
        /// The name that is there.
        first: Bytes,
        /// The other name.
        second: Bytes,
        /// How many probes the record that is there has.
        first_count: u32,
        /// How many probes the other record has.
        second_count: u32,
    },
}
