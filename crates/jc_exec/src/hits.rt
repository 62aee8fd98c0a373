use crate::Bits;
use jc_bytes::Bytes;

/// The probes of a class, and which of them were hit.
#[derive(Debug, Drop)]
pub struct ClassHits {
    /// The class id, a checksum of the class file.
    pub id: u64,
    /// The name of the class, in modified UTF-8 (JVM Specification 4.4.7).
    pub name: Bytes,
    /// For each probe, in order, whether it was hit.
    pub bits: Bits,
}
