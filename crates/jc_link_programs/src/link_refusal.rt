//! Why class files have no program.
ghost use Rattle.std.specs.Prelude.{◌≡◌};
ghost use Rattle.jc_link_programs.specs.Linking.{plain};

use jc_bytes::{Bytes, Refusal};

/// Why class files have no program.
#[derive(Clone, Copy, Debug, PartialEq, Eq)]
pub enum LinkRefusal {
    /// The first file that isn't linked, and why.
    Class { index: u32, refusal: Refusal },
    /// The first two files of one class name.
    SameName { first: u32, second: u32 },
    /// The first two files whose probes have one class id.
    SameId { first: u32, second: u32 },
}

/// Why class files have no program, with what two of them have in common.
#[derive(Debug, Drop)]
pub enum LinkClash {
    /// The first file that isn't linked, and why.
    Class {
        index: u32,
        refusal: Refusal,
    },
    /// The first two files of one class name, and that name.
    SameName {
        first: u32,
        second: u32,
        name: Bytes,
    },
    /// The first two files whose probes have one class id, and that id.
    SameId {
        first: u32,
        second: u32,
        id: u64,
    },
}

/// The same without what two files have in common.
pub fn plain(clash: LinkClash) -> LinkRefusal
    ensures { result ≡ plain clash }
{
    match clash {
        LinkClash::Class { index, refusal } => LinkRefusal::Class { index, refusal },
        LinkClash::SameName { first, second, .. } => LinkRefusal::SameName { first, second },
        LinkClash::SameId { first, second, .. } => LinkRefusal::SameId { first, second },
    }
}
