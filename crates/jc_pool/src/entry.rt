//! The entries of a constant pool (JVM Specification 4.4).
ghost use Rattle.std.specs.Prelude.{◌≡◌};

use crate::judged_text::JudgedText;

/// An entry of a constant pool. Numbers other than values are places in the pool.
#[derive(Debug, Drop)]
pub enum Entry {
    /// Text, in modified UTF-8 where it is used as text (JVM Specification 4.4.7).
    Utf8(JudgedText),
    /// An int (JVM Specification 4.4.4).
    Integer(i32),
    /// The bits of a float (JVM Specification 4.4.4).
    Float(u32),
    /// A long, which takes two places (JVM Specification 4.4.5).
    Long(i64),
    /// The bits of a double, which takes two places (JVM Specification 4.4.5).
    Double(u64),
    /// A class by its name (JVM Specification 4.4.1).
    Class { name: u16 },
    /// A string by its text (JVM Specification 4.4.3).
    String { text: u16 },
    /// A field (JVM Specification 4.4.2).
    Fieldref { class: u16, name_and_type: u16 },
    /// A method of a class (JVM Specification 4.4.2).
    Methodref { class: u16, name_and_type: u16 },
    /// A method of an interface (JVM Specification 4.4.2).
    InterfaceMethodref { class: u16, name_and_type: u16 },
    /// A name and a descriptor (JVM Specification 4.4.6).
    NameAndType { name: u16, descriptor: u16 },
    /// A method handle (JVM Specification 4.4.8).
    MethodHandle { kind: u8, reference: u16 },
    /// The type of a method (JVM Specification 4.4.9).
    MethodType { descriptor: u16 },
    /// A constant that is computed (JVM Specification 4.4.10).
    Dynamic { bootstrap: u16, name_and_type: u16 },
    /// A call that is linked at run time (JVM Specification 4.4.10).
    InvokeDynamic { bootstrap: u16, name_and_type: u16 },
    /// A module by its name (JVM Specification 4.4.11).
    Module { name: u16 },
    /// A package by its name (JVM Specification 4.4.12).
    Package { name: u16 },
}

impl Entry {
    ghost use Rattle.jc_pool.specs.EntryFormat.{tag_of};
    ghost use Rattle.jc_pool.specs.Pool.{is_wide, width};

    /// Whether the entry is a long or a double.
    pub fn is_wide(&self) -> bool
        ensures { result ≡ is_wide self.now }
    {
        matches!(self, Entry::Long(_) | Entry::Double(_))
    }

    /// How many places the entry takes.
    pub fn width(&self) -> usize
        ensures { result ≡ width self.now }
    {
        if self.is_wide() { 2 } else { 1 }
    }

    /// The tag of the entry (JVM Specification 4.4, table 4.4-B).
    pub fn tag(&self) -> u8
        ensures { result ≡ tag_of self.now }
    {
        match self {
            Entry::Utf8(_) => 1,
            Entry::Integer(_) => 3,
            Entry::Float(_) => 4,
            Entry::Long(_) => 5,
            Entry::Double(_) => 6,
            Entry::Class { .. } => 7,
            Entry::String { .. } => 8,
            Entry::Fieldref { .. } => 9,
            Entry::Methodref { .. } => 10,
            Entry::InterfaceMethodref { .. } => 11,
            Entry::NameAndType { .. } => 12,
            Entry::MethodHandle { .. } => 15,
            Entry::MethodType { .. } => 16,
            Entry::Dynamic { .. } => 17,
            Entry::InvokeDynamic { .. } => 18,
            Entry::Module { .. } => 19,
            Entry::Package { .. } => 20,
        }
    }
}
