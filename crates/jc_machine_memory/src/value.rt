//! The values of the machine.

/// A value: an int, a long or a reference (JVM Specification 2.3, 2.4).
#[derive(Clone, Copy, Debug, PartialEq, Eq)]
pub enum Value {
    Int(i32),
    Long(i64),
    Null,
    /// An array or a throwable, by its number in the heap.
    Object(u32),
    /// The OutOfMemoryError that takes no room in the heap.
    MemoryError,
    /// The stream to which lines are printed.
    PrintStream,
    /// The probe array of the class with this number.
    Probes { class: u32, count: u32 },
    /// The text with which the class with this number asks for its probe array.
    Text { class: u32 },
}
