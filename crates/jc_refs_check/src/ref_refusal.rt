//! Why a program fails the reference check.

/// The first instruction, in the order of classes, bodies and instructions, at which a reference doesn't suit what takes it.
#[derive(Clone, Copy, Debug, PartialEq, Eq)]
pub struct RefRefusal {
    /// The number of the class in the program.
    pub class: u32,
    /// The number of the method in its class file, from 0.
    pub method: u16,
    /// The instruction.
    pub at: u32,
}
