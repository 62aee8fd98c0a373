//! What an instruction does to the operand stack.
use jc_programs::Thrown;

/// What an instruction does that reads and writes the operand stack alone.
#[derive(Clone, Copy, Debug)]
pub enum Effect {
    /// So many operands are taken, and an int stands in their place.
    Int { taken: u8, value: i32 },
    /// So many operands are taken, and a long stands in their place.
    Long { taken: u8, value: i64 },
    /// Null is pushed.
    Null,
    /// So many operands are taken, and copies of operands stand in their place: those at these places,
    /// counted from the top of the stack as it was. The first one stands on top.
    Moves { taken: u8, places: &'static [u8] },
    /// A throwable of this class is raised.
    Raises(Thrown),
    /// The opcode isn't one of these, or an operand is missing or of another kind.
    Unfit,
}

/// What a conditional jump does with its operands.
#[derive(Clone, Copy, Debug, PartialEq, Eq)]
pub enum Test {
    /// So many operands are taken, and the jump is taken or not.
    Takes { taken: u8, jumps: bool },
    /// An operand is missing or of another kind.
    Unfit,
}
