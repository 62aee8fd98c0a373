//! Operands, as far as the instructions that read the operand stack alone look at them.
ghost use Rattle.std.specs.Prelude.{◌≡◌};
ghost use Rattle.jc_machine_numbers.specs.Operands.{category_of};

/// An operand at the top of the stack.
#[derive(Clone, Copy, Debug, PartialEq, Eq)]
pub enum Operand {
    /// The stack has no operand there.
    Absent,
    /// An int.
    Int(i32),
    /// A long.
    Long(i64),
    /// The null reference.
    Null,
    /// A reference to an object.
    Reference,
}

/// The category of an operand's computational type (JVM Specification 2.11.1).
#[derive(Clone, Copy, Debug, PartialEq, Eq)]
pub enum Category {
    /// The stack has no operand there.
    Absent,
    /// A value of one slot.
    One,
    /// A value of two slots.
    Two,
}

impl Operand {
    /// The category of the operand's computational type (JVM Specification 2.11.1).
    pub fn category(self) -> Category
        ensures { result ≡ category_of self }
    {
        match self {
            Operand::Absent => Category::Absent,
            Operand::Long(_) => Category::Two,
            Operand::Int(_) | Operand::Null | Operand::Reference => Category::One,
        }
    }
}
