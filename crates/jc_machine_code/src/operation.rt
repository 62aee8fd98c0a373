//! What an instruction is to the machine. Classes, fields and methods stand by their numbers.
use jc_machine_numbers::Narrowing;
use jc_programs::{Entry, ProbeInit, Thrown};

/// The computational types of the machine, which has no floats and no doubles (JVM Specification 2.11.1).
#[derive(Clone, Copy, Debug, PartialEq, Eq)]
pub enum ComputationalType {
    Int,
    Long,
    Reference,
}

/// The primitive types but for floats and doubles (JVM Specification 2.3).
#[derive(Clone, Copy, Debug, PartialEq, Eq)]
pub enum PrimitiveType {
    Boolean,
    Byte,
    Char,
    Short,
    Int,
    Long,
}

/// The types of elements that an instruction loads from an array or stores into it.
#[derive(Clone, Copy, Debug, PartialEq, Eq)]
pub enum ElementTypes {
    Int,
    Long,
    ByteOrBoolean,
    Char,
    Short,
}

/// What `println` prints.
#[derive(Clone, Copy, Debug, PartialEq, Eq)]
pub enum Printed {
    IntLine,
    LongLine,
    BooleanLine,
    EmptyLine,
}

/// What an instruction is to the machine.
#[derive(Clone, Copy, Debug)]
pub enum Operation {
    /// Pushes an int.
    PushInt(i32),
    /// Pushes a long.
    PushLong(i64),
    /// Pushes the print stream.
    PushPrintStream,
    /// Pushes the text of the `$jacocoInit` of the class with this number.
    PushText {
        class: u32,
    },
    /// Pushes the probe array of the class with this number, which has so many probes.
    PushProbes {
        class: u32,
        count: u32,
    },
    /// An opcode that reads and writes the operand stack alone.
    Computes(u8),
    /// Loads a local variable.
    Loads {
        kind: ComputationalType,
        slot: u16,
    },
    /// Stores into a local variable.
    Stores {
        kind: ComputationalType,
        slot: u16,
    },
    /// `iinc`.
    Counts {
        slot: u16,
        by: i16,
    },
    /// A conditional jump.
    Tests {
        op: u8,
        to: u32,
    },
    /// `goto`.
    Jumps {
        to: u32,
    },
    /// `tableswitch`. The body's instruction has its arms.
    Indexes,
    /// `lookupswitch`. The body's instruction has its arms.
    Matches,
    /// Loads an element of an array.
    Reads(ElementTypes),
    /// Stores an element of an array.
    Writes(ElementTypes),
    /// Makes an array.
    MakesArray(PrimitiveType),
    /// `arraylength`.
    Measures,
    /// Reads the static field with this number of the class with this number.
    Gets {
        class: u32,
        field: u32,
    },
    /// Writes it. The value is of this kind, and an int is narrowed so.
    Puts {
        class: u32,
        field: u32,
        kind: ComputationalType,
        narrowing: Narrowing,
    },
    /// Calls a static method.
    Invokes(Entry),
    /// Makes a throwable.
    Makes(Thrown),
    /// Calls the constructor of a throwable.
    Builds(Thrown),
    /// `println`.
    Prints(Printed),
    /// Gets the probe array of the class with this number.
    Fetches {
        class: u32,
        init: ProbeInit,
    },
    /// Keeps the probe array of the class with this number on top.
    Casts {
        class: u32,
    },
    /// Returns a value of this kind; an int is narrowed so.
    Returns {
        kind: ComputationalType,
        narrowing: Narrowing,
    },
    /// `return`.
    ReturnsNothing,
    /// `athrow`.
    ThrowsTop,
    /// An instruction that the machine doesn't execute.
    Outside,
}
