//! The loadable constants of a pool.

/// A constant that an instruction can load (JVM Specification 4.4, table 4.4-C).
#[derive(Clone, Copy, Debug, PartialEq, Eq)]
pub enum ConstText {
    /// An int.
    Int(i32),
    /// A long.
    Long(i64),
    /// A float.
    Float,
    /// A double.
    Double,
    /// A string.
    Text,
    /// A class.
    Class,
    /// A method handle.
    Handle,
    /// The type of a method.
    MethodKind,
    /// A constant that is computed when it is first used.
    Computed,
}
