//! What a Code attribute and its tables hold, as it stands in the class file.
use jc_bytes::{Bytes, List};
use jc_class::Attribute;

/// What a Code attribute holds (JVM Specification 4.7.3). Places in the code are offsets.
#[derive(Debug, Drop)]
pub struct CodeItems {
    pub max_stack: u16,
    pub max_locals: u16,
    pub code: Bytes,
    pub rows: List<Row>,
    pub attributes: List<Attribute>,
}

/// A row of the exception table (JVM Specification 4.7.3).
#[derive(Clone, Copy, Debug, PartialEq, Eq)]
pub struct Row {
    pub start: u16,
    pub end: u16,
    pub target: u16,
    pub class: u16,
}

/// An entry of a LineNumberTable (JVM Specification 4.7.12).
#[derive(Clone, Copy, Debug, PartialEq, Eq)]
pub struct LineEntry {
    pub start: u16,
    pub line: u16,
}

/// An entry of a LocalVariableTable or a LocalVariableTypeTable (JVM Specification 4.7.13, 4.7.14).
#[derive(Clone, Copy, Debug, PartialEq, Eq)]
pub struct VarEntry {
    pub start: u16,
    pub length: u16,
    pub name: u16,
    pub desc: u16,
    pub slot: u16,
}

/// The entries of the tables of each kind, one table behind the other.
#[derive(Debug, Drop)]
pub struct Tables {
    pub lines: List<LineEntry>,
    pub vars: List<VarEntry>,
    pub kind_vars: List<VarEntry>,
}
