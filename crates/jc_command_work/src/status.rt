//! How a run of the tool ends.

use jc_bytes::Refusal;
use jc_exec::ExecRefusal;
use jc_refs_check::RefRefusal;

/// How a run of the tool ended. The exit statuses are 0 to 6 in the order of the variants.
#[derive(Debug, Drop, PartialEq, Eq)]
pub enum Status {
    /// All was written.
    Done,
    /// An input is refused.
    Refused(Fault),
    /// The words are of no stated form.
    Usage,
    /// A file couldn't be read, is missing, or is too large.
    ReadFault,
    /// A file or a text couldn't be written.
    WriteFault,
    /// Memory was refused.
    Memory,
    /// All was written, and a rule doesn't hold.
    Broken,
}

/// What is wrong with an input. Class files are counted alone, from 0, in the order in which they are read: neither the
/// run plan nor the file of execution data of `--exec` has a place among them, and a folder's files each have their own.
#[derive(Debug, Drop, PartialEq, Eq)]
pub enum Fault {
    /// The execution data of the input at this index is refused: of the inputs of `merge` and `execinfo`, or, at 0, the file
    /// of `--exec`.
    Exec { path: u32, refusal: ExecRefusal },
    /// The run plan is refused: this line is the first that doesn't fit.
    Plan { line: u32 },
    /// The class file at this index among the class files is refused.
    Class { path: u32, refusal: Refusal },
    /// The files at these indices among the class files are of one class name.
    SameName { first: u32, second: u32 },
    /// The probes of the files at these indices among the class files are of one class id.
    SameId { first: u32, second: u32 },
    /// The thread of this line of the run plan has no method to begin with.
    NoEntry { line: u32 },
    /// A reference doesn't suit what takes it in the class of the file at this index among the class files.
    Refs { path: u32, refusal: RefRefusal },
}
