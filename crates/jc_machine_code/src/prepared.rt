//! A program prepared for the machine: what each instruction is, by its place.
ghost use Rattle.std.specs.Prelude.{◌≡◌, None, find, MatchOption};
ghost use Rattle.std.specs.Option.{option_map};
ghost use Rattle.jc_programs.specs.declared.program.Program.{Program};
ghost use Rattle.jc_programs.specs.Members.{body_of};
ghost use Rattle.jc_machine_model.specs.World.{Frame};
ghost use Rattle.jc_machine_model.specs.Step.{operation_at, located, handler_of, is_init_method};
ghost use Rattle.jc_machine_model.specs.Locked.{locked_call};
ghost use Rattle.jc_machine_code.specs.Shown.{Shows};
ghost use Rattle.jc_machine_code.specs.Prepared.{catches_class, row_handles, handling, plain_of, locked_of, prepared_at, IsMethodOf, IsPrepared};

use crate::throwables::extends;
use crate::{ComputationalType, Operation};
use jc_bytes::List;
use jc_programs::{Entry, ProbeInit, Thrown};

/// The exceptions that a row of an exception table catches (JVM Specification 4.7.3).
#[derive(Clone, Copy, Debug)]
pub enum Catches {
    /// All.
    All,
    /// Those of this class and of the classes that extend it.
    Class(Thrown),
    /// None: the machine has no throwable of the row's class.
    Nothing,
}

/// A row of an exception table (JVM Specification 4.7.3).
#[derive(Clone, Copy, Debug)]
pub struct PreparedRow {
    /// The first instruction that is guarded.
    pub start: u32,
    /// The first instruction behind it that isn't guarded.
    pub end: u32,
    /// The instruction at which the handler begins.
    pub target: u32,
    /// What is caught.
    pub catches: Catches,
}

/// An instruction of a method.
#[derive(Clone, Copy, Debug)]
pub enum PreparedOperation {
    /// What it is to the machine.
    Plain(Operation),
    /// A call of a method that a thread could enter if it weren't synchronized. The machine, whose threads take no locks, doesn't
    /// execute it.
    Locked(Entry),
}

/// A method.
#[derive(Debug, Drop)]
pub struct PreparedMethod {
    /// What each instruction is, in the order of the code.
    pub operations: List<PreparedOperation>,
    /// The types of the parameters; none for a float or a double, of which the machine has no values.
    pub parameters: List<Option<ComputationalType>>,
    /// How many local variables there are.
    pub max_locals: u16,
    /// Whether it is named `$jacocoInit`.
    pub is_init: bool,
    /// Whether a thread may enter it.
    pub is_enterable: bool,
    /// The rows of the exception table, in their order.
    pub rows: List<PreparedRow>,
}

/// The value of a static field before the program begins.
#[derive(Clone, Copy, Debug)]
pub enum FirstValue {
    /// An int, or a value of a smaller type.
    Int(i32),
    /// A long.
    Long(i64),
    /// The null reference.
    Null,
}

/// A class.
#[derive(Debug, Drop)]
pub struct PreparedClass {
    /// The methods with code, in file order.
    pub methods: List<PreparedMethod>,
    /// The first values of the static fields, in file order.
    pub statics: List<FirstValue>,
    /// The id and the number of probes, where the class has a method that gives its probe array.
    pub probes: Option<ProbeInit>,
}

/// A program, whose instructions need no look-up by name.
#[derive(Debug, Drop)]
pub struct PreparedProgram {
    /// The classes, in the program's order.
    pub classes: List<PreparedClass>,
}

impl Catches {
    /// Whether a throwable of the class is caught.
    pub fn catches(self, thrown: Thrown) -> bool
        ensures { result ≡ catches_class self thrown }
    {
        match self {
            Catches::All => true,
            Catches::Class(class) => extends(thrown, class),
            Catches::Nothing => false,
        }
    }
}

impl PreparedRow {
    /// Whether the row holds the instruction at a place, and catches the class.
    pub fn handles(self, place: u32, thrown: Thrown) -> bool
        ensures { result ≡ row_handles place thrown self }
    {
        self.start <= place && (place < self.end && self.catches.catches(thrown))
    }
}

/// The first row that holds the instruction at a place, and catches the class.
fn first_row(rows: &[PreparedRow], place: u32, thrown: Thrown) -> Option<PreparedRow>
    ensures { result ≡ find (row_handles place thrown) rows.now }
{
    rows.iter().copied().find(|row| row.handles(place, thrown))
}

impl PreparedOperation {
    /// What the instruction is to the machine.
    pub fn plain(self) -> Operation
        ensures { result ≡ plain_of self }
    {
        match self {
            PreparedOperation::Plain(operation) => operation,
            PreparedOperation::Locked(_) => Operation::Outside,
        }
    }

    /// The synchronized method that the instruction calls.
    pub fn locked(self) -> Option<Entry>
        ensures { result ≡ locked_of self }
    {
        match self {
            PreparedOperation::Plain(_) => None,
            PreparedOperation::Locked(callee) => Some(callee),
        }
    }
}

impl PreparedMethod {
    /// The instruction at a place; `Outside` where there is none.
    pub fn operation(&self, place: u32) -> PreparedOperation
        ensures { result ≡ prepared_at self.now.operations place }
    {
        match self.operations.as_slice().get(place as usize) {
            Some(operation) => *operation,
            None => PreparedOperation::Plain(Operation::Outside),
        }
    }

    /// Where the first row leads that holds the instruction at a place and catches the class. It looks at the rows of
    /// the method, one after the other.
    pub fn handler(&self, place: u32, thrown: Thrown) -> Option<u32>
        ensures { result ≡ handling self.now.rows place thrown }
    {
        Some(first_row(self.rows.as_slice(), place, thrown)?.target)
    }
}

impl PreparedProgram {
    /// A method, by the numbers of its class and of itself.
    pub fn method(&self, method: Entry) -> Option<&PreparedMethod>
        ensures { (program : Program) → IsPrepared program self.now
            → MatchOption result (body_of program method ≡ None) (λ m. IsMethodOf program method m.now) }
    {
        let class = self.classes.as_slice().get(method.class as usize)?;
        class.methods.as_slice().get(method.method as usize)
    }

    /// What the instruction at a place of a method is; `Outside` where there is none.
    pub fn operation(&self, method: Entry, place: u32) -> Operation
        ensures { (program : Program) → IsPrepared program self.now → Shows result (operation_at program (located program method place)) }
    {
        match self.method(method) {
            Some(found) => found.operation(place).plain(),
            None => Operation::Outside,
        }
    }

    /// The method that the instruction at a place of a method calls, if only its being synchronized keeps it from being called: by
    /// an `invokestatic` outside of `$jacocoInit`, of a method of another name.
    pub fn locked_callee(&self, method: Entry, place: u32) -> Option<Entry>
        ensures { (program : Program) → IsPrepared program self.now → result ≡ locked_call program (located program method place) }
    {
        match self.method(method) {
            Some(found) => found.operation(place).locked(),
            None => None,
        }
    }

    /// Where the handler of a throwable of a class begins that is thrown at a place of a method, if the method has one.
    pub fn handler(&self, method: Entry, place: u32, thrown: Thrown) -> Option<u32>
        ensures { (program : Program) (frame : Frame) → IsPrepared program self.now → frame.method ≡ method → frame.place ≡ place
            → result ≡ option_map (λ row. row.target) (handler_of program thrown frame) }
    {
        self.method(method)?.handler(place, thrown)
    }

    /// Whether a method is named `$jacocoInit`.
    pub fn is_init(&self, method: Entry) -> bool
        ensures { (program : Program) → IsPrepared program self.now → result ≡ is_init_method program method }
    {
        match self.method(method) {
            Some(found) => found.is_init,
            None => false,
        }
    }
}
