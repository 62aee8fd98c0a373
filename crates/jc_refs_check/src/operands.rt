//! The references that instructions take (JVM Specification 6.5).
ghost use Rattle.std.specs.Prelude.{◌≡◌, ◌<◌, ℕ, List as Seq, [], ◌∷◌, length, map, bytes_eq, All, IfSome, false};
ghost use Rattle.std.specs.List.{AllByRecursion};
ghost use Rattle.jc_methods.specs.VerificationTypes.{Names as NameList, IsNumbered, verification_type, type_state};
ghost use Rattle.jc_methods.specs.WellMade.{IsKind};
ghost use Rattle.jc_methods.specs.declared.insn.Insn.{Insn as InsnOf};
ghost use Rattle.jc_methods.specs.DescriptorTypes.{method_type_in};
ghost use Rattle.jc_methods.specs.EntryState.{held_of};
ghost use Rattle.jc_bytes.specs.Descriptor.{FieldType};
ghost use Rattle.jc_programs.specs.Throwables.{name_of};
ghost use Rattle.jc_machine_model.specs.Operations.{Operation as OperationOf};
ghost use Rattle.jc_machine_model.specs.Fits.{made_in};
ghost use Rattle.jc_machine_code.specs.Shown.{Shows};
ghost use Rattle.jc_machine_code.specs.Types.{element_types, printed};
ghost use Rattle.jc_machine_code.specs.Invoked.{Invoked};
ghost use Rattle.jc_refs_check.specs.Classes.{name_at, AreKnown};
ghost use Rattle.jc_refs_check.specs.Known.{known_by};
ghost use Rattle.jc_refs_check.specs.Needs.{is_array_of, stream_need, printed_needs, need_held, argument_needs, needs_of};
ghost use Rattle.jc_refs_check.specs.RefsOk.{is_taken, operand, operation_of_place};
ghost use Rattle.jc_refs_check.specs.KindNeeds.{held_takes, held_takes_fresh, need_takes, need_takes_fresh, need_of_kept, needs_of_kept};
ghost use Rattle.jc_refs_check.specs.KindNeeds.{is_element, takes_at, takes_all, all_held, returned_needs, is_by_descriptor};
ghost use Rattle.jc_refs_check.specs.KindNeeds.{IsNumberedNeed, IsMadeClass, IsMadeNeed, IsMadeOperation, IsFieldOf, IsCheckedMethod};
ghost use Rattle.jc_refs_check.specs.SuitedWalk.{IsWholeState};

use crate::classes::Classes;
use crate::known::Known;
use crate::members::{ProgramTypes, Signature};
use jc_machine_code::{ElementTypes, Operation, PreparedProgram, PrimitiveType, Printed};
use jc_methods::{Body, Kind, State};
use jc_programs::{Entry, Program, Thrown};

/// Which objects an operand may be, beside null.
#[derive(Clone, Copy, Debug)]
pub enum Need {
    /// Arrays of one dimension of elements of one of these types.
    Array(ElementTypes),
    /// Arrays of one dimension of elements of any integral type.
    AnyArray,
    /// The throwables that the machine knows.
    Throwable,
    /// Print streams.
    PrintStream,
    /// Texts.
    Text,
    /// What may stand where this type is expected.
    Held(Kind),
    /// Those of just this class.
    Built(Thrown),
}

/// Which objects the operand under so many others may be, beside null.
#[derive(Clone, Copy, Debug)]
pub struct NeededAt {
    pub above: usize,
    pub need: Need,
}

/// A method whose instructions are checked.
#[derive(Clone, Copy)]
pub struct CheckedMethod<'a> {
    pub program: &'a Program,
    pub method: Entry,
    pub body: &'a Body,
    /// What each instruction of the program is.
    pub operations: &'a PreparedProgram,
    /// The types of the program's members.
    pub types: &'a ProgramTypes,
}

/// What an operand under so many others may be.
fn needed(above: usize, need: Need) -> Option<NeededAt>
    ensures needs { (names : NameList) → needs_of_kept names result ≡ need_of_kept names above need ∷ [] }
    ensures numbered { (count : ℕ) → IsNumberedNeed count need → IfSome result (λ needed. IsNumberedNeed count needed.need) }
    ensures built { IsMadeNeed need → IfSome result (λ needed. IsMadeNeed needed.need) }
{
    Some(NeededAt { above, need })
}

/// How many operands lie above a print stream.
fn above_stream(line: Printed) -> usize
    ensures { printed_needs (printed line) ≡ stream_need result }
{
    match line {
        Printed::EmptyLine => 0,
        Printed::IntLine | Printed::LongLine | Printed::BooleanLine => 1,
    }
}

/// What an instruction needs that takes one reference, whose class doesn't hang on a descriptor.
fn need_of(operation: Operation) -> Option<NeededAt>
    ensures needs { (names : NameList) (d : OperationOf) → Shows operation d → is_by_descriptor operation ≡ false
        → needs_of_kept names result ≡ needs_of d }
    ensures numbered { (count : ℕ) → IfSome result (λ needed. IsNumberedNeed count needed.need) }
    ensures built { IsMadeOperation operation → IfSome result (λ needed. IsMadeNeed needed.need) }
{
    match operation {
        Operation::Reads(elements) => needed(1, Need::Array(elements)),
        Operation::Writes(elements) => needed(2, Need::Array(elements)),
        Operation::Measures => needed(0, Need::AnyArray),
        Operation::ThrowsTop => needed(0, Need::Throwable),
        Operation::Prints(line) => needed(above_stream(line), Need::PrintStream),
        Operation::Fetches { .. } => needed(1, Need::Text),
        Operation::Builds(class) => needed(0, Need::Built(class)),
        Operation::PushInt(_) | Operation::PushLong(_) | Operation::PushPrintStream => None,
        Operation::PushText { .. } | Operation::PushProbes { .. } | Operation::Computes(_) => None,
        Operation::Loads { .. } | Operation::Stores { .. } | Operation::Counts { .. } => None,
        Operation::Tests { .. } | Operation::Jumps { .. } | Operation::Indexes => None,
        Operation::Matches | Operation::MakesArray(_) | Operation::Gets { .. } => None,
        Operation::Puts { .. } | Operation::Invokes(_) | Operation::Makes(_) => None,
        Operation::Casts { .. } | Operation::Returns { .. } | Operation::ReturnsNothing => None,
        Operation::Outside => None,
    }
}

/// Whether the elements of an array are of one of the types.
fn are_elements(elements: ElementTypes, element: PrimitiveType) -> bool
    ensures { result ≡ is_element elements element }
{
    match elements {
        ElementTypes::Int => matches!(element, PrimitiveType::Int),
        ElementTypes::Long => matches!(element, PrimitiveType::Long),
        ElementTypes::ByteOrBoolean => matches!(
            element,
            PrimitiveType::Byte | PrimitiveType::Boolean
        ),
        ElementTypes::Char => matches!(element, PrimitiveType::Char),
        ElementTypes::Short => matches!(element, PrimitiveType::Short),
    }
}

/// Whether a class of which this is known is one of arrays with elements of one of the types.
fn is_array_of(known: Known, elements: ElementTypes) -> bool
    ensures { (name : Seq ℕ) → known ≡ known_by name → result ≡ is_array_of (element_types elements) name }
{
    match known {
        Known::Array(element) => are_elements(elements, element),
        _ => false,
    }
}

/// Whether the class of which this is known is this class of throwables.
fn is_thrown(known: Known, class: Thrown) -> bool
    ensures { (name : Seq ℕ) → known ≡ known_by name → result ≡ bytes_eq (name_of class) name }
{
    match known {
        Known::Throwable(thrown) => thrown == class,
        _ => false,
    }
}

/// Whether objects of a class may stand where the type is expected, if it is one of references.
fn held_takes(classes: &Classes, class: u32, want: Kind) -> bool
    requires known { AreKnown classes.now }
    requires class { class < length classes.now.names }
    requires want { IsNumbered (length classes.now.names) want }
    ensures { result ≡ held_takes (verification_type classes.now.names want) (name_at classes.now.names class) }
{
    match want {
        Kind::Object(other) => classes.suits(class, other),
        Kind::Top | Kind::Int | Kind::Float | Kind::Double | Kind::Long => true,
        Kind::Null | Kind::UninitThis | Kind::Uninit(_) => true,
    }
}

/// Whether an object of a class is what is needed.
fn takes(classes: &Classes, need: Need, class: u32) -> bool
    requires known { AreKnown classes.now }
    requires class { class < length classes.now.names }
    requires need { IsNumberedNeed (length classes.now.names) need }
    ensures { result ≡ need_takes classes.now.names need (name_at classes.now.names class) }
{
    let known = classes.known_at(class);
    match need {
        Need::Array(elements) => is_array_of(known, elements),
        Need::AnyArray => matches!(known, Known::Array(_)),
        Need::Throwable => matches!(known, Known::Throwable(_)),
        Need::PrintStream => matches!(known, Known::PrintStream),
        Need::Text => matches!(known, Known::Text),
        Need::Held(want) => held_takes(classes, class, want),
        Need::Built(thrown) => is_thrown(known, thrown),
    }
}

/// Whether an object before its constructor may stand where the type is expected, if it is one of references.
fn held_takes_fresh(classes: &Classes, want: Kind) -> bool
    requires { AreKnown classes.now }
    ensures { result ≡ held_takes_fresh (verification_type classes.now.names want) }
{
    match want {
        Kind::Object(other) => classes.is_object(other),
        Kind::Top | Kind::Int | Kind::Float | Kind::Double | Kind::Long => true,
        Kind::Null | Kind::UninitThis | Kind::Uninit(_) => true,
    }
}

/// Whether `this` before the constructor of the superclass was called is what is needed.
fn takes_this(classes: &Classes, need: Need) -> bool
    requires { AreKnown classes.now }
    ensures { result ≡ need_takes_fresh classes.now.names need [] }
{
    match need {
        Need::Throwable => true,
        Need::Held(want) => held_takes_fresh(classes, want),
        Need::Array(_) | Need::AnyArray | Need::PrintStream | Need::Text | Need::Built(_) => false,
    }
}

/// The operand under so many others.
fn operand(stack: &[Kind], above: usize) -> Kind
    ensures says { (names : NameList) → verification_type names result ≡ operand above (map (verification_type names) stack.now) }
    ensures numbered { (count : ℕ) → AllByRecursion (IsNumbered count) stack.now → IsNumbered count result }
    ensures made { (code : Seq InsnOf) → All (IsKind code) stack.now → IsKind code result }
{
    if above < stack.len() {
        stack[stack.len() - 1 - above]
    } else {
        Kind::Top
    }
}

impl CheckedMethod<'_> {
    /// Whether the `new` at an instruction makes objects of a class.
    fn makes(&self, at: u32, class: Thrown) -> bool
        requires method { (names : NameList) × IsCheckedMethod names self.now }
        requires made { IsKind self.now.body.now.code (Kind.Uninit at) }
        requires class { IsMadeClass class }
        ensures { result ≡ bytes_eq (name_of class) (made_in self.now.body.now at) }
    {
        match self.operations.operation(self.method, at) {
            Operation::Makes(thrown) => thrown == class,
            _ => false,
        }
    }

    /// Whether an object that the `new` at an instruction made, and whose constructor wasn't called, is what is needed.
    fn takes_made(&self, classes: &Classes, need: Need, at: u32) -> bool
        requires method { IsCheckedMethod classes.now.names self.now }
        requires known { AreKnown classes.now }
        requires need { IsMadeNeed need }
        requires made { IsKind self.now.body.now.code (Kind.Uninit at) }
        ensures { result ≡ need_takes_fresh classes.now.names need (made_in self.now.body.now at) }
    {
        match need {
            Need::Throwable => true,
            Need::Held(want) => held_takes_fresh(classes, want),
            Need::Built(class) => self.makes(at, class),
            Need::Array(_) | Need::AnyArray | Need::PrintStream | Need::Text => false,
        }
    }

    /// Whether a type, if it is one of references, is what is needed.
    fn is_taken(&self, classes: &Classes, need: Need, kind: Kind) -> bool
        requires method { IsCheckedMethod classes.now.names self.now }
        requires known { AreKnown classes.now }
        requires need { IsNumberedNeed (length classes.now.names) need }
        requires built { IsMadeNeed need }
        requires kind { IsNumbered (length classes.now.names) kind }
        requires made { IsKind self.now.body.now.code kind }
        ensures { (above : ℕ) → result
            ≡ is_taken self.now.body.now (need_of_kept classes.now.names above need) (verification_type classes.now.names kind) }
    {
        match kind {
            Kind::Object(class) => takes(classes, need, class),
            Kind::Uninit(at) => self.takes_made(classes, need, at),
            Kind::UninitThis => takes_this(classes, need),
            Kind::Top | Kind::Int | Kind::Float | Kind::Double | Kind::Long | Kind::Null => true,
        }
    }

    /// Whether the operand under so many others is what is needed.
    fn takes_operand(&self, classes: &Classes, state: &State, above: usize, need: Need) -> bool
        requires method { IsCheckedMethod classes.now.names self.now }
        requires known { AreKnown classes.now }
        requires state { IsWholeState (length classes.now.names) self.now.body.now state.now }
        requires need { IsNumberedNeed (length classes.now.names) need }
        requires built { IsMadeNeed need }
        ensures { result
            ≡ takes_at self.now.body.now (type_state classes.now.names state.now) (need_of_kept classes.now.names above need) }
    {
        self.is_taken(classes, need, operand(&state.stack, above))
    }

    /// Whether the arguments of a call suit the parameters, the last of which is on top.
    fn takes_arguments(&self, classes: &Classes, state: &State, parameters: &[Kind]) -> bool
        requires method { IsCheckedMethod classes.now.names self.now }
        requires known { AreKnown classes.now }
        requires state { IsWholeState (length classes.now.names) self.now.body.now state.now }
        requires parameters { AllByRecursion (IsNumbered (length classes.now.names)) parameters.now }
        ensures { result ≡ all_held self.now.body.now (type_state classes.now.names state.now)
            (map (verification_type classes.now.names) parameters.now) }
    {
        let count = parameters.len();
        'passing: for (i, want) in parameters.iter().enumerate() {
            if !self.takes_operand(classes, state, count - 1 - i, Need::Held(*want)) {
                return false;
            }
        }
        true
    }

    /// Whether the arguments suit the method that is called.
    fn takes_call(&self, classes: &Classes, state: &State, callee: Entry) -> bool
        requires method { IsCheckedMethod classes.now.names self.now }
        requires known { AreKnown classes.now }
        requires state { IsWholeState (length classes.now.names) self.now.body.now state.now }
        ensures { (parameters : Seq FieldType) (max_locals : ℕ) → Invoked self.now.program.now callee parameters max_locals
            → result ≡ takes_all self.now.body.now (type_state classes.now.names state.now) (argument_needs parameters) }
    {
        match self.types.method(callee) {
            Some(signature) => self.takes_arguments(classes, state, &signature.parameters),
            None => true,
        }
    }

    /// Whether what is stored suits the static field.
    fn takes_stored(&self, classes: &Classes, state: &State, class: u32, field: u32) -> bool
        requires method { IsCheckedMethod classes.now.names self.now }
        requires known { AreKnown classes.now }
        requires state { IsWholeState (length classes.now.names) self.now.body.now state.now }
        ensures { (type : FieldType) → IsFieldOf self.now.program.now class field type
            → result ≡ takes_all self.now.body.now (type_state classes.now.names state.now) (need_held 0 (held_of type)) }
    {
        match self.types.field(class, field) {
            Some(want) => self.takes_operand(classes, state, 0, Need::Held(want)),
            None => true,
        }
    }

    /// Whether what is returned suits the result of the method.
    fn takes_returned(&self, classes: &Classes, state: &State) -> bool
        requires method { IsCheckedMethod classes.now.names self.now }
        requires known { AreKnown classes.now }
        requires state { IsWholeState (length classes.now.names) self.now.body.now state.now }
        ensures { result ≡ takes_all self.now.body.now (type_state classes.now.names state.now)
            (returned_needs (method_type_in self.now.body.now.desc).returns) }
    {
        match self.types.method(self.method) {
            Some(signature) => match signature.returns {
                Some(want) => self.takes_operand(classes, state, 0, Need::Held(want)),
                None => true,
            },
            None => true,
        }
    }

    /// Whether the one reference that an instruction takes, if it takes one, is of a class that it needs.
    fn takes_needed(&self, classes: &Classes, state: &State, operation: Operation) -> bool
        requires method { IsCheckedMethod classes.now.names self.now }
        requires known { AreKnown classes.now }
        requires state { IsWholeState (length classes.now.names) self.now.body.now state.now }
        requires made { IsMadeOperation operation }
        ensures { (d : OperationOf) → Shows operation d → is_by_descriptor operation ≡ false
            → result ≡ takes_all self.now.body.now (type_state classes.now.names state.now) (needs_of d) }
    {
        match need_of(operation) {
            Some(needed) => self.takes_operand(classes, state, needed.above, needed.need),
            None => true,
        }
    }

    /// Whether the references that an instruction takes from a stack are of classes that it needs.
    pub fn operands_suit(&self, classes: &Classes, at: u32, state: &State) -> bool
        requires method { IsCheckedMethod classes.now.names self.now }
        requires known { AreKnown classes.now }
        requires state { IsWholeState (length classes.now.names) self.now.body.now state.now }
        ensures { result ≡ takes_all self.now.body.now (type_state classes.now.names state.now)
            (needs_of (operation_of_place self.now.program.now self.now.method at)) }
    {
        let operation = self.operations.operation(self.method, at);
        match operation {
            Operation::Puts { class, field, .. } => self.takes_stored(classes, state, class, field),
            Operation::Invokes(callee) => self.takes_call(classes, state, callee),
            Operation::Returns { .. } => self.takes_returned(classes, state),
            _ => self.takes_needed(classes, state, operation),
        }
    }
}
