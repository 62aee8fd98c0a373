//! Instructions that name classes, fields and methods.
ghost use Rattle.std.specs.Prelude.{◌≡◌, ℕ, Some, nat_eq, option_and_then, slice_get, IfSome, if◌then◌else◌};
ghost use Rattle.std.specs.Option.{option_map};
ghost use Rattle.jc_bytes.specs.Descriptor.{IsFieldDescriptor};
ghost use Rattle.jc_methods.specs.declared.body.What.TheVariants as whats;
ghost use Rattle.jc_methods.specs.InsnUse.{IsMemberFor};
ghost use Rattle.jc_methods.specs.Opcode as opcode;
ghost use Rattle.jc_programs.specs.declared.program.Program.{Program};
ghost use Rattle.jc_programs.specs.declared.program.Linked.{Linked};
ghost use Rattle.jc_programs.specs.Members.{class_at, static_named};
ghost use Rattle.jc_machine_model.specs.Profile.{Location, may_name_field, declared_field, linked_field, field_named, may_name_method};
ghost use Rattle.jc_machine_model.specs.Profile.{callee_named, body_entered, method_entered};
ghost use Rattle.jc_machine_model.specs.Profile.{constant_operation, long_operation, init_of, is_fetch, init_call, static_call, call_named};
ghost use Rattle.jc_machine_model.specs.Profile.{member_operation, cast_operation, class_operation, operation_of};
ghost use Rattle.jc_machine_model.specs.Operations.{tests, jumps};
ghost use Rattle.jc_machine_code.specs.Shown.{Shows};
ghost use Rattle.jc_machine_code.specs.Sites.{IsClassIndex, IsSite, UsesFit};

use crate::Operation;
use crate::calls::{special_call, virtual_call};
use crate::constants::{constant_operation, long_operation};
use crate::fields::{field_operation, is_print_stream};
use crate::index::{ClassIndex, ProgramIndex};
use crate::locals::local_operation;
use crate::methods::{is_enterable, is_init_name};
use crate::places::{Whats, what_at};
use crate::simple::{array_operation, simple_operation};
use crate::throwables::make_operation;
use jc_machine_numbers::Narrowing;
use jc_methods::{
    DATA_NAME, FETCH_NAME, FETCH_TYPE, Insn, PROBE_ARRAY, RUNTIME_CLASS, What, opcode,
};
use jc_programs::{Entry, ProbeInit};

/// The method whose instructions are looked at.
#[derive(Drop)]
pub struct Site<'a, 'i> {
    /// The classes of the program by name.
    pub index: &'i ProgramIndex<'a>,
    /// The number of the class.
    pub class: u32,
    /// Whether the method is named `$jacocoInit`.
    pub is_init: bool,
    /// What the method gives when it asks for a probe array.
    pub init: Option<ProbeInit>,
    /// Whether the class gets its probe array by a constant.
    pub has_constant: bool,
    /// What the class gives its methods by a constant.
    pub given: Option<ProbeInit>,
    /// Whether instruction 0 of the method gives the probe array of the class.
    pub begins_with_array: bool,
    /// How an int is narrowed that the method returns.
    pub narrowing: Narrowing,
    /// What the method uses at places in the constant pool.
    pub whats: Whats<'a>,
}

/// A field or a method that an instruction names.
#[derive(Clone, Copy)]
pub struct Named<'a> {
    /// The name of the class.
    pub class: &'a [u8],
    /// The name of the field or the method.
    pub name: &'a [u8],
    /// Its descriptor.
    pub desc: &'a [u8],
}

/// Whether they are the class, the name and the descriptor of the method that gives probe arrays.
fn is_fetch(named: Named<'_>) -> bool
    ensures { result ≡ is_fetch named.entry.class.now named.entry.name.now named.entry.desc.now }
{
    named.class == RUNTIME_CLASS && (named.name == FETCH_NAME && named.desc == FETCH_TYPE)
}

/// A conditional jump or `goto`.
fn jump_operation(op: u8, to: u32) -> Operation
    ensures { Shows result (if nat_eq op opcode.goto then jumps to else tests op to) }
{
    if op == opcode::GOTO {
        Operation::Jumps { to }
    } else {
        Operation::Tests { op, to }
    }
}

/// `ldc2_w`.
fn long_constant(what: Option<&What>) -> Operation
    ensures { Shows result (long_operation (option_map (λ w. w.now) what.entry)) }
{
    match what {
        Some(what) => long_operation(what),
        None => Operation::Outside,
    }
}

impl<'a, 'i> Site<'a, 'i> {
    /// Whether a field of this name of the class with this number may be named.
    fn may_name_field(&self, class: u32, name: &[u8]) -> bool
        ensures { (program : Program) (at : Location) → IsSite program at self.now → result ≡ may_name_field at class name.now }
    {
        name != DATA_NAME || (self.is_init && self.class == class)
    }

    /// Whether a method of this name of the class with this number may be called by the instruction at a place.
    fn may_name_method(&self, place: u32, class: u32, name: &[u8]) -> bool
        ensures { (program : Program) (at : Location) → IsSite program at self.now → at.place ≡ place → result ≡ may_name_method at class name.now }
    {
        !is_init_name(name) || (place == 0 && (self.class == class && !self.has_constant))
    }

    /// The number of the static field of the class with a number.
    fn static_in(&self, class: u32, named: Named<'a>) -> Option<u32>
        ensures { (program : Program) (at : Location) → IsSite program at self.now
            → result ≡ option_and_then (λ (c : Linked). static_named c.statics named.entry.name.now named.entry.desc.now) (class_at program class) }
    {
        self.index
            .class_at(class)?
            .static_named(named.name, named.desc)
    }

    /// `getstatic` or `putstatic` of the static field that the class with a number declares.
    fn declared_field(&self, op: u8, class: u32, named: Named<'a>, field: Option<u32>) -> Operation
        requires { IsFieldDescriptor named.desc.now }
        ensures { (program : Program) (at : Location) → IsSite program at self.now
            → Shows result (declared_field op at class named.entry.name.now named.entry.desc.now field) }
    {
        match field {
            None => Operation::Outside,
            Some(field) => {
                if !self.may_name_field(class, named.name) {
                    return Operation::Outside;
                }
                field_operation(op, class, field, named.desc)
            }
        }
    }

    /// `getstatic` or `putstatic` of a static field of the class with a number, if there is one.
    fn linked_field(&self, op: u8, named: Named<'a>, class: Option<u32>) -> Operation
        requires { IsFieldDescriptor named.desc.now }
        ensures { (program : Program) (at : Location) → IsSite program at self.now
            → Shows result (linked_field op at program named.entry.name.now named.entry.desc.now class) }
    {
        match class {
            None => Operation::Outside,
            Some(class) => {
                let field = self.static_in(class, named);
                self.declared_field(op, class, named, field)
            }
        }
    }

    /// `getstatic` or `putstatic` of a field by its names.
    fn field_named(&self, op: u8, named: Named<'a>) -> Operation
        requires { IsFieldDescriptor named.desc.now }
        ensures { (program : Program) (at : Location) → IsSite program at self.now
            → Shows result (field_named op at program named.entry.class.now named.entry.name.now named.entry.desc.now) }
    {
        if is_print_stream(op, named.class, named.name, named.desc) {
            return Operation::PushPrintStream;
        }
        let class = self.index.class_named(named.class);
        self.linked_field(op, named, class)
    }

    /// The first method with code of these names.
    pub fn callee_named(&self, named: Named<'a>) -> Option<Entry>
        ensures { (program : Program) (at : Location) → IsSite program at self.now
            → result ≡ callee_named program named.entry.class.now named.entry.name.now named.entry.desc.now }
    {
        let class = self.index.class_named(named.class)?;
        let index = self.index.class_at(class)?;
        let method = index.method_named(named.name, named.desc)?;
        Some(Entry { class, method })
    }

    /// A call of a method of a class, if a thread may enter it, and it may be called by the instruction at a place.
    fn body_entered(&self, place: u32, callee: Entry, index: &ClassIndex<'a>) -> Operation
        ensures { (program : Program) (at : Location) (i : ℕ) (linked : Linked) → IsSite program at self.now → at.place ≡ place
            → IsClassIndex i linked index.now → Shows result (body_entered at callee linked (slice_get linked.bodies callee.method)) }
    {
        match index.linked.bodies.as_slice().get(callee.method as usize) {
            None => Operation::Outside,
            Some(body) => {
                if is_enterable(index.linked, body, index.most)
                    && self.may_name_method(place, callee.class, body.name.as_slice())
                {
                    Operation::Invokes(callee)
                } else {
                    Operation::Outside
                }
            }
        }
    }

    /// A call of a method, by the instruction at a place.
    fn method_entered(&self, place: u32, callee: Option<Entry>) -> Operation
        ensures { (program : Program) (at : Location) → IsSite program at self.now → at.place ≡ place
            → Shows result (method_entered at program callee) }
    {
        match callee {
            None => Operation::Outside,
            Some(callee) => match self.index.class_at(callee.class) {
                None => Operation::Outside,
                Some(index) => self.body_entered(place, callee, index),
            },
        }
    }

    /// `invokestatic` in a method named `$jacocoInit`.
    fn init_call(&self, is_fetch: bool) -> Operation
        ensures { (program : Program) (at : Location) → IsSite program at self.now → Shows result (init_call at is_fetch (init_of at)) }
    {
        if !is_fetch {
            return Operation::Outside;
        }
        match self.init {
            None => Operation::Outside,
            Some(init) => Operation::Fetches {
                class: self.class,
                init,
            },
        }
    }

    /// `invokestatic` at a place.
    fn static_call(&self, place: u32, named: Named<'a>) -> Operation
        ensures { (program : Program) (at : Location) → IsSite program at self.now → at.place ≡ place
            → Shows result (static_call at program named.entry.class.now named.entry.name.now named.entry.desc.now) }
    {
        if self.is_init {
            return self.init_call(is_fetch(named));
        }
        let callee = self.callee_named(named);
        self.method_entered(place, callee)
    }

    /// `invokestatic`, `invokevirtual` or `invokespecial` at a place.
    fn call_named(&self, op: u8, place: u32, named: Named<'a>) -> Operation
        ensures { (program : Program) (at : Location) → IsSite program at self.now → at.place ≡ place
            → Shows result (call_named op at program named.entry.class.now named.entry.name.now named.entry.desc.now) }
    {
        if op == opcode::INVOKESTATIC {
            self.static_call(place, named)
        } else if op == opcode::INVOKEVIRTUAL {
            virtual_call(self.is_init, named.class, named.name, named.desc)
        } else if op == opcode::INVOKESPECIAL {
            special_call(self.is_init, named.class, named.name, named.desc)
        } else {
            Operation::Outside
        }
    }

    /// An instruction at a place, by the field or the method that it names.
    fn operation_on(&self, op: u8, place: u32, what: &'a What) -> Operation
        requires { IsMemberFor op what.now }
        ensures { (program : Program) (at : Location) → IsSite program at self.now → at.place ≡ place
            → Shows result (member_operation op at program (Some what.now)) }
    {
        match what {
            What::Field { class, name, desc } => self.field_named(
                op,
                Named {
                    class: class.as_slice(),
                    name: name.as_slice(),
                    desc: desc.as_slice(),
                },
            ),
            What::Method { class, name, desc } => self.call_named(
                op,
                place,
                Named {
                    class: class.as_slice(),
                    name: name.as_slice(),
                    desc: desc.as_slice(),
                },
            ),
            _ => Operation::Outside,
        }
    }

    /// An instruction at a place that names a field or a method.
    fn member_operation(&self, op: u8, place: u32, what: Option<&'a What>) -> Operation
        requires { IfSome what (λ w. IsMemberFor op w.now) }
        ensures { (program : Program) (at : Location) → IsSite program at self.now → at.place ≡ place
            → Shows result (member_operation op at program (option_map (λ w. w.now) what.entry)) }
    {
        match what {
            Some(what) => self.operation_on(op, place, what),
            None => Operation::Outside,
        }
    }

    /// `checkcast` of a class with a name, at a place.
    fn cast_operation(&self, place: u32, name: &[u8]) -> Operation
        ensures { (program : Program) (at : Location) → IsSite program at self.now → at.place ≡ place
            → Shows result (cast_operation at name.now) }
    {
        if place == 1 && (name == PROBE_ARRAY && self.begins_with_array) {
            Operation::Casts { class: self.class }
        } else {
            Operation::Outside
        }
    }

    /// `new` or `checkcast` of a class with a name, at a place.
    fn class_named(&self, op: u8, place: u32, name: &[u8]) -> Operation
        ensures { (program : Program) (at : Location) → IsSite program at self.now → at.place ≡ place
            → Shows result (class_operation op at (Some (whats.Class name.now))) }
    {
        if op == opcode::NEW {
            make_operation(name)
        } else if op == opcode::CHECKCAST {
            self.cast_operation(place, name)
        } else {
            Operation::Outside
        }
    }

    /// An instruction at a place, which names what stands at a place in the constant pool as its class.
    fn class_on(&self, op: u8, place: u32, what: &What) -> Operation
        ensures { (program : Program) (at : Location) → IsSite program at self.now → at.place ≡ place
            → Shows result (class_operation op at (Some what.now)) }
    {
        match what {
            What::Class(name) => self.class_named(op, place, name.as_slice()),
            _ => Operation::Outside,
        }
    }

    /// An instruction at a place that names a class.
    fn class_operation(&self, op: u8, place: u32, what: Option<&What>) -> Operation
        ensures { (program : Program) (at : Location) → IsSite program at self.now → at.place ≡ place
            → Shows result (class_operation op at (option_map (λ w. w.now) what.entry)) }
    {
        match what {
            Some(what) => self.class_on(op, place, what),
            None => Operation::Outside,
        }
    }

    /// `ldc` at a place.
    fn constant(&self, place: u32, what: Option<&What>) -> Operation
        ensures { (program : Program) (at : Location) → IsSite program at self.now → at.place ≡ place
            → Shows result (constant_operation at (option_map (λ w. w.now) what.entry)) }
    {
        match what {
            Some(what) => constant_operation(self.class, place, self.init, self.given, what),
            None => Operation::Outside,
        }
    }

    /// What an instruction is that stands at a place of the method.
    #[tactic(auto, unfolding(jc_machine_model::specs::Profile::operation_of))]
    pub fn operation_of(&self, place: u32, insn: &Insn) -> Operation
        requires { UsesFit self.now insn.now }
        ensures { (program : Program) (at : Location) → IsSite program at self.now → at.place ≡ place
            → Shows result (operation_of program at insn.now) }
    {
        match insn {
            Insn::Simple(op) => simple_operation(*op, self.narrowing),
            Insn::Push { value, .. } => Operation::PushInt(i32::from(*value)),
            Insn::Local { op, slot } => local_operation(*op, *slot),
            Insn::Inc { slot, by } => Operation::Counts {
                slot: *slot,
                by: *by,
            },
            Insn::Constant { place: at } => self.constant(place, what_at(&self.whats, *at)),
            Insn::Constant2 { place: at } => long_constant(what_at(&self.whats, *at)),
            Insn::Member { op, place: at } => {
                self.member_operation(*op, place, what_at(&self.whats, *at))
            }
            Insn::OfClass { op, place: at } => {
                self.class_operation(*op, place, what_at(&self.whats, *at))
            }
            Insn::NewArray { elem } => array_operation(*elem),
            Insn::Jump { op, to } => jump_operation(*op, *to),
            Insn::Table { .. } => Operation::Indexes,
            Insn::Lookup { .. } => Operation::Matches,
            Insn::Interface { .. } | Insn::Dynamic { .. } | Insn::Multi { .. } => {
                Operation::Outside
            }
        }
    }
}
