//! The classes of a program, their methods and their static fields by name.
ghost use Rattle.std.specs.Prelude.{◌≡◌, ℕ, ◌<◌, ◌^◌, length, None, All, MatchOption, IfOk};
ghost use Rattle.jc_programs.specs.declared.program.Program.{Program};
ghost use Rattle.jc_programs.specs.declared.program.Linked.{Linked};
ghost use Rattle.jc_programs.specs.Members.{class_named, class_at, static_named, method_named};
ghost use Rattle.jc_machine_code.specs.Prepared.{Correspond};
ghost use Rattle.jc_machine_code.specs.Sites.{HasFewMembers, IsClassIndex, IsClassAt, IsIndex};

use crate::given::given_of;
use crate::methods::most_frame_slots;
use crate::places::{Classes, Member, Members, class_places, method_places, static_places};
use jc_bytes::{List, Memory};
use jc_programs::{Linked, ProbeInit, Program};
use std::alloc::Global;

/// A class, and its members by name.
#[derive(Drop)]
pub struct ClassIndex<'a> {
    /// The class.
    pub linked: &'a Linked,
    /// The most slots that a method of it may have.
    pub most: u32,
    /// What it gives its methods by a constant.
    pub given: Option<ProbeInit>,
    /// The numbers of its methods with code.
    pub methods: Members<'a>,
    /// The numbers of its static fields.
    pub statics: Members<'a>,
}

/// The classes of a program by name.
#[derive(Drop)]
pub struct ProgramIndex<'a> {
    /// The numbers of the classes.
    pub names: Classes<'a>,
    /// The classes, in the program's order.
    pub classes: List<ClassIndex<'a>>,
}

/// A class, and its members by name.
fn class_index(alloc: Global, linked: &Linked) -> Result<ClassIndex<'_>, Memory>
    requires { HasFewMembers linked.now }
    ensures { (i : ℕ) → IfOk result (λ index. IsClassIndex i linked.now index) }
{
    let methods = method_places(alloc, linked.bodies.as_slice())?;
    let statics = static_places(alloc, linked.statics.as_slice())?;
    Ok(ClassIndex {
        linked,
        most: most_frame_slots(linked),
        given: given_of(linked),
        methods,
        statics,
    })
}

/// Each class with its members by name.
fn class_indexes(alloc: Global, classes: &[Linked]) -> Result<List<ClassIndex<'_>>, Memory>
    requires { All HasFewMembers classes.now }
    ensures { IfOk result (λ indexes. Correspond IsClassIndex classes.now indexes) }
{
    let mut indexes = List::new(alloc);
    'indexing: for linked in classes {
        indexes.push(class_index(alloc, linked)?)?;
    }
    Ok(indexes)
}

impl<'a> ClassIndex<'a> {
    /// The number of the first method with a name and a descriptor.
    pub fn method_named(&self, name: &'a [u8], desc: &'a [u8]) -> Option<u32>
        ensures { (i : ℕ) (linked : Linked) → IsClassIndex i linked self.now → result ≡ method_named linked.bodies name.now desc.now }
    {
        let member = Member { name, desc };
        self.methods.get(&member).copied()
    }

    /// The number of the first static field with a name and a descriptor.
    pub fn static_named(&self, name: &'a [u8], desc: &'a [u8]) -> Option<u32>
        ensures { (i : ℕ) (linked : Linked) → IsClassIndex i linked self.now → result ≡ static_named linked.statics name.now desc.now }
    {
        let member = Member { name, desc };
        self.statics.get(&member).copied()
    }
}

impl<'a> ProgramIndex<'a> {
    /// The classes of a program, and their members, by name.
    ///
    /// # Errors
    ///
    /// `Memory` where memory was refused.
    pub fn of(alloc: Global, program: &'a Program) -> Result<ProgramIndex<'a>, Memory>
        requires few { length program.now.classes < 2 ^ 32 }
        requires members { All HasFewMembers program.now.classes }
        ensures { IfOk result (λ index. IsIndex program.now index) }
    {
        Ok(ProgramIndex {
            names: class_places(alloc, program.classes.as_slice())?,
            classes: class_indexes(alloc, program.classes.as_slice())?,
        })
    }

    /// The class with a number.
    pub fn class_at(&self, class: u32) -> Option<&ClassIndex<'a>>
        ensures { (program : Program) → IsIndex program self.now
            → MatchOption result (class_at program class ≡ None) (λ index. IsClassAt program class index.now) }
    {
        self.classes.as_slice().get(class as usize)
    }

    /// The number of the class with a name.
    pub fn class_named(&self, name: &'a [u8]) -> Option<u32>
        ensures { (program : Program) → IsIndex program self.now → result ≡ class_named program name.now }
    {
        self.names.get(&name).copied()
    }
}
