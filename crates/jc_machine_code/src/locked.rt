//! Calls of synchronized methods (JVM Specification 2.11.10; 6.5, invokestatic).
ghost use Rattle.std.specs.Prelude.{◌≡◌, ℕ, Some, slice_get};
ghost use Rattle.std.specs.Option.{option_map};
ghost use Rattle.jc_programs.specs.declared.program.Program.{Program};
ghost use Rattle.jc_programs.specs.declared.program.Linked.{Linked};
ghost use Rattle.jc_machine_model.specs.Profile.{Location};
ghost use Rattle.jc_machine_model.specs.Fits.{named_by, called_by};
ghost use Rattle.jc_machine_model.specs.Locked.{locked_body, locked_method, locked_call};
ghost use Rattle.jc_machine_code.specs.Prepared.{Tells};
ghost use Rattle.jc_machine_code.specs.Sites.{IsClassIndex, IsSite, UsesFit};

use crate::PreparedOperation;
use crate::index::ClassIndex;
use crate::methods::is_locked;
use crate::places::what_at;
use crate::site::{Named, Site};
use jc_methods::{Insn, What, opcode};
use jc_programs::Entry;

/// A method of a class, if only its being synchronized keeps a thread from entering it.
fn locked_body(callee: Entry, index: &ClassIndex<'_>) -> Option<Entry>
    ensures { (i : ℕ) (linked : Linked) → IsClassIndex i linked index.now
        → result ≡ locked_body callee linked (slice_get linked.bodies callee.method) }
{
    match index.linked.bodies.as_slice().get(callee.method as usize) {
        None => None,
        Some(body) => {
            if is_locked(index.linked, body, index.most) {
                Some(callee)
            } else {
                None
            }
        }
    }
}

impl<'a, 'i> Site<'a, 'i> {
    /// The method, if only its being synchronized keeps a thread from entering it.
    fn locked_method(&self, callee: Option<Entry>) -> Option<Entry>
        ensures { (program : Program) (at : Location) → IsSite program at self.now → result ≡ locked_method program callee }
    {
        match callee {
            None => None,
            Some(callee) => match self.index.class_at(callee.class) {
                None => None,
                Some(index) => locked_body(callee, index),
            },
        }
    }

    /// The method that `invokestatic` calls, by what it names.
    fn named_on(&self, what: &'a What) -> Option<Entry>
        ensures { (program : Program) (at : Location) → IsSite program at self.now → result ≡ named_by program (Some what.now) }
    {
        match what {
            What::Method { class, name, desc } => self.callee_named(Named {
                class: class.as_slice(),
                name: name.as_slice(),
                desc: desc.as_slice(),
            }),
            _ => None,
        }
    }

    /// The method that `invokestatic` calls.
    fn named_by(&self, what: Option<&'a What>) -> Option<Entry>
        ensures { (program : Program) (at : Location) → IsSite program at self.now
            → result ≡ named_by program (option_map (λ w. w.now) what.entry) }
    {
        match what {
            Some(what) => self.named_on(what),
            None => None,
        }
    }

    /// The method that an instruction calls, if it is an `invokestatic`.
    fn called_by(&self, insn: &Insn) -> Option<Entry>
        ensures { (program : Program) (at : Location) → IsSite program at self.now → result ≡ called_by program at insn.now }
    {
        match insn {
            Insn::Member { op, place } => {
                if *op == opcode::INVOKESTATIC {
                    self.named_by(what_at(&self.whats, *place))
                } else {
                    None
                }
            }
            _ => None,
        }
    }

    /// The method that an instruction calls, if only its being synchronized keeps a thread from entering it.
    fn locked_callee(&self, insn: &Insn) -> Option<Entry>
        ensures { (program : Program) (at : Location) → IsSite program at self.now
            → result ≡ locked_call program (Some (record { at = at; insn = insn.now })) }
    {
        if self.is_init {
            return None;
        }
        let callee = self.called_by(insn);
        self.locked_method(callee)
    }

    /// An instruction that stands at a place of the method.
    pub fn prepared(&self, place: u32, insn: &Insn) -> PreparedOperation
        requires { UsesFit self.now insn.now }
        ensures { (program : Program) (at : Location) → IsSite program at self.now → at.place ≡ place
            → Tells program (Some (record { at = at; insn = insn.now })) result }
    {
        match self.locked_callee(insn) {
            Some(callee) => PreparedOperation::Locked(callee),
            None => PreparedOperation::Plain(self.operation_of(place, insn)),
        }
    }
}
