//! The constant that gives a class its probe array (JVM Specification 4.4.10; 6.5, ldc).
ghost use Rattle.std.specs.Prelude.{◌≡◌, ◌&&◌, [], ◌∷◌, Some, is_some, bytes_eq};
ghost use Rattle.std.specs.Option.{option_map};
ghost use Rattle.jc_methods.specs.ProbeMembers.{data_name, constant_type};
ghost use Rattle.jc_machine_model.specs.Profile.{Location, has_constant, is_bootstrapped, given_of, given_by, given_in, begins_with_array, computed_operation};
ghost use Rattle.jc_machine_code.specs.Places.{AreWhats};
ghost use Rattle.jc_machine_code.specs.Shown.{Shows};

use crate::Operation;
use crate::methods::declares_init;
use crate::places::{Whats, what_at};
use jc_methods::{CONSTANT_TYPE, DATA_NAME, Fetch, Insn, What, fetch_of};
use jc_programs::{Linked, ProbeInit};

/// Whether the class gets its probe array by a constant.
pub fn has_constant(class: &Linked) -> bool
    ensures { result ≡ has_constant class.now }
{
    match fetch_of(class.version) {
        Fetch::Constant => true,
        Fetch::Member => false,
    }
}

/// What a class gives its methods by a constant. The constant has a value only where the class declares the method that gives it.
pub fn given_of(class: &Linked) -> Option<ProbeInit>
    ensures { result ≡ given_of class.now }
{
    if has_constant(class) && declares_init(class) {
        class.probes
    } else {
        None
    }
}

/// Whether this is the number of the bootstrap method by which a class gives its probe array.
fn is_bootstrapped(own: Option<u16>, bootstrap: u16) -> bool
    ensures { result ≡ is_bootstrapped own bootstrap }
{
    match own {
        Some(own) => own == bootstrap,
        None => false,
    }
}

/// Whether a constant has the name and the descriptor of the one that gives a probe array.
fn is_named(name: &[u8], desc: &[u8]) -> bool
    ensures { result ≡ (bytes_eq name.now data_name && bytes_eq desc.now constant_type) }
{
    name == DATA_NAME && desc == CONSTANT_TYPE
}

/// What a constant gives, where it is the one that gives this.
pub fn given_by(
    given: Option<ProbeInit>,
    name: &[u8],
    desc: &[u8],
    bootstrap: u16,
) -> Option<ProbeInit>
    ensures { result ≡ given_by given name.now desc.now bootstrap }
{
    match given {
        Some(init) => {
            if is_bootstrapped(init.bootstrap, bootstrap) && is_named(name, desc) {
                Some(init)
            } else {
                None
            }
        }
        None => None,
    }
}

/// What a constant gives, in a class that gives its methods this by one.
fn given_in(given: Option<ProbeInit>, what: &What) -> Option<ProbeInit>
    ensures { (at : Location) → given_of at.linked ≡ given → result ≡ given_in at (Some what.now) }
{
    match what {
        What::Computed {
            name,
            desc,
            bootstrap,
        } => given_by(given, name.as_slice(), desc.as_slice(), *bootstrap),
        _ => None,
    }
}

/// Whether what stands at a place in the constant pool gives a class its probe array.
fn gives_array(given: Option<ProbeInit>, what: Option<&What>) -> bool
    ensures { (at : Location) → given_of at.linked ≡ given → result ≡ is_some (given_in at (option_map (λ w. w.now) what.entry)) }
{
    match what {
        Some(what) => given_in(given, what).is_some(),
        None => false,
    }
}

/// Whether an instruction gives a class its probe array, if it is instruction 0 of a method.
fn begins_by(given: Option<ProbeInit>, whats: &Whats<'_>, insn: &Insn) -> bool
    ensures { (at : Location) → given_of at.linked ≡ given → AreWhats at.body.uses whats.now.entries
        → result ≡ begins_with_array at (insn.now ∷ []) }
{
    match insn {
        Insn::Constant { place } => gives_array(given, what_at(whats, *place)),
        _ => false,
    }
}

/// Whether instruction 0 of a method gives the probe array of its class.
pub fn begins_with_array(given: Option<ProbeInit>, whats: &Whats<'_>, code: &[Insn]) -> bool
    ensures { (at : Location) → given_of at.linked ≡ given → AreWhats at.body.uses whats.now.entries
        → result ≡ begins_with_array at code.now }
{
    match code.get(0) {
        Some(insn) => begins_by(given, whats, insn),
        None => false,
    }
}

/// A constant at a place of the class with a number, which gives this.
pub fn computed_operation(class: u32, place: u32, given: Option<ProbeInit>) -> Operation
    ensures { (at : Location) → at.class ≡ class → at.place ≡ place → Shows result (computed_operation at given) }
{
    match given {
        Some(init) => {
            if place == 0 {
                Operation::PushProbes {
                    class,
                    count: init.count,
                }
            } else {
                Operation::Outside
            }
        }
        None => Operation::Outside,
    }
}
