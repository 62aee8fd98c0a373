//! The bodies of a class.
ghost use Rattle.std.specs.Prelude.{◌≡◌, ◌<◌, ◌≤◌, ◌+◌, true, length, All, IfOk, IfErr, OnOk};
ghost use Rattle.jc_methods.specs.VerificationTypes.{Grows};
ghost use Rattle.jc_bytes.specs.Reader.{most_read};
ghost use Rattle.jc_methods.specs.WellMade.{IsWellMade};
ghost use Rattle.jc_class.specs.Writable.{IsClassFile};
ghost use Rattle.jc_class.specs.Sizes.{BodiesWithin};
ghost use Rattle.jc_bytes.specs.Failing.{Said};
ghost use Rattle.jc_instrument.specs.Bodies.{AreBodies, AreBodiesOf};
ghost use Rattle.jc_instrument.specs.Causes.{NoCause, IsFirstCause};
ghost use Rattle.jc_instrument.specs.Reasons.{method_causes, code_causes, analysis_causes};
ghost use Rattle.jc_instrument.specs.Steps.{HasStates, IsReading, IsSubroutineAt, AreCheckedUnder, AreCheckedBodies};

use crate::alone::{interface_refusal, is_left_alone};
use crate::checks::check_bodies;
use crate::class::class_refusal;
use crate::kept::keep_first;
use jc_body::read_body;
use jc_bytes::{Fail, List, Memory, Names, Refusal, RefusalKind};
use jc_class::ClassFile;
use jc_methods::Body;
use std::alloc::Global;

/// What was read of the first methods of a class.
#[derive(Debug, Drop)]
pub struct Reading {
    /// Their bodies.
    pub bodies: List<Body>,
    /// The first fault of their code, none of which is a subroutine instruction.
    pub bad: Option<Refusal>,
}

/// Reads one more method.
fn read_next(
    alloc: Global,
    class: &ClassFile,
    number: u32,
    names: &mut Names,
    reading: &mut Reading,
) -> Result<(), Fail<Refusal>>
    requires exists { number < length class.now.methods }
    requires class { IsClassFile class.now }
    requires sizes { All (λ m. BodiesWithin most_read m.attributes) class.now.methods }
    requires before { IsReading names.old class.now number reading.old }
    ensures read { OnOk result (IsReading names.new class.now (number + 1) reading.new) }
    ensures refused { IfErr result (λ e. Said e (IsSubroutineAt class.now number)) }
    ensures grows { Grows names.old names.new }
{
    match read_body(alloc, class, number, names) {
        Ok(Some(body)) => {
            reading.bodies.push(body)?;
            Ok(())
        }
        Ok(None) => Ok(()),
        Err(fail) => {
            reading.bad = keep_first(reading.bad, RefusalKind::Subroutine, fail)?;
            Ok(())
        }
    }
}

/// The bodies of a class's methods, in their order (JVM Specification 4.7.3), with classes in their frames by their
/// numbers in `names`. A subroutine instruction of any method is refused before another fault of an earlier one.
fn read_bodies(
    alloc: Global,
    class: &ClassFile,
    names: &mut Names,
) -> Result<List<Body>, Fail<Refusal>>
    requires class { IsClassFile class.now }
    requires sizes { All (λ m. BodiesWithin most_read m.attributes) class.now.methods }
    ensures bodies { IfOk result (AreBodies names.new class.now) }
    ensures well_made { IfOk result (All IsWellMade) }
    ensures refused { IfErr result (λ e. Said e (IsFirstCause (method_causes class.now))) }
    ensures grows { Grows names.old names.new }
{
    let mut so_far = Reading {
        bodies: List::new(alloc),
        bad: None,
    };
    'reading: for number in 0..class.methods.len() {
        read_next(alloc, class, number as u32, names, &mut so_far)?;
    }
    let Reading { bodies, bad } = so_far;
    match bad {
        Some(refusal) => Err(Fail::Said(refusal)),
        None => Ok(bodies),
    }
}

/// The bodies of a class's methods, each of which passes the kind check, with classes in their frames by their numbers
/// in `names`. If they are to be numbered, the classes in their states get numbers there, too.
fn bodies_under(
    alloc: Global,
    class: &ClassFile,
    numbers: bool,
    names: &mut Names,
) -> Result<List<Body>, Fail<Refusal>>
    requires class { IsClassFile class.now }
    requires sizes { All (λ m. BodiesWithin most_read m.attributes) class.now.methods }
    ensures bodies { IfOk result (AreCheckedUnder names.new class.now) }
    ensures states { numbers ≡ true → IfOk result (All (HasStates names.new)) }
    ensures well_made { IfOk result (All IsWellMade) }
    ensures refused { IfErr result (λ e. Said e (IsFirstCause (code_causes class.now))) }
    ensures grows { Grows names.old names.new }
{
    let bodies = read_bodies(alloc, class, names)?;
    check_bodies(alloc, &bodies, numbers, names)?;
    Ok(bodies)
}

/// The bodies of a class's methods, each of which passes the kind check, with classes in their frames and in their states
/// by their numbers in `names`.
pub fn named_bodies(
    alloc: Global,
    class: &ClassFile,
    names: &mut Names,
) -> Result<List<Body>, Fail<Refusal>>
    requires class { IsClassFile class.now }
    requires sizes { All (λ m. BodiesWithin most_read m.attributes) class.now.methods }
    ensures bodies { IfOk result (AreCheckedUnder names.new class.now) }
    ensures states { IfOk result (All (HasStates names.new)) }
    ensures well_made { IfOk result (All IsWellMade) }
    ensures refused { IfErr result (λ e. Said e (IsFirstCause (code_causes class.now))) }
    ensures grows { Grows names.old names.new }
{
    bodies_under(alloc, class, true, names)
}

/// The bodies, with names that aren't kept.
fn checked_bodies(alloc: Global, class: &ClassFile) -> Result<List<Body>, Fail<Refusal>>
    requires class { IsClassFile class.now }
    requires sizes { All (λ m. BodiesWithin most_read m.attributes) class.now.methods }
    ensures bodies { IfOk result (AreCheckedBodies class.now) }
    ensures well_made { IfOk result (All IsWellMade) }
    ensures refused { IfErr result (λ e. Said e (IsFirstCause (code_causes class.now))) }
{
    let mut names = Names::new(alloc)?;
    bodies_under(alloc, class, false, &mut names)
}

/// The bodies of a class: none where it stays as it is, else those of its methods, each of which passes the kind
/// check.
pub fn bodies_of(alloc: Global, class: &ClassFile) -> Result<List<Body>, Fail<Refusal>>
    requires class { IsClassFile class.now }
    requires sizes { All (λ m. BodiesWithin most_read m.attributes) class.now.methods }
    ensures bodies { IfOk result (AreBodiesOf class.now) }
    ensures no_cause { IfOk result (λ _. NoCause (analysis_causes class.now)) }
    ensures well_made { IfOk result (All IsWellMade) }
    ensures refused { IfErr result (λ e. Said e (IsFirstCause (analysis_causes class.now))) }
{
    if let Some(refusal) = class_refusal(class) {
        return Err(Fail::Said(refusal));
    }
    if is_left_alone(class) {
        return Ok(List::new(alloc));
    }
    if let Some(refusal) = interface_refusal(class) {
        return Err(Fail::Said(refusal));
    }
    checked_bodies(alloc, class)
}
