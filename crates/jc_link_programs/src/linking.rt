//! Programs of class files.
ghost use Rattle.std.specs.Prelude.{◌≡◌, ◌⊎◌, ◌++◌, ◌∷◌, [], ◌<◌, ◌≤◌, ◌^◌, ⊤, length, All, Some, IfOk, IfErr, MatchResult};
ghost use Rattle.jc_bytes.specs.Failing.{Said};
ghost use Rattle.jc_bytes.specs.Reader.{most_read};
ghost use Rattle.jc_methods.specs.VerificationTypes.{Grows};
ghost use Rattle.jc_pool.specs.Lookup.{class_name_of};
ghost use Rattle.jc_class.specs.Writable.{IsClassFile};
ghost use Rattle.jc_class.specs.Sizes.{BodiesWithin};
ghost use Rattle.jc_instrument.specs.Causes.{NoCause, IsFirstCause};
ghost use Rattle.jc_machine_model.specs.Programs.{IsLinked, IsProgram, IsStatic};
ghost use Rattle.jc_programs.specs.declared.program.Program.{Program as Linking};
ghost use Rattle.jc_link_programs.specs.declared.link_refusal.LinkRefusal.{LinkRefusal as Reason};
ghost use Rattle.jc_link_programs.specs.Linking.{link_causes, LinkReason, IsLinkedOf, IsLinkedClass, AreLinkedClasses, IsProgramOf, IsLinkClash, IsLinkRefusal};
ghost use Rattle.jc_link_programs.specs.Pairs.{HaveOneId, HaveOneName, IsFirstPair, NoPair};
ghost use Rattle.jc_link_programs.specs.ProbeInits.{AreProbes};
ghost use Rattle.jc_link_programs.specs.Statics.{has_clinit, statics_of};
ghost use Rattle.jc_link_programs.specs.Steps.{IsAnswer, PairAnswer};

use crate::link_refusal::{LinkClash, LinkRefusal, plain};
use crate::pairs::{Pair, first_of_one_id, first_of_one_name};
use crate::probe_inits::probes_of;
use crate::statics::{has_clinit, statics_of};
use jc_bytes::{Bytes, Fail, List, Memory, Names, Refusal, RefusalKind};
use jc_class::{ClassFile, read_class};
use jc_instrument::{is_wrong_version, named_bodies};
use jc_methods::Body;
use jc_programs::{Linked, Program};
use std::alloc::Global;

/// The name of a class.
fn class_name(alloc: Global, class: &ClassFile) -> Result<Bytes, Memory>
    requires { IsClassFile class.now }
    ensures { IfOk result (λ name. class_name_of class.now.pool class.now.this_class ≡ Some name) }
{
    match class.pool.class_at(class.this_class) {
        Ok(name) => Ok(Bytes::copy_of(alloc, name)?),
        Err(_) => unreachable!(),
    }
}

/// The class with these bodies of its methods.
fn class_with(alloc: Global, class: &ClassFile, bodies: List<Body>) -> Result<Linked, Memory>
    requires { IsClassFile class.now }
    ensures name { IfOk result (λ c. class_name_of class.now.pool class.now.this_class ≡ Some c.name) }
    ensures version { IfOk result (λ c. c.version ≡ class.now.major) }
    ensures bodies { IfOk result (λ c. c.bodies ≡ bodies) }
    ensures statics { IfOk result (λ c. c.statics ≡ statics_of class.now) }
    ensures firsts { IfOk result (λ c. All IsStatic c.statics) }
    ensures few { IfOk result (λ c. length c.statics ≤ 65535) }
    ensures clinit { IfOk result (λ c. c.has_clinit ≡ has_clinit class.now) }
    ensures probes { IfOk result (λ c. AreProbes class.now c.name c.bodies c.probes) }
{
    let name = class_name(alloc, class)?;
    let probes = probes_of(alloc, class, &name, &bodies)?;
    Ok(Linked {
        version: class.major,
        statics: statics_of(alloc, class)?,
        has_clinit: has_clinit(class),
        name,
        bodies,
        probes,
    })
}

/// What is linked of a class file, with the classes of its frames by their numbers in `names`.
fn linked_of(alloc: Global, class: &ClassFile, names: &mut Names) -> Result<Linked, Fail<Refusal>>
    requires class { IsClassFile class.now }
    requires sizes { All (λ m. BodiesWithin most_read m.attributes) class.now.methods }
    ensures linked { IfOk result (IsLinkedOf names.new class.now) }
    ensures fits { IfOk result (IsLinked names.new) }
    ensures refused { IfErr result (λ e. Said e (IsFirstCause (link_causes class.now))) }
    ensures no_cause { IfOk result (λ _. NoCause (link_causes class.now)) }
    ensures grows { Grows names.old names.new }
{
    if is_wrong_version(class.major) {
        return Err(Fail::Said(Refusal {
            kind: RefusalKind::Version,
            method: None,
            place: u32::from(class.major),
        }));
    }
    let bodies = named_bodies(alloc, class, names)?;
    Ok(class_with(alloc, class, bodies)?)
}

/// The class of a class file, with the classes of its frames by their numbers in `names`. The file's constant pool is
/// let go of with its other items.
fn linked(alloc: Global, bytes: &[u8], names: &mut Names) -> Result<Linked, Fail<Refusal>>
    requires { length bytes.now ≤ most_read }
    ensures linked { IfOk result (IsLinkedClass names.new bytes.now) }
    ensures fits { IfOk result (IsLinked names.new) }
    ensures refused { IfErr result (λ e. Said e (λ r. LinkReason bytes.now (Some r))) }
    ensures grows { Grows names.old names.new }
{
    let class = read_class(alloc, bytes)?;
    linked_of(alloc, &class, names)
}

/// The classes of class files, in their order.
fn classes_of(
    alloc: Global,
    files: &[Bytes],
    names: &mut Names,
) -> Result<List<Linked>, Fail<LinkClash>>
    requires few { length files.now < 2 ^ 32 }
    requires sizes { All (λ f. length f ≤ most_read) files.now }
    ensures classes { IfOk result (AreLinkedClasses names.new files.now) }
    ensures fit { IfOk result (All (IsLinked names.new)) }
    ensures refused { IfErr result (λ e. Said e (IsLinkClash files.now)) }
{
    let mut classes = List::new(alloc);
    'linking: for (index, bytes) in files.iter().enumerate() {
        match linked(alloc, bytes, names) {
            Ok(class) => classes.push(class)?,
            Err(Fail::Memory) => return Err(Fail::Memory),
            Err(Fail::Said(refusal)) => {
                let index = index as u32;
                return Err(Fail::Said(LinkClash::Class { index, refusal }));
            }
        }
    }
    Ok(classes)
}

/// Two classes of one name, with that name.
fn name_clash(alloc: Global, classes: &[Linked], pair: Pair) -> Result<LinkClash, Memory>
    requires { IsFirstPair (HaveOneName classes.now) pair.first pair.second }
    ensures { IfOk result (λ clash. PairAnswer classes.now (Some clash)) }
{
    let Pair { first, second } = pair;
    let name = Bytes::copy_of(alloc, &classes[first as usize].name)?;
    Ok(LinkClash::SameName {
        first,
        second,
        name,
    })
}

/// Two classes whose probes have one id, with that id.
fn id_clash(classes: &[Linked], pair: Pair) -> LinkClash
    requires names { NoPair (HaveOneName classes.now) }
    requires pair { IsFirstPair (HaveOneId classes.now) pair.first pair.second }
    ensures { PairAnswer classes.now (Some result) }
{
    let Pair { first, second } = pair;
    let class = &classes[first as usize];
    let Some(init) = class.probes else {
        unreachable!();
    };
    LinkClash::SameId {
        first,
        second,
        id: init.id,
    }
}

/// Why classes are no program, if they are none: two of one name, or else two whose probes have one id.
fn pair_clash(alloc: Global, classes: &[Linked]) -> Result<Option<LinkClash>, Memory>
    requires { length classes.now < 2 ^ 32 }
    ensures { IfOk result (PairAnswer classes.now) }
{
    if let Some(pair) = first_of_one_name(alloc, classes)? {
        return Ok(Some(name_clash(alloc, classes, pair)?));
    }
    if let Some(pair) = first_of_one_id(alloc, classes)? {
        return Ok(Some(id_clash(classes, pair)));
    }
    Ok(None)
}

/// The program, or why there is none.
fn answer(alloc: Global, files: &[Bytes]) -> Result<Program, Fail<LinkClash>>
    requires few { length files.now < 2 ^ 32 }
    requires sizes { All (λ f. length f ≤ most_read) files.now }
    ensures { IsAnswer files.now result }
{
    let mut names = Names::new(alloc)?;
    let classes = classes_of(alloc, files, &mut names)?;
    match pair_clash(alloc, &classes)? {
        Some(clash) => Err(Fail::Said(clash)),
        None => Ok(Program { classes, names }),
    }
}

/// The program of class files, as [`link`] says, or why they have none, with what two of them have in common.
///
/// # Errors
///
/// `Memory` where memory was refused. Else `Said`, the refusal of [`link`], with the class name or the class id that two
/// files have in common.
pub fn link_or_clash(alloc: Global, files: &[Bytes]) -> Result<Program, Fail<LinkClash>>
    requires few { length files.now < 2 ^ 32 }
    requires sizes { All (λ f. length f ≤ most_read) files.now }
    ensures linked { IfOk result (IsProgramOf files.now) }
    ensures program { IfOk result IsProgram }
    ensures refused { IfErr result (λ e. Said e (IsLinkClash files.now)) }
    ensures accepted { (p : Linking) → IsProgramOf files.now p → MatchResult result (λ _. ⊤) (λ e. e ≡ Fail.Memory) }
{
    answer(alloc, files)
}

/// The program of class files: for each its class, with the bodies of its methods, which pass the kind check (JVM
/// Specification 4.10.1), and its static fields. A static begins with the number of its one ConstantValue attribute, as
/// it is stored where values of its type are kept, and else with 0 (4.7.2). A class has probes where its first method
/// `$jacocoInit ()[Z` with code is the one that instrumentation adds to a class of its name.
///
/// # Errors
///
/// `Memory` where memory was refused. Else `Said`, the first of these that applies:
///
/// 1. `Class`, with the number of the first file that isn't linked, from 0, and why: the first of `NotAClass`, `Version`,
///    `Subroutine`, `BadCode`, `FrameMissing` and `FrameClash` that applies to it, as [`jc_instrument::analyse`] says.
/// 2. `SameName`, with the numbers of two files of one class name.
/// 3. `SameId`, with the numbers of two files whose probes have one class id.
///
/// Of several pairs it is the one with the least second number, and of those the one with the least first.
pub fn link(alloc: Global, files: &[Bytes]) -> Result<Program, Fail<LinkRefusal>>
    requires few { length files.now < 2 ^ 32 }
    requires sizes { All (λ f. length f ≤ most_read) files.now }
    // What is answered is so.
    ensures linked { IfOk result (IsProgramOf files.now) }
    ensures program { IfOk result IsProgram }
    ensures refused { IfErr result (λ e. Said e (IsLinkRefusal files.now)) }
    // What is so is answered, unless memory runs out.
    ensures accepted { (p : Linking) → IsProgramOf files.now p → MatchResult result (λ _. ⊤) (λ e. e ≡ Fail.Memory) }
    ensures reason { (r : Reason) → IsLinkRefusal files.now r
        → MatchResult result (λ _. ⊥) (λ e. (e ≡ Fail.Memory) ⊎ (e ≡ Fail.Said r)) }
{
    match link_or_clash(alloc, files) {
        Ok(program) => Ok(program),
        Err(Fail::Memory) => Err(Fail::Memory),
        Err(Fail::Said(clash)) => Err(Fail::Said(plain(clash))),
    }
}
