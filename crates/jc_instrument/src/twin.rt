//! The instrumented class, from its parts.
ghost use Rattle.std.specs.Prelude.{◌≡◌, ◌≤◌, ◌<◌, ℕ, List as Seq, All, IfOk, IfErr, length};
ghost use Rattle.jc_methods.specs.ProbeMembers.{most_probes};
ghost use Rattle.jc_methods.specs.VerificationTypes.{Names as ClassNames};
ghost use Rattle.jc_bytes.specs.Reader.{most_read};
ghost use Rattle.jc_class.specs.ClassText.{ClassText};
ghost use Rattle.jc_class.specs.Sizes.{BodiesWithin};
ghost use Rattle.jc_class.specs.Writable.{IsClassFile};
ghost use Rattle.jc_instrument.specs.BodiesWithStates.{BodyWithStates as Work};
ghost use Rattle.jc_instrument.specs.Members.{AreCoded, AreTextPlaces, IsFirstIfAny};
ghost use Rattle.jc_bytes.specs.Failing.{Said};
ghost use Rattle.jc_bytes.specs.Texts.{IsShortText};
ghost use Rattle.jc_bootstraps.specs.Bootstraps.{bootstrap_bodies};
ghost use Rattle.jc_instrument.specs.Needed.{IsNextBootstrap, name_of};
ghost use Rattle.jc_instrument.specs.Ready.{AreReadyFrom, source_of};
ghost use Rattle.jc_instrument.specs.ReadyClass.{IsReadyClass};
ghost use Rattle.jc_instrument.specs.RoomCauses.{HasFullPool};
ghost use Rattle.jc_instrument.specs.TwinText.{IsWrittenFor, giver_in};
ghost use Rattle.jc_instrument.specs.Writing.{AreReadyWorks, IsFullFor, IsTwinFrom, RefusesWorks};

use crate::again::source_of;
use crate::attributes::twin_attributes;
use crate::constants::ProbeConstants;
use crate::members::{PlannedBodies, init_member, put_codes, with_added_fields};
use crate::needs::{MemberPlaces, take_constants, take_members};
use crate::ready_class::ReadyClass;
use jc_bytes::{Fail, Names, Refusal, RefusalKind};
use jc_class::ClassFile;
use jc_instrument_code::{CodePlaces, first_text};
use jc_methods::Fetch;
use jc_pool::{Pool, PoolFull};
use std::alloc::Global;

/// Where the pool has what the instrumented class names.
#[derive(Clone, Copy, Debug)]
pub struct TwinPlaces {
    /// What the added members name.
    pub members: MemberPlaces,
    /// What the Code attributes name.
    pub codes: CodePlaces,
}

/// The first place of a Utf8 entry with this text (JVM Specification 4.4.7), or 0 where there is none.
fn text_place(pool: &Pool, text: &[u8]) -> u16
    ensures { IsFirstIfAny pool.now text.now result }
{
    match first_text(pool, text) {
        Some(place) => place,
        None => 0,
    }
}

/// The place of what the prelude names first.
fn giver_place(constants: &ProbeConstants, members: &MemberPlaces) -> u16
    ensures { result ≡ giver_in constants.now members.now }
{
    match constants.fetch {
        Fetch::Member => members.method,
        Fetch::Constant => constants.giver,
    }
}

/// Where the pool has what the Code attributes name. A text that stands nowhere is one that no method needs.
fn code_places(pool: &Pool, constants: &ProbeConstants, members: &MemberPlaces) -> CodePlaces
    ensures texts { AreTextPlaces pool.now result }
    ensures giver { result.giver ≡ giver_in constants.now members.now }
    ensures array { result.array ≡ members.now.array }
    ensures frames { result.frames ≡ members.now.frames }
    ensures few { length pool.now ≤ 65535 }
{
    // The count of a pool has two bytes (JVM Specification 4.1).
    let count = pool.count();
    prove!(count <= u16::MAX);
    CodePlaces {
        giver: giver_place(constants, members),
        array: members.array,
        lines: text_place(pool, b"LineNumberTable"),
        vars: text_place(pool, b"LocalVariableTable"),
        kind_vars: text_place(pool, b"LocalVariableTypeTable"),
        frames: members.frames,
    }
}

/// The instrumented class. The pool of the class has taken what the added members need, and takes what frames ask for. Bodies that weren't kept are read again from `source`.
fn twin_class(
    alloc: Global,
    class: ClassFile,
    ready: ReadyClass,
    source: &Option<ClassFile>,
    names: &mut Names,
    places: &TwinPlaces,
) -> Result<ClassFile, Fail<PoolFull>>
    requires few { ready.probes ≤ most_probes }
    requires giver { places.now.codes.giver ≡ giver_in ready.constants places.now.members }
    requires array { places.now.codes.array ≡ places.now.members.array }
    requires frames { places.now.codes.frames ≡ places.now.members.frames }
    requires ready { AreReadyFrom names.old ready.constants source.now ready.bodies }
    requires coded { AreCoded class.pool class.methods ready.bodies }
    requires number { IsNextBootstrap ready.constants.fetch (bootstrap_bodies class.pool class.attributes) ready.bootstrap }
    requires room { ready.bootstrap < 65535 }
    ensures twin { (others : ClassNames) (array : ℕ) (works : Seq Work) → AreReadyWorks names.old others ready array source.now works
        → IfOk result (IsTwinFrom class places.now ready others array works) }
    ensures refused { (others : ClassNames) (array : ℕ) (works : Seq Work) → AreReadyWorks names.old others ready array source.now works
        → IfErr result (RefusesWorks class.pool ready.constants others array works) }
{
    let ReadyClass {
        bodies,
        probes,
        bootstrap,
        constants,
    } = ready;
    let fetch = constants.fetch;
    let ClassFile {
        minor,
        major,
        mut pool,
        flags,
        this_class,
        super_class,
        interfaces,
        fields,
        methods,
        attributes,
    } = class;
    let all = PlannedBodies {
        bodies,
        source,
        constants: &constants,
    };
    let members = &places.members;
    let attributes = twin_attributes(alloc, &pool, attributes, fetch, bootstrap, members)?;
    let mut methods = put_codes(alloc, methods, all, &places.codes, names, &mut pool)?;
    let fields = with_added_fields(alloc, fields, fetch, members)?;
    methods.push(init_member(alloc, fetch, members, probes)?)?;
    Ok(ClassFile {
        minor,
        major,
        pool,
        flags,
        this_class,
        super_class,
        interfaces,
        fields,
        methods,
        attributes,
    })
}

/// The id and the name of a class.
#[derive(Clone, Copy, Debug, PartialEq, Eq)]
pub struct ClassIdentity<'a> {
    /// The id: that of the bytes that were given.
    pub id: u64,
    /// The name.
    pub name: &'a [u8],
}

/// The instrumented class of a class with this id and this name, whose bodies are ready. Its pool takes the constants that code
/// loads, what the added members need, and then what frames ask for, body after body. `source` is the class as it was given.
fn written_twin(
    alloc: Global,
    identity: ClassIdentity<'_>,
    class: ClassFile,
    ready: ReadyClass,
    source: &Option<ClassFile>,
    names: &mut Names,
) -> Result<ClassFile, Fail<PoolFull>>
    requires class { IsClassFile class }
    requires name { name_of class ≡ identity.name.now }
    requires short { IsShortText identity.name.now }
    requires ready { IsReadyClass names.old class ready }
    requires source { source.now ≡ source_of ready.bodies class }
    requires sizes { All (λ m. BodiesWithin most_read m.attributes) class.methods }
    requires few { ready.probes ≤ most_probes }
    requires number { ready.bootstrap < 65535 }
    ensures twin { IfOk result (IsWrittenFor identity.entry.id class) }
    ensures refused { IfErr result (IsFullFor identity.entry.id class) }
{
    let mut class = class;
    let fetch = ready.constants.fetch;
    let probes = ready.probes;
    take_constants(alloc, fetch, ready.bootstrap, probes, &mut class.pool)?;
    let ClassIdentity { id, name } = identity;
    let members = take_members(alloc, fetch, name, id, probes, &mut class.pool)?;
    let codes = code_places(&class.pool, &ready.constants, &members);
    let places = TwinPlaces { members, codes };
    twin_class(alloc, class, ready, source, names, &places)
}

/// The same, with a class that is dropped then.
fn twin_from(
    alloc: Global,
    identity: ClassIdentity<'_>,
    class: ClassFile,
    ready: ReadyClass,
    source: Option<ClassFile>,
    names: &mut Names,
) -> Result<ClassFile, Fail<PoolFull>>
    requires class { IsClassFile class }
    requires name { name_of class ≡ identity.name.now }
    requires short { IsShortText identity.name.now }
    requires ready { IsReadyClass names.old class ready }
    requires source { source ≡ source_of ready.bodies class }
    requires sizes { All (λ m. BodiesWithin most_read m.attributes) class.methods }
    requires few { ready.probes ≤ most_probes }
    requires number { ready.bootstrap < 65535 }
    ensures twin { IfOk result (IsWrittenFor identity.entry.id class) }
    ensures refused { IfErr result (IsFullFor identity.entry.id class) }
{
    written_twin(alloc, identity, class, ready, &source, names)
}

/// The instrumented class of a class with this id and this name, whose bodies are ready; or, where its pool would be full,
/// the refusal. These are the bytes of the class, from which bodies are read again that weren't kept.
pub fn grown_twin(
    alloc: Global,
    identity: ClassIdentity<'_>,
    bytes: &[u8],
    class: ClassFile,
    ready: ReadyClass,
    names: &mut Names,
) -> Result<ClassFile, Fail<Refusal>>
    requires few_bytes { length bytes.now ≤ most_read }
    requires read { ClassText bytes.now class }
    requires class { IsClassFile class }
    requires name { name_of class ≡ identity.name.now }
    requires short { IsShortText identity.name.now }
    requires ready { IsReadyClass names.old class ready }
    requires sizes { All (λ m. BodiesWithin most_read m.attributes) class.methods }
    requires few { ready.probes ≤ most_probes }
    requires number { ready.bootstrap < 65535 }
    ensures twin { IfOk result (IsWrittenFor identity.entry.id class) }
    ensures refused { IfErr result (λ e. Said e (HasFullPool identity.entry.id class)) }
{
    let source = source_of(alloc, bytes, &ready.bodies)?;
    match twin_from(alloc, identity, class, ready, source, names) {
        Ok(twin) => Ok(twin),
        Err(Fail::Memory) => Err(Fail::Memory),
        Err(Fail::Said(_)) => Err(Fail::Said(Refusal {
            kind: RefusalKind::PoolFull,
            method: None,
            place: 65_536,
        })),
    }
}
