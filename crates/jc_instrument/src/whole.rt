//! Instrumented class files.
ghost use Rattle.std.specs.Prelude.{◌≡◌, ◌⊎◌, ◌≤◌, ◌<◌, ⊤, true, false, length, All, Some, None, IfOk, IfErr, MatchResult};
ghost use Rattle.std.specs.List.{list_any};
ghost use Rattle.jc_bytes.specs.ByteLists.{AreBytes};
ghost use Rattle.jc_bytes.specs.Reader.{most_read};
ghost use Rattle.jc_bytes.specs.Texts.{IsShortText};
ghost use Rattle.jc_bytes.specs.declared.refusal.Refusal.{Refusal as Why};
ghost use Rattle.jc_class.specs.ClassFormat.{HasClass};
ghost use Rattle.jc_class.specs.ClassId.{class_id};
ghost use Rattle.jc_class.specs.ClassText.{ClassText};
ghost use Rattle.jc_class.specs.Sizes.{BodiesWithin};
ghost use Rattle.jc_class.specs.Writable.{IsClassFile};
ghost use Rattle.jc_bytes.specs.Failing.{Said};
ghost use Rattle.jc_methods.specs.ProbeMembers.{most_probes};
ghost use Rattle.jc_pool.specs.Lookup.{class_name_of};
ghost use Rattle.jc_instrument.specs.Bodies.{IsReadable};
ghost use Rattle.jc_instrument.specs.Causes.{IsFirstCause};
ghost use Rattle.jc_instrument.specs.Changing.{GetsProbes, changing_causes, has_too_long, is_too_long};
ghost use Rattle.jc_instrument.specs.InstrumentedFile.{IsAsGiven, IsInstrumentedFile};
ghost use Rattle.jc_instrument.specs.LeftAlone.{is_left_alone};
ghost use Rattle.jc_instrument.specs.ReadyClass.{IsReadyClass, making_causes};
ghost use Rattle.jc_instrument.specs.Refused.{Reason};
ghost use Rattle.jc_instrument.specs.RoomCauses.{HasFullPool};
ghost use Rattle.jc_instrument.specs.Writing.{IsTwinText};
ghost use Rattle.jc_instrument.specs.Verified.{IsVerified};

use crate::alone::{interface_refusal, is_left_alone};
use crate::class::class_refusal;
use crate::described::class_name_at;
use crate::ready_class::{ReadyClass, ready_class};
use crate::twin::{ClassIdentity, grown_twin};
use jc_bytes::{Bytes, Fail, List, Memory, Names, Refusal, are_bytes};
use jc_class::{Attribute, ClassFile, Member, class_id, read_class, write_class};
use std::alloc::Global;

/// A class file with probes, or one that stays as it is.
#[derive(Debug, Drop)]
pub struct Instrumented {
    /// The bytes of the class file.
    pub bytes: Bytes,
    /// The id of the class: that of its bytes before probes were put in.
    pub id: u64,
    /// The name of the class.
    pub name: Bytes,
    /// How many probes there are.
    pub probes: u32,
    /// Whether the bytes are others than those that were given.
    pub changed: bool,
}

/// A class file that stays as it is.
fn unchanged(alloc: Global, bytes: &[u8], class: &ClassFile) -> Result<Instrumented, Memory>
    requires { HasClass class.now.pool class.now.this_class }
    ensures given { IfOk result (IsAsGiven bytes.now) }
    ensures id { IfOk result (λ a. a.id ≡ class_id bytes.now) }
    ensures name { IfOk result (λ a. class_name_of class.now.pool class.now.this_class ≡ Some a.name) }
{
    Ok(Instrumented {
        bytes: Bytes::copy_of(alloc, bytes)?,
        id: class_id(bytes),
        name: class_name_at(alloc, &class.pool, class.this_class)?,
        probes: 0,
        changed: false,
    })
}

/// The most bytes that an attribute holds (JVM Specification 4.7).
const MOST_BYTES: usize = 4_294_967_295;

/// Whether the attribute would hold more bytes.
fn is_too_long(attribute: &Attribute) -> bool
    ensures { result ≡ is_too_long attribute.now }
{
    attribute.body.len() > MOST_BYTES
}

/// Whether one of the attributes would.
fn some_attribute_too_long(attributes: &[Attribute]) -> bool
    ensures { result ≡ list_any is_too_long attributes.now }
{
    attributes.iter().any(|attribute| is_too_long(attribute))
}

/// Whether one of the method's attributes would.
fn has_too_long(method: &Member) -> bool
    ensures { result ≡ has_too_long method.now }
{
    some_attribute_too_long(&method.attributes)
}

/// Whether an attribute of one of the methods would.
fn some_too_long(methods: &[Member]) -> bool
    ensures { result ≡ list_any has_too_long methods.now }
{
    methods.iter().any(|method| has_too_long(method))
}

/// A class whose bodies are ready for their instrumented code to be written, with its name.
#[derive(Debug, Drop)]
struct NamedClass {
    /// The bodies.
    ready: ReadyClass,
    /// The name of the class.
    name: Bytes,
}

/// The bodies of a class and its name; or the first refusal of those that are looked for in code and in layouts.
fn named_class(
    alloc: Global,
    class: &ClassFile,
    names: &mut Names,
) -> Result<NamedClass, Fail<Refusal>>
    requires class { IsClassFile class.now }
    requires sizes { All (λ m. BodiesWithin most_read m.attributes) class.now.methods }
    requires text { IsReadable class.now }
    requires changes { is_left_alone class.now ≡ false }
    ensures ready { IfOk result (λ named. IsReadyClass names.new class.now named.ready) }
    ensures few { IfOk result (λ named. named.ready.probes ≤ most_probes) }
    ensures number { IfOk result (λ named. named.ready.bootstrap < 65535) }
    ensures name { IfOk result (λ named. class_name_of class.now.pool class.now.this_class ≡ Some named.name) }
    ensures short { IfOk result (λ named. IsShortText named.name) }
    ensures refused { IfErr result (λ e. Said e (IsFirstCause (making_causes class.now))) }
{
    let ready = ready_class(alloc, class, names)?;
    let name = class_name_at(alloc, &class.pool, class.this_class)?;
    Ok(NamedClass { ready, name })
}

/// The bytes of an instrumented class, of which no attribute is too long.
fn class_bytes(alloc: Global, twin: ClassFile) -> Result<Bytes, Memory>
    requires { list_any has_too_long twin.methods ≡ false → list_any is_too_long twin.attributes ≡ false → IsClassFile twin }
    ensures text { IfOk result (λ bytes. ClassText bytes twin) }
    ensures bytes { IfOk result AreBytes }
{
    if some_too_long(&twin.methods) || some_attribute_too_long(&twin.attributes) {
        return Err(Memory);
    }
    let bytes = write_class(alloc, &twin)?;
    are_bytes(bytes.as_slice());
    Ok(List::from_vec(bytes))
}

/// The bytes of the instrumented class of a class of these bytes, with this id and this name, whose bodies are ready; or,
/// where its pool would be full, the refusal.
fn twin_bytes(
    alloc: Global,
    identity: ClassIdentity<'_>,
    bytes: &[u8],
    class: ClassFile,
    ready: ReadyClass,
    names: &mut Names,
) -> Result<Bytes, Fail<Refusal>>
    requires few_bytes { length bytes.now ≤ most_read }
    requires read { ClassText bytes.now class }
    requires class { IsClassFile class }
    requires name { class_name_of class.pool class.this_class ≡ Some identity.name.now }
    requires short { IsShortText identity.name.now }
    requires ready { IsReadyClass names.old class ready }
    requires sizes { All (λ m. BodiesWithin most_read m.attributes) class.methods }
    requires few { ready.probes ≤ most_probes }
    requires number { ready.bootstrap < 65535 }
    ensures text { IfOk result (IsTwinText identity.entry.id class) }
    ensures refused { IfErr result (λ e. Said e (HasFullPool identity.entry.id class)) }
{
    let twin = grown_twin(alloc, identity, bytes, class, ready, names)?;
    Ok(class_bytes(alloc, twin)?)
}

/// The class of these bytes, which has this id, with its probes; or the first refusal of those that are looked for in code and
/// while code is made and written.
fn changed(
    alloc: Global,
    id: u64,
    bytes: &[u8],
    class: ClassFile,
) -> Result<Instrumented, Fail<Refusal>>
    requires few { length bytes.now ≤ most_read }
    requires read { ClassText bytes.now class }
    requires class { IsClassFile class }
    requires sizes { All (λ m. BodiesWithin most_read m.attributes) class.methods }
    requires changes { is_left_alone class ≡ false }
    ensures changed { IfOk result (GetsProbes id class) }
    ensures refused { IfErr result (λ e. Said e (IsFirstCause (changing_causes id class))) }
{
    let mut names = Names::new(alloc)?;
    let NamedClass { ready, name } = named_class(alloc, &class, &mut names)?;
    let probes = ready.probes;
    let identity = ClassIdentity { id, name: &name };
    let bytes = twin_bytes(alloc, identity, bytes, class, ready, &mut names)?;
    Ok(Instrumented {
        bytes,
        id,
        name,
        probes,
        changed: true,
    })
}

/// The instrumented class file, or why there is none.
fn whole(alloc: Global, bytes: &[u8]) -> Result<Instrumented, Fail<Refusal>>
    requires { length bytes.now ≤ most_read }
    ensures made { IfOk result (IsInstrumentedFile bytes.now) }
    ensures refused { IfErr result (λ e. Said e (λ r. Reason bytes.now (Some r))) }
{
    let class = read_class(alloc, bytes)?;
    if let Some(refusal) = class_refusal(&class) {
        return Err(Fail::Said(refusal));
    }
    if is_left_alone(&class) {
        return Ok(unchanged(alloc, bytes, &class)?);
    }
    if let Some(refusal) = interface_refusal(&class) {
        return Err(Fail::Said(refusal));
    }
    changed(alloc, class_id(bytes), bytes, class)
}

/// The class file with its probes, or the reason for which it has none.
///
/// A module file, a synthetic class and a class or an interface without code (JVM Specification 4.1) stay as they
/// are, without probes. Another class has in its code a probe for each probed edge of its control flow, and in its constant pool
/// what these name. Below version 55 a field and a method are added that keep and give the array of probes; from 55 on the array is
/// given by a constant (4.4.10), whose bootstrap method is added, the last one of the attribute BootstrapMethods (4.7.23). The ids of its probes run
/// from 0 through the bodies (JaCoCo's documentation on control flow). The id of the class is that of the bytes given.
///
/// # Errors
///
/// `Memory` where memory was refused. Else `Said`, the first of these that applies; where the class stays as it is,
/// only the first three are looked at. Of those that name a method, it is the first one to which they apply.
///
/// 1. The eight refusals of [`crate::analyse`], in their order.
/// 2. `StraddlingLocal`, at the instruction, where a long or a double has one half in the last local variable of the
///    arguments (JVM Specification 2.6.1).
/// 3. `TooManyProbes`, with their number, where there are more than 65,535.
/// 4. `MembersFull`, at 65,536, where the class has 65,535 methods or, below version 55, as many fields (4.1).
/// 5. `BadBootstraps`, from version 55 on: at 0 where there are two attributes BootstrapMethods, or one that isn't of its form
///    (4.7.23), or where a bootstrap method has a handle or an argument at a place, or an entry of the pool asks for a bootstrap
///    method with a number, that isn't there; else at 65,536 where there are 65,535 of them, or no such attribute among 65,535.
/// 6. `LocalsFull`, at 65,536, where a method has 65,535 local variables (4.7.3).
/// 7. `StackFull`, with the depth that is needed, where the stack has no room for three operands more (4.7.3).
/// 8. `CodeTooLarge`, with its length, where the code of a method would have more than 65,535 bytes (4.7.3).
/// 9. `PoolFull`, at 65,536, where the constant pool would have a count above 65,535 (4.1).
pub fn instrument(alloc: Global, bytes: &[u8]) -> Result<Instrumented, Fail<Refusal>>
    requires size { length bytes.now ≤ most_read }
    // What is answered is so.
    ensures made { IfOk result (IsInstrumentedFile bytes.now) }
    ensures refused { IfErr result (λ e. Said e (λ r. Reason bytes.now (Some r))) }
    // The methods of an instrumented class are read again and pass the kind check, whatever the number of their instructions
    // times their slots.
    ensures verified { IfOk result (λ a. a.changed ≡ true → IsVerified a.bytes) }
    // What is so is answered, unless memory runs out.
    ensures accepted { Reason bytes.now None → MatchResult result (λ _. ⊤) (λ e. e ≡ Fail.Memory) }
    ensures reason { (r : Why) → Reason bytes.now (Some r)
        → MatchResult result (λ _. ⊥) (λ e. (e ≡ Fail.Memory) ⊎ (e ≡ Fail.Said r)) }
{
    whole(alloc, bytes)
}
