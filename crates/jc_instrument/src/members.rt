//! The members of an instrumented class: methods with their new code, and the field and the method that are added.
ghost use Rattle.std.specs.Prelude.{◌≡◌, ◌≤◌, ◌++◌, ℕ, List as Seq, codes, map, IsTrue, IfOk, IfErr};
ghost use Rattle.jc_methods.specs.ProbeMembers.{most_probes};
ghost use Rattle.jc_methods.specs.VerificationTypes.{Names as ClassNames};
ghost use Rattle.jc_body.specs.Attributes.{has_name};
ghost use Rattle.jc_body.specs.First.{FirstItem};
ghost use Rattle.jc_instrument.specs.BodiesWithStates.{BodyWithStates};
ghost use Rattle.jc_instrument.specs.Members.{AreCoded, HasOneCode};
ghost use Rattle.jc_instrument.specs.Ready.{AreReadyFrom};
ghost use Rattle.jc_instrument.specs.Writing.{ArePut, AreWorksOf, RefusesWorks};
ghost use Rattle.jc_instrument.specs.TwinText.{added_fields, data_member, init_member, with_code};

use crate::again::planned_text;
use crate::constants::ProbeConstants;
use crate::needs::MemberPlaces;
use crate::ready::{PlannedBody, method_of};
use jc_body::has_name;
use jc_bytes::{Bytes, Fail, List, Memory, Names};
use jc_class::{Attribute, ClassFile, Member};
use jc_instrument_code::{AddedPlaces, CodePlaces, write_added};
use jc_methods::Fetch;
use jc_pool::{Pool, PoolFull};
use std::alloc::Global;
use std::mem;

/// The flags of the field: private, static, transient and synthetic (JVM Specification 4.5).
const DATA_FLAGS: u16 = 0x108a;

/// The flags of the method: private, static and synthetic (JVM Specification 4.6).
const INIT_FLAGS: u16 = 0x100a;

/// The number of the first attribute that is named Code.
fn code_number(pool: &Pool, attributes: &[Attribute]) -> Option<usize>
    ensures { FirstItem (λ number a. IsTrue (has_name pool.now (codes "Code") a)) attributes.now result }
{
    attributes
        .iter()
        .position(|attribute| has_name(pool, b"Code", attribute))
}

/// Puts a text in place of what the method's Code attribute holds (JVM Specification 4.7.3).
fn put_code(alloc: Global, pool: &Pool, method: &mut Member, text: Bytes)
    requires { HasOneCode pool.now method.old }
    ensures { method.new ≡ record method.old { attributes = map (with_code pool.now text) method.old.attributes } }
{
    let Some(number) = code_number(pool, &method.attributes) else {
        unreachable!();
    };
    let mut attributes = mem::replace(&mut method.attributes, List::new(alloc)).into_vec();
    let name = attributes[number].name;
    attributes[number] = Attribute { name, body: text };
    method.attributes = List::from_vec(attributes);
}

/// Bodies whose probes are planned, and the class from which those are read again that weren't kept.
#[derive(Drop)]
pub struct PlannedBodies<'a> {
    /// The bodies, in the order of their methods.
    pub bodies: List<PlannedBody>,
    /// The class as it was given, where a body wasn't kept.
    pub source: &'a Option<ClassFile>,
    /// The constants that their code loads.
    pub constants: &'a ProbeConstants,
}

/// The methods of a class, in which those of the bodies have their instrumented code. Body after body is written and dropped,
/// and the pool takes what the frames of each ask for.
///
/// # Errors
///
/// `PoolFull` where the pool can't take one of the classes, and `Memory` where memory was refused, and where a text
/// would be too long for an attribute.
pub fn put_codes(
    alloc: Global,
    methods: List<Member>,
    all: PlannedBodies<'_>,
    places: &CodePlaces,
    names: &mut Names,
    pool: &mut Pool,
) -> Result<List<Member>, Fail<PoolFull>>
    requires ready { AreReadyFrom names.old all.constants.now all.source.now all.bodies }
    requires coded { AreCoded pool.old methods all.bodies }
    ensures put { (other : ClassNames) (array : ℕ) (work : Seq BodyWithStates)
        → AreWorksOf names.old other all.entry array work
        → IfOk result (ArePut pool.old places.now other all.entry.constants.now array work methods pool.new) }
    ensures refused { (other : ClassNames) (array : ℕ) (work : Seq BodyWithStates)
        → AreWorksOf names.old other all.entry array work
        → IfErr result (RefusesWorks pool.old all.entry.constants.now other array work) }
{
    let PlannedBodies {
        bodies,
        source,
        constants,
    } = all;
    let mut methods = methods.into_vec();
    'putting: for planned in bodies.into_vec() {
        let number = usize::from(method_of(&planned));
        let text = planned_text(alloc, planned, source, constants, places, names, pool)?;
        put_code(alloc, pool, &mut methods[number], text);
    }
    Ok(List::from_vec(methods))
}

/// The field that keeps the array of probes.
fn data_member(alloc: Global, places: &MemberPlaces) -> Member
    ensures { result ≡ data_member places.now }
{
    Member {
        flags: DATA_FLAGS,
        name: places.data_name,
        desc: places.data_type,
        attributes: List::new(alloc),
    }
}

/// The fields of the class with the one that is added, where one is.
///
/// # Errors
///
/// `Memory` where memory was refused.
pub fn with_added_fields(
    alloc: Global,
    fields: List<Member>,
    fetch: Fetch,
    places: &MemberPlaces,
) -> Result<List<Member>, Memory>
    ensures { IfOk result (λ all. all ≡ fields ++ added_fields fetch places.now) }
{
    let mut all = fields;
    match fetch {
        Fetch::Member => all.push(data_member(alloc, places))?,
        Fetch::Constant => (),
    }
    Ok(all)
}

/// The method that gives the array of so many probes.
///
/// # Errors
///
/// `Memory` where memory was refused.
pub fn init_member(
    alloc: Global,
    fetch: Fetch,
    places: &MemberPlaces,
    count: u32,
) -> Result<Member, Memory>
    requires { count ≤ most_probes }
    ensures { IfOk result (λ method. method ≡ init_member fetch places.now count) }
{
    let added = AddedPlaces {
        field: places.field,
        id: places.id,
        name: places.name,
        count: places.count,
        fetch: places.fetch,
        array: places.array,
        frames: places.frames,
    };
    let body = write_added(alloc, fetch, &added, count)?;
    let mut attributes = List::new(alloc);
    attributes.push(Attribute {
        name: places.code,
        body,
    })?;
    Ok(Member {
        flags: INIT_FLAGS,
        name: places.init_name,
        desc: places.init_type,
        attributes,
    })
}
