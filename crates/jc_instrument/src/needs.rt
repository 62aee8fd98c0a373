//! What the constant pool of an instrumented class has to have.
ghost use Rattle.std.specs.Prelude.{◌≡◌, ◌≤◌, [], ℕ, List as Seq, length, IfOk, IfErr, OnOk};
ghost use Rattle.jc_methods.specs.ProbeMembers.{most_probes};
ghost use Rattle.jc_bytes.specs.Texts.{IsShortText};
ghost use Rattle.jc_pool.specs.Adding.{Extends, RefusesFull};
ghost use Rattle.jc_instrument.specs.Contents.{Takes, TakesEach};
ghost use Rattle.jc_instrument.specs.Needed.{constant_needs, count_needs, count_places, early_needs, integer_needs, member_needs, place_list, signed_id};
ghost use Rattle.jc_instrument.specs.Taking.{RefusesEach, content_needed, contents_of};

use jc_bytes::Fail;
use jc_methods::{
    BOOTSTRAP_TYPE, BOOTSTRAPS_NAME, CONSTANT_TYPE, DATA_NAME, FETCH_NAME, FETCH_TYPE, Fetch,
    INIT_NAME, INIT_TYPE, MOST_SHORT, PROBE_ARRAY, RUNTIME_CLASS,
};
use jc_pool::{Pool, PoolFull};
use std::alloc::Global;

/// The tag of a Fieldref entry (JVM Specification 4.4, table 4.4-A).
const FIELD: u8 = 9;

/// The tag of a Methodref entry.
const METHOD: u8 = 10;

/// The first id, and the first number of probes, that no shorter instruction pushes than the load of an Integer.
const FIRST_LONG: u32 = MOST_SHORT + 1;

/// What the added members need of the pool.
#[derive(Clone, Copy, Debug)]
pub enum Need {
    /// The name of the field.
    DataName,
    /// The type of the field.
    DataType,
    /// The name of the method.
    InitName,
    /// The type of the method.
    InitType,
    /// The type of the method, where it is a bootstrap method.
    BootstrapType,
    /// The field.
    Field,
    /// The method.
    Method,
    /// The handle of the method, where it is a bootstrap method.
    Handle,
    /// The method of the runtime class.
    Fetch,
    /// The name of the attribute Code.
    Code,
    /// The name of the attribute StackMapTable.
    Frames,
    /// The name of the attribute BootstrapMethods.
    Bootstraps,
    /// The id of the class.
    Id,
    /// The name of the class, as a string.
    Name,
    /// The class of the array of probes.
    Array,
}

/// What a class needs whose method keeps the array in a field, in the order in which it is taken.
const FIELD_NEEDS: [Need; 12] = [
    Need::DataName,
    Need::DataType,
    Need::InitName,
    Need::InitType,
    Need::Field,
    Need::Method,
    Need::Fetch,
    Need::Code,
    Need::Frames,
    Need::Id,
    Need::Name,
    Need::Array,
];

/// What a class needs whose method is a bootstrap method, in the order in which it is taken.
const BOOTSTRAP_NEEDS: [Need; 9] = [
    Need::InitName,
    Need::BootstrapType,
    Need::Handle,
    Need::Fetch,
    Need::Code,
    Need::Bootstraps,
    Need::Id,
    Need::Name,
    Need::Array,
];

/// Where the pool has what the added members need. A place is 0 of what they don't need.
#[derive(Clone, Copy, Debug)]
pub struct MemberPlaces {
    /// The name of the field.
    pub data_name: u16,
    /// The type of the field.
    pub data_type: u16,
    /// The name of the method.
    pub init_name: u16,
    /// The type of the method.
    pub init_type: u16,
    /// The field.
    pub field: u16,
    /// The method, where it is called.
    pub method: u16,
    /// The handle of the method, where it is a bootstrap method.
    pub handle: u16,
    /// The method of the runtime class.
    pub fetch: u16,
    /// The name of the attribute Code.
    pub code: u16,
    /// The name of the attribute StackMapTable.
    pub frames: u16,
    /// The name of the attribute BootstrapMethods.
    pub bootstraps: u16,
    /// The id of the class.
    pub id: u16,
    /// The name of the class, as a string.
    pub name: u16,
    /// The number of probes, where no shorter instruction pushes it than the load of its Integer.
    pub count: u16,
    /// The class of the array of probes.
    pub array: u16,
}

/// The first place of an entry that stands for what is needed by the class with this name and this id. Where there
/// is none, it is put behind the others.
fn take(
    alloc: Global,
    need: Need,
    owner: &[u8],
    id: u64,
    pool: &mut Pool,
) -> Result<u16, Fail<PoolFull>>
    requires { IsShortText owner.now }
    ensures ok { IfOk result (Takes pool.old (content_needed owner.now (signed_id id) need) pool.new) }
    ensures full { RefusesFull (Takes pool.old (content_needed owner.now (signed_id id) need)) result }
    ensures extends { Extends pool.old pool.new }
    ensures fits { OnOk result (length pool.new ≤ 65535) }
{
    match need {
        Need::DataName => pool.add_utf8(alloc, DATA_NAME),
        Need::DataType => pool.add_utf8(alloc, PROBE_ARRAY),
        Need::InitName => pool.add_utf8(alloc, INIT_NAME),
        Need::InitType => pool.add_utf8(alloc, INIT_TYPE),
        Need::BootstrapType => pool.add_utf8(alloc, BOOTSTRAP_TYPE),
        Need::Field => pool.add_member(alloc, FIELD, owner, DATA_NAME, PROBE_ARRAY),
        Need::Method => pool.add_member(alloc, METHOD, owner, INIT_NAME, INIT_TYPE),
        Need::Handle => pool.add_handle(alloc, owner, INIT_NAME, BOOTSTRAP_TYPE),
        Need::Fetch => pool.add_member(alloc, METHOD, RUNTIME_CLASS, FETCH_NAME, FETCH_TYPE),
        Need::Code => pool.add_utf8(alloc, b"Code"),
        Need::Frames => pool.add_utf8(alloc, b"StackMapTable"),
        Need::Bootstraps => pool.add_utf8(alloc, BOOTSTRAPS_NAME),
        Need::Id => pool.add_long(alloc, id.cast_signed()),
        Need::Name => pool.add_string(alloc, owner),
        Need::Array => pool.add_class(alloc, PROBE_ARRAY),
    }
}

/// The first places of what is needed, in the order in which it is taken.
fn take_each(
    alloc: Global,
    needs: &[Need],
    owner: &[u8],
    id: u64,
    pool: &mut Pool,
) -> Result<Vec<u16>, Fail<PoolFull>>
    requires { IsShortText owner.now }
    ensures ok { IfOk result (λ places. TakesEach pool.old (contents_of owner.now (signed_id id) needs.now) pool.new places.items) }
    ensures count { IfOk result (λ places. length places.items ≡ length needs.now) }
    ensures refused { IfErr result (RefusesEach pool.old (contents_of owner.now (signed_id id) needs.now)) }
    ensures extends { Extends pool.old pool.new }
{
    let mut places = Vec::new(alloc);
    'taking: for need in needs {
        let place = take(alloc, *need, owner, id, pool)?;
        places.push(place)?;
    }
    Ok(places)
}

/// The place of the Integer of the number of probes; or 0, where a shorter instruction pushes it, and nothing is taken.
fn take_count(alloc: Global, count: u32, pool: &mut Pool) -> Result<u16, Fail<PoolFull>>
    requires { count ≤ most_probes }
    ensures ok { IfOk result (λ place. TakesEach pool.old (count_needs count) pool.new (count_places count place)) }
    ensures refused { IfErr result (RefusesEach pool.old (count_needs count)) }
    ensures extends { Extends pool.old pool.new }
{
    if count < FIRST_LONG {
        return Ok(0);
    }
    pool.add_int(alloc, count as i32)
}

/// The pool takes what the field and the method need that are added to the class with this name and this id.
fn take_field_members(
    alloc: Global,
    owner: &[u8],
    id: u64,
    count: u32,
    pool: &mut Pool,
) -> Result<MemberPlaces, Fail<PoolFull>>
    requires short { IsShortText owner.now }
    requires count { count ≤ most_probes }
    ensures ok { IfOk result (λ places. TakesEach pool.old (member_needs Fetch.Member owner.now (signed_id id) count []) pool.new
        (place_list Fetch.Member count [] places)) }
    ensures refused { IfErr result (RefusesEach pool.old (member_needs Fetch.Member owner.now (signed_id id) count [])) }
    ensures extends { Extends pool.old pool.new }
{
    let places = take_each(alloc, &FIELD_NEEDS, owner, id, pool)?;
    Ok(MemberPlaces {
        data_name: places[0],
        data_type: places[1],
        init_name: places[2],
        init_type: places[3],
        field: places[4],
        method: places[5],
        handle: 0,
        fetch: places[6],
        code: places[7],
        frames: places[8],
        bootstraps: 0,
        id: places[9],
        name: places[10],
        count: take_count(alloc, count, pool)?,
        array: places[11],
    })
}

/// The pool takes what the bootstrap method needs that is added to the class with this name and this id.
fn take_bootstrap_members(
    alloc: Global,
    owner: &[u8],
    id: u64,
    count: u32,
    pool: &mut Pool,
) -> Result<MemberPlaces, Fail<PoolFull>>
    requires short { IsShortText owner.now }
    requires count { count ≤ most_probes }
    ensures ok { IfOk result (λ places. TakesEach pool.old (member_needs Fetch.Constant owner.now (signed_id id) count []) pool.new
        (place_list Fetch.Constant count [] places)) }
    ensures refused { IfErr result (RefusesEach pool.old (member_needs Fetch.Constant owner.now (signed_id id) count [])) }
    ensures extends { Extends pool.old pool.new }
{
    let places = take_each(alloc, &BOOTSTRAP_NEEDS, owner, id, pool)?;
    Ok(MemberPlaces {
        data_name: 0,
        data_type: 0,
        init_name: places[0],
        init_type: places[1],
        field: 0,
        method: 0,
        handle: places[2],
        fetch: places[3],
        code: places[4],
        frames: 0,
        bootstraps: places[5],
        id: places[6],
        name: places[7],
        count: take_count(alloc, count, pool)?,
        array: places[8],
    })
}

/// The pool takes what the added members of the class with this name and this id need, which has so many probes (JVM Specification
/// 4.1, 4.4), but for the name of the attribute of frames, where frames ask for it. Each entry that is missing is put behind the
/// others.
///
/// # Errors
///
/// `PoolFull` exactly where the pool's count would be above 65,535, and `Memory` where memory was refused.
pub fn take_members(
    alloc: Global,
    fetch: Fetch,
    owner: &[u8],
    id: u64,
    count: u32,
    pool: &mut Pool,
) -> Result<MemberPlaces, Fail<PoolFull>>
    requires short { IsShortText owner.now }
    requires count { count ≤ most_probes }
    ensures ok { IfOk result (λ places. TakesEach pool.old (member_needs fetch owner.now (signed_id id) count []) pool.new (place_list fetch count [] places)) }
    ensures refused { IfErr result (RefusesEach pool.old (member_needs fetch owner.now (signed_id id) count [])) }
    ensures extends { Extends pool.old pool.new }
{
    match fetch {
        Fetch::Member => take_field_members(alloc, owner, id, count, pool),
        Fetch::Constant => take_bootstrap_members(alloc, owner, id, count, pool),
    }
}

/// The pool takes the constant that the bootstrap method with this number gives, where the methods load one.
fn take_constant(
    alloc: Global,
    fetch: Fetch,
    bootstrap: u16,
    pool: &mut Pool,
) -> Result<(), Fail<PoolFull>>
    ensures ok { OnOk result ((places : Seq ℕ) × TakesEach pool.old (constant_needs fetch bootstrap) pool.new places) }
    ensures refused { IfErr result (RefusesEach pool.old (constant_needs fetch bootstrap)) }
    ensures extends { Extends pool.old pool.new }
{
    match fetch {
        Fetch::Member => Ok(()),
        Fetch::Constant => {
            pool.add_dynamic(alloc, bootstrap, DATA_NAME, CONSTANT_TYPE)?;
            Ok(())
        }
    }
}

/// The pool takes the Integers of the ids that no shorter instruction pushes, of so many ids.
fn take_integers(alloc: Global, count: u32, pool: &mut Pool) -> Result<(), Fail<PoolFull>>
    requires { count ≤ most_probes }
    ensures ok { OnOk result ((places : Seq ℕ) × TakesEach pool.old (integer_needs count) pool.new places) }
    ensures refused { IfErr result (RefusesEach pool.old (integer_needs count)) }
    ensures extends { Extends pool.old pool.new }
{
    'taking: for id in FIRST_LONG..count {
        pool.add_int(alloc, id as i32)?;
    }
    Ok(())
}

/// The pool takes what the code of a class with so many probes loads: the constant that the bootstrap method with this number gives,
/// where the methods load one, and then the Integers of ids.
///
/// # Errors
///
/// `PoolFull` exactly where the pool's count would be above 65,535, and `Memory` where memory was refused.
pub fn take_constants(
    alloc: Global,
    fetch: Fetch,
    bootstrap: u16,
    count: u32,
    pool: &mut Pool,
) -> Result<(), Fail<PoolFull>>
    requires { count ≤ most_probes }
    ensures ok { OnOk result ((places : Seq ℕ) × TakesEach pool.old (early_needs fetch bootstrap count) pool.new places) }
    ensures refused { IfErr result (RefusesEach pool.old (early_needs fetch bootstrap count)) }
    ensures extends { Extends pool.old pool.new }
{
    take_constant(alloc, fetch, bootstrap, pool)?;
    take_integers(alloc, count, pool)
}
