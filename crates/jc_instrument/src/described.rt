//! What of a class file a report is made from.
ghost use Rattle.std.specs.Prelude.{◌≡◌, ◌≤◌, Some, List as Seq, map, All, IfOk};
ghost use Rattle.jc_bytes.specs.Texts.{IsShortText};
ghost use Rattle.jc_methods.specs.WellMade.{IsWellMade};
ghost use Rattle.jc_methods.specs.declared.body.Body.{Body as MethodBody};
ghost use Rattle.jc_class.specs.ClassFormat.{HasClass, HasSuper};
ghost use Rattle.jc_class.specs.Writable.{IsClassFile};
ghost use Rattle.jc_pool.specs.Lookup.{class_name_of};
ghost use Rattle.jc_bytes.specs.Reader.{most_read};
ghost use Rattle.jc_plan.specs.Analysed.{all_insns_and_arms, IsAnalysed};
ghost use Rattle.jc_instrument.specs.Analysis.{super_name_of, Describes};
ghost use Rattle.jc_instrument.specs.ClassWalk.{analysed_of};

use crate::class_walk::ClassOutline;
use crate::plans::{Planned, plans_of};
use jc_bytes::{Bytes, List, Memory};
use jc_class::{ClassFile, class_id};
use jc_methods::{Analysed, Body};
use jc_pool::Pool;
use std::alloc::Global;

/// The name of the class at a place that has one.
pub fn class_name_at(alloc: Global, pool: &Pool, place: u16) -> Result<Bytes, Memory>
    requires { HasClass pool.now place }
    ensures name { IfOk result (λ name. class_name_of pool.now place ≡ Some name) }
    ensures short { IfOk result IsShortText }
{
    match pool.class_at(place) {
        Ok(name) => Ok(Bytes::copy_of(alloc, name)?),
        Err(_) => unreachable!(),
    }
}

/// The name of the superclass, if there is one.
fn super_name_of(alloc: Global, pool: &Pool, place: u16) -> Result<Option<Bytes>, Memory>
    requires { HasSuper pool.now place }
    ensures { IfOk result (λ name. name ≡ super_name_of pool.now place) }
{
    if place == 0 {
        return Ok(None);
    }
    Ok(Some(class_name_at(alloc, pool, place)?))
}

/// The names of the classes at places that have one.
fn class_names_at(alloc: Global, pool: &Pool, places: &[u16]) -> Result<List<Bytes>, Memory>
    requires { All (HasClass pool.now) places.now }
    ensures { IfOk result (λ names. map Some names ≡ map (class_name_of pool.now) places.now) }
{
    let mut names = List::new(alloc);
    'naming: for place in places {
        names.push(class_name_at(alloc, pool, *place)?)?;
    }
    Ok(names)
}

/// The class but its bodies, with so many probes.
pub fn outline(
    alloc: Global,
    bytes: &[u8],
    class: &ClassFile,
    probes: u32,
) -> Result<ClassOutline, Memory>
    requires class { IsClassFile class.now }
    ensures described { (bodies : Seq MethodBody) → IfOk result (λ o. Describes bytes.now class.now (analysed_of o bodies)) }
    ensures probes { IfOk result (λ o. o.probes ≡ probes) }
{
    let pool = &class.pool;
    Ok(ClassOutline {
        id: class_id(bytes),
        name: class_name_at(alloc, pool, class.this_class)?,
        version: class.major,
        flags: class.flags,
        super_name: super_name_of(alloc, pool, class.super_class)?,
        interfaces: class_names_at(alloc, pool, &class.interfaces)?,
        probes,
    })
}

/// The class, with these bodies and their plans.
pub fn described(
    alloc: Global,
    bytes: &[u8],
    class: &ClassFile,
    bodies: List<Body>,
) -> Result<Analysed, Memory>
    requires class { IsClassFile class.now }
    requires made { All IsWellMade bodies }
    requires few { all_insns_and_arms bodies ≤ most_read }
    ensures described { IfOk result (Describes bytes.now class.now) }
    ensures bodies { IfOk result (λ a. a.bodies ≡ bodies) }
    ensures analysed { IfOk result IsAnalysed }
{
    let Planned { plans, probes } = plans_of(alloc, &bodies)?;
    let outline = outline(alloc, bytes, class, probes)?;
    Ok(Analysed {
        id: outline.id,
        name: outline.name,
        version: outline.version,
        flags: outline.flags,
        super_name: outline.super_name,
        interfaces: outline.interfaces,
        bodies,
        plans,
        probes,
    })
}
