//! The attributes of an instrumented class.
ghost use Rattle.std.specs.Prelude.{◌≡◌, ◌<◌, IfOk};
ghost use Rattle.jc_bootstraps.specs.Bootstraps.{HaveBootstraps, bootstrap_bodies, with_bootstrap};
ghost use Rattle.jc_instrument_code.specs.CodeText.{attribute as attribute_of};
ghost use Rattle.jc_instrument.specs.TwinText.{twin_attributes, with_one_more};
ghost use Rattle.jc_instrument.specs.Needed.{IsNextBootstrap};

use crate::bootstraps::bootstraps_number;
use crate::needs::MemberPlaces;
use jc_bootstraps::push_bootstrap;
use jc_bytes::{List, Memory};
use jc_class::Attribute;
use jc_methods::Fetch;
use jc_pool::Pool;
use std::alloc::Global;

/// The attribute BootstrapMethods with one bootstrap method more, behind so many, by its handle and without arguments (JVM
/// Specification 4.7.23).
fn longer_attribute(
    alloc: Global,
    attribute: &Attribute,
    handle: u16,
    bootstrap: u16,
) -> Result<Attribute, Memory>
    requires { bootstrap < 65535 }
    ensures { IfOk result (λ new. new ≡ attribute_of attribute.now.name (with_bootstrap handle bootstrap attribute.now.body)) }
{
    Ok(Attribute {
        name: attribute.name,
        body: push_bootstrap(alloc, handle, bootstrap, &attribute.body)?,
    })
}

/// The attributes of a class with one bootstrap method more, behind so many. Where none of them is named BootstrapMethods, that one
/// comes last.
fn with_one_more(
    alloc: Global,
    pool: &Pool,
    attributes: List<Attribute>,
    bootstrap: u16,
    places: &MemberPlaces,
) -> Result<List<Attribute>, Memory>
    requires few { bootstrap < 65535 }
    requires number { HaveBootstraps (bootstrap_bodies pool.now attributes) bootstrap }
    ensures { IfOk result (λ all. all ≡ with_one_more pool.now bootstrap places.now attributes) }
{
    let mut all = attributes.into_vec();
    match bootstraps_number(pool, &all) {
        Some(number) => {
            all[number] = longer_attribute(alloc, &all[number], places.handle, bootstrap)?;
        }
        None => all.push(Attribute {
            name: places.bootstraps,
            body: push_bootstrap(alloc, places.handle, 0, &[])?,
        })?,
    }
    Ok(List::from_vec(all))
}

/// The attributes of the instrumented class, whose added bootstrap method, where there is one, has this number.
///
/// # Errors
///
/// `Memory` where memory was refused.
pub fn twin_attributes(
    alloc: Global,
    pool: &Pool,
    attributes: List<Attribute>,
    fetch: Fetch,
    bootstrap: u16,
    places: &MemberPlaces,
) -> Result<List<Attribute>, Memory>
    requires few { bootstrap < 65535 }
    requires number { IsNextBootstrap fetch (bootstrap_bodies pool.now attributes) bootstrap }
    ensures { IfOk result (λ all. all ≡ twin_attributes fetch pool.now bootstrap places.now attributes) }
{
    match fetch {
        Fetch::Member => Ok(attributes),
        Fetch::Constant => with_one_more(alloc, pool, attributes, bootstrap, places),
    }
}
