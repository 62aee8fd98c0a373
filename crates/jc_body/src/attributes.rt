//! Attributes by their names (JVM Specification 4.7).
ghost use Rattle.std.specs.Prelude.{◌≡◌, map, IfOk};
ghost use Rattle.jc_body.specs.Attributes.{has_name, bodies_of};

use jc_bytes::Memory;
use jc_class::Attribute;
use jc_pool::Pool;
use std::alloc::Global;

/// Whether the attribute has this name (JVM Specification 4.7).
pub fn has_name(pool: &Pool, name: &[u8], attribute: &Attribute) -> bool
    ensures { result ≡ has_name pool.now name.now attribute.now }
{
    match pool.utf8_at(attribute.name) {
        Ok(text) => text == name,
        Err(_) => false,
    }
}

/// What the attributes of this name hold, in their order.
pub fn bodies_of<'a>(
    alloc: Global,
    pool: &Pool,
    name: &[u8],
    attributes: &'a [Attribute],
) -> Result<Vec<&'a [u8]>, Memory>
    ensures { IfOk result (λ bodies. map (λ body. body.now) bodies.items ≡ bodies_of pool.now name.now attributes.now) }
{
    let mut bodies = Vec::new(alloc);
    'naming: for attribute in attributes {
        if has_name(pool, name, attribute) {
            bodies.push(attribute.body.as_slice())?;
        }
    }
    Ok(bodies)
}
