//! The bootstrap method that gives a class its probe array.
ghost use Rattle.std.specs.Prelude.{◌≡◌, ◌↔◌, ℕ, IsTrue, Some, IfSome, IfNone};
ghost use Rattle.jc_pool.specs.Lookup.{handle_of, member as text_of, reference_of};
ghost use Rattle.jc_instrument.specs.Needed.{bootstrap_handle};
ghost use Rattle.jc_link_programs.specs.OwnBootstrap.{IsLastBootstrap, IsMethod, IsOwn, bootstrap_method};

use crate::statics::single_named;
use jc_bootstraps::{LastBootstrap, bootstrap_count, last_bootstrap};
use jc_class::ClassFile;
use jc_methods::{BOOTSTRAP_TYPE, BOOTSTRAPS_NAME, INIT_NAME};
use jc_pool::{MemberText, Pool};

/// The kind of a method handle that calls a static method (JVM Specification 4.4.8, 5.4.3.5).
const INVOKE_STATIC: u8 = 6;

/// The tag of a Methodref (JVM Specification 4.4.2).
const METHODREF: u8 = 10;

/// Whether it is the bootstrap method of the class with this name, as a Methodref.
fn is_method(member: &MemberText<'_>, class: &[u8]) -> bool
    ensures { IsTrue result ↔ IsMethod class.now (text_of member.now) }
{
    member.tag == METHODREF
        && member.class == class
        && member.name == INIT_NAME
        && member.desc == BOOTSTRAP_TYPE
}

/// Whether a place names the bootstrap method of the class with this name.
fn is_bootstrap_method(pool: &Pool, place: u16, class: &[u8]) -> bool
    ensures { IsTrue result ↔ (reference_of pool.now place ≡ Some (bootstrap_method class.now)) }
{
    match pool.member_at(place) {
        Ok(member) => is_method(&member, class),
        Err(_) => false,
    }
}

/// Whether the handle that calls this method stands at a place.
fn is_bootstrap_handle(pool: &Pool, place: u16, class: &[u8]) -> bool
    ensures { IsTrue result ↔ (handle_of pool.now place ≡ Some (bootstrap_handle class.now)) }
{
    match pool.handle_at(place) {
        Ok(handle) => {
            handle.kind == INVOKE_STATIC && is_bootstrap_method(pool, handle.member, class)
        }
        Err(_) => false,
    }
}

/// Whether it is the bootstrap method that instrumentation adds to the class with this name.
fn is_own(pool: &Pool, last: LastBootstrap, name: &[u8]) -> bool
    ensures { IsTrue result ↔ IsOwn pool.now name.now last }
{
    last.arguments == 0 && is_bootstrap_handle(pool, last.handle, name)
}

/// The number of the last bootstrap method of the class with this name, if it is the one that instrumentation adds, and the class has
/// one attribute of bootstrap methods.
pub fn last_number(class: &ClassFile, name: &[u8]) -> Option<u16>
    ensures some { IfSome result (IsLastBootstrap class.now name.now) }
    ensures none { IfNone result ((number : ℕ) → IsLastBootstrap class.now name.now number → ⊥) }
{
    let body = single_named(&class.pool, BOOTSTRAPS_NAME, &class.attributes)?;
    let last = last_bootstrap(body)?;
    if !is_own(&class.pool, last, name) {
        return None;
    }
    let count = bootstrap_count(body)?;
    Some(count - 1)
}
