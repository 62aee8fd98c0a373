//! Causes for which a class is refused as a whole.
ghost use Rattle.std.specs.Prelude.{◌↔◌, IsTrue};
ghost use Rattle.jc_instrument.specs.Causes.{FirstCause};
ghost use Rattle.jc_instrument.specs.Reasons.{IsOutside, HasAddedName, SomeAdded, NamesRuntime, HasAdded, class_causes};

use jc_bytes::{Refusal, RefusalKind};
use jc_class::{ClassFile, Member};
use jc_methods::{DATA_NAME, INIT_NAME, RUNTIME_CLASS};
use jc_pool::Pool;

/// The least major version that is taken.
const OLDEST: u16 = 50;

/// The greatest major version that is taken.
const NEWEST: u16 = 65;

/// Whether the major version is none that is taken: below 50 or above 65 (JVM Specification 4.1, table 4.1-A).
pub fn is_wrong_version(major: u16) -> bool
    ensures { IsTrue result ↔ IsOutside major }
{
    major < OLDEST || major > NEWEST
}

/// Whether the member has the name of one that instrumentation adds.
fn has_added_name(pool: &Pool, member: &Member) -> bool
    ensures { IsTrue result ↔ HasAddedName pool.now member.now }
{
    match pool.utf8_at(member.name) {
        Ok(name) => { name == INIT_NAME || name == DATA_NAME }
        Err(_) => false,
    }
}

/// Whether one of the members has such a name.
fn some_added(pool: &Pool, members: &[Member]) -> bool
    ensures { IsTrue result ↔ SomeAdded pool.now members.now }
{
    members.iter().any(|member| has_added_name(pool, member))
}

/// Whether a Class entry names the class that instrumented classes call.
fn names_runtime(pool: &Pool) -> bool
    ensures { IsTrue result ↔ NamesRuntime pool.now }
{
    pool.find_class(RUNTIME_CLASS).is_some()
}

/// Whether the class is instrumented already.
fn is_instrumented(class: &ClassFile) -> bool
    ensures { IsTrue result ↔ HasAdded class.now }
{
    let pool = &class.pool;
    some_added(pool, &class.fields) || (some_added(pool, &class.methods) || names_runtime(pool))
}

/// Why the class is refused as a whole: first for its version, then for being instrumented.
pub fn class_refusal(class: &ClassFile) -> Option<Refusal>
    ensures { FirstCause (class_causes class.now) result }
{
    if is_wrong_version(class.major) {
        return Some(Refusal {
            kind: RefusalKind::Version,
            method: None,
            place: u32::from(class.major),
        });
    }
    if is_instrumented(class) {
        return Some(Refusal {
            kind: RefusalKind::AlreadyInstrumented,
            method: None,
            place: 0,
        });
    }
    None
}
