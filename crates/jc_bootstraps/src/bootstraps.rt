//! The bootstrap methods of a class (JVM Specification 4.7.23).
ghost use Rattle.std.specs.Prelude.{◌≡◌, ◌↔◌, ℕ, ◌+◌, ◌<◌, [], ◌∷◌, ◌++◌, List as Seq, drop, length, codes, Some, IfSome, IfNone, IsNone, IfOk};
ghost use Rattle.std.specs.Option.{option_map};
ghost use Rattle.jc_bytes.specs.Decoder.{number_at};
ghost use Rattle.jc_bytes.specs.Parsing.{Good, times_at};
ghost use Rattle.jc_bootstraps.specs.Bootstraps.{Bootstrap, EndsWith, HaveBootstraps, bootstrap_bodies, bootstraps, has_name};
ghost use Rattle.jc_bootstraps.specs.Bootstraps.{with_bootstrap, without_arguments};
ghost use Rattle.jc_bootstraps.specs.BootstrapHead.{head_at};
ghost use Rattle.jc_bootstraps.specs.BootstrapsReading.{IsLastOf, bootstrap_at, bootstraps_at};

use jc_bytes::{Bytes, List, Memory, put_bytes, put_short};
use jc_class::{Attribute, ClassFile};
use jc_pool::Pool;
use std::alloc::Global;

/// What is told of the last bootstrap method of a class.
#[derive(Clone, Copy, Debug, PartialEq, Eq)]
pub struct LastBootstrap {
    /// The place of its method handle.
    pub handle: u16,
    /// How many arguments it has.
    pub arguments: u16,
}

/// What is told of all bootstrap methods of a class.
#[derive(Clone, Copy)]
struct Bootstraps {
    count: u16,
    last: Option<LastBootstrap>,
}

/// The number of two bytes in front, and what stands behind it.
fn split_number(bytes: &[u8]) -> Option<(u16, &[u8])>
    ensures { option_map (λ read. (read.0, read.1.now)) result ≡ number_at 2 bytes.now }
{
    match bytes {
        [high, low, rest @ ..] => Some((u16::from(*high) * 256 + u16::from(*low), rest)),
        _ => None,
    }
}

/// What is told of the bootstrap method in front, and what stands behind its arguments.
#[tactic(auto, unfolding(crate::specs::BootstrapHead::head_at))]
fn split_bootstrap(bytes: &[u8]) -> Option<(LastBootstrap, &[u8])>
    ensures { option_map (λ read. (read.0, read.1.now)) result ≡ head_at bytes.now }
{
    let (handle, behind) = split_number(bytes)?;
    let (arguments, rest) = split_number(behind)?;
    let size = 2 * usize::from(arguments);
    if rest.len() < size {
        return None;
    }
    Some((LastBootstrap { handle, arguments }, &rest[size..]))
}

/// So many bootstrap methods, one behind the other, and nothing behind them.
fn read_counted(count: u16, start: &[u8]) -> Option<Bootstraps>
    ensures some { IfSome result (λ all. (entries : Seq Bootstrap) × (times_at count bootstrap_at start.now ≡ Good entries [])
        × (all.count ≡ length entries) × IsLastOf entries all.last) }
    ensures none { IfNone result ((entries : Seq Bootstrap) → times_at count bootstrap_at start.now ≡ Good entries [] → ⊥) }
{
    let mut rest = start;
    let mut last = None;
    'reading: for _entry in 0..count {
        let Some((bootstrap, behind)) = split_bootstrap(rest) else {
            return None;
        };
        last = Some(bootstrap);
        rest = behind;
    }
    if rest.is_empty() {
        return Some(Bootstraps { count, last });
    }
    None
}

/// A count and so many bootstrap methods, and nothing behind them.
fn read_bootstraps(body: &[u8]) -> Option<Bootstraps>
    ensures some { IfSome result (λ all. (entries : Seq Bootstrap) × (bootstraps_at body.now ≡ Good entries [])
        × (all.count ≡ length entries) × IsLastOf entries all.last) }
    ensures none { IfNone result ((entries : Seq Bootstrap) → bootstraps_at body.now ≡ Good entries [] → ⊥) }
{
    let (count, start) = split_number(body)?;
    read_counted(count, start)
}

/// How many bootstrap methods stand in the body of an attribute BootstrapMethods, and none exactly where it isn't of its form (JVM
/// Specification 4.7.23). Takes no memory.
pub fn bootstrap_count(body: &[u8]) -> Option<u16>
    ensures some { IfSome result (λ count. (entries : Seq Bootstrap) × bootstraps.Text body.now entries × (count ≡ length entries)) }
    ensures none { IsNone result ↔ ((entries : Seq Bootstrap) → bootstraps.Text body.now entries → ⊥) }
    ensures exact { (entries : Seq Bootstrap) → bootstraps.Text body.now entries → result ≡ Some (length entries) }
{
    Some(read_bootstraps(body)?.count)
}

/// What is told of the last bootstrap method in the body of an attribute BootstrapMethods, and none exactly where it has none or isn't
/// of its form (JVM Specification 4.7.23). Takes no memory.
pub fn last_bootstrap(body: &[u8]) -> Option<LastBootstrap>
    ensures some { IfSome result (EndsWith body.now) }
    ensures none { IsNone result ↔ ((last : LastBootstrap) → EndsWith body.now last → ⊥) }
    ensures exact { (last : LastBootstrap) → EndsWith body.now last → result ≡ Some last }
{
    read_bootstraps(body)?.last
}

/// Whether the attribute is named BootstrapMethods (JVM Specification 4.7).
fn holds_bootstraps(pool: &Pool, attribute: &Attribute) -> bool
    ensures { result ≡ has_name pool.now (codes "BootstrapMethods") attribute.now }
{
    match pool.utf8_at(attribute.name) {
        Ok(text) => text == b"BootstrapMethods".as_slice(),
        Err(_) => false,
    }
}

/// How many bootstrap methods a class has (JVM Specification 4.7.23), and none exactly where two or more of its attributes are named
/// BootstrapMethods, or one that isn't of its form. A class without such an attribute has 0. Takes no memory.
pub fn class_bootstraps(class: &ClassFile) -> Option<u16>
    ensures some { IfSome result (HaveBootstraps (bootstrap_bodies class.now.pool class.now.attributes)) }
    ensures none { IsNone result ↔ ((count : ℕ) → HaveBootstraps (bootstrap_bodies class.now.pool class.now.attributes) count → ⊥) }
    ensures exact { (count : ℕ) → HaveBootstraps (bootstrap_bodies class.now.pool class.now.attributes) count → result ≡ Some count }
{
    let mut found = None;
    let mut rest = class.attributes.as_slice();
    'naming: while let [attribute, after @ ..] = rest {
        if holds_bootstraps(&class.pool, attribute) {
            if found.is_some() {
                return None;
            }
            found = Some(attribute.body.as_slice());
        }
        rest = after;
    }
    let Some(body) = found else {
        return Some(0);
    };
    bootstrap_count(body)
}

/// What stands behind the count.
fn behind_count(body: &[u8]) -> &[u8]
    ensures { result.now ≡ drop 2 body.now }
{
    match body {
        [_, _, rest @ ..] => rest,
        _ => &body[..0],
    }
}

/// The body of an attribute BootstrapMethods with one bootstrap method more, behind the others, of which there are so many: the one
/// with this method handle and without arguments (JVM Specification 4.7.23). Of no bytes and a count of 0 the body with this one
/// alone is made.
///
/// # Errors
///
/// `Memory` where memory was refused.
#[tactic(auto, unfolding(jc_bytes::specs::BigNumbers::short))]
pub fn push_bootstrap(alloc: Global, handle: u16, count: u16, body: &[u8]) -> Result<Bytes, Memory>
    requires few { count < 65535 }
    ensures body { IfOk result (λ bytes. bytes ≡ with_bootstrap handle count body.now) }
    // Those that the bytes spell stay in front of it.
    ensures more { (entries : Seq Bootstrap) → bootstraps.Text body.now entries → count ≡ length entries
        → IfOk result (λ bytes. bootstraps.Text bytes (entries ++ without_arguments handle ∷ [])) }
    ensures first { body.now ≡ [] → count ≡ 0 → IfOk result (λ bytes. bootstraps.Text bytes (without_arguments handle ∷ [])) }
{
    let mut bytes = Vec::new(alloc);
    put_short(&mut bytes, count + 1)?;
    put_bytes(&mut bytes, behind_count(body))?;
    put_short(&mut bytes, handle)?;
    put_short(&mut bytes, 0)?;
    Ok(List::from_vec(bytes))
}
