//! The code of a method: its one Code attribute, and the instructions in it (JVM Specification 4.7.3).
ghost use Rattle.std.specs.Prelude.{◌≡◌, ◌≤◌, ℕ, List, Some, None, length, IfOk, IfErr, MatchOption, All};
ghost use Rattle.jc_bytes.specs.Reader.{most_read};
ghost use Rattle.jc_body.specs.Coded.{HasNoCode, HasItems, IsCoded};
ghost use Rattle.jc_insn.specs.Spells.{Spells, IsRefused};
ghost use Rattle.jc_body.specs.Answers.{IsPresence, IsRefusal};
ghost use Rattle.jc_bytes.specs.Failing.{Said};

use crate::attributes::bodies_of;
use crate::coded::Coded;
use crate::form::read_code;
use crate::items::CodeItems;
use jc_bytes::{Fail, Memory, Refusal, RefusalKind};
use jc_class::Member;
use jc_insn::{Decoded, decode};
use jc_pool::Pool;
use std::alloc::Global;

/// The flags of a native and of an abstract method (JVM Specification 4.6, ACC_NATIVE and
/// ACC_ABSTRACT).
const BODILESS: u16 = 0x0500;

/// The Code attributes of a method.
pub enum Presence<'a> {
    /// None, and the method is abstract or native.
    Without,
    /// One, and the method is neither.
    Single(&'a [u8]),
    /// Another number than the method has to have.
    Wrong,
}

/// Which Code attributes a method has.
fn code_presence<'a>(alloc: Global, pool: &Pool, method: &'a Member) -> Result<Presence<'a>, Memory>
    ensures { IfOk result (IsPresence pool.now method.now) }
{
    let bodies = bodies_of(alloc, pool, b"Code", &method.attributes)?;
    let bodiless = method.flags & BODILESS != 0;
    Ok(match bodies.as_slice() {
        [] if bodiless => Presence::Without,
        [bytes] if !bodiless => Presence::Single(bytes),
        _ => Presence::Wrong,
    })
}

/// The refusal of a method's code, at this place.
pub fn bad_code(number: u16, place: u32) -> Refusal
    ensures { result ≡ record { kind = RefusalKind.BadCode; method = Some number; place = place } }
{
    Refusal {
        kind: RefusalKind::BadCode,
        method: Some(number),
        place,
    }
}

/// What the Code attribute of a method holds.
fn read_items(
    alloc: Global,
    pool: &Pool,
    number: u16,
    method: &Member,
) -> Result<Option<CodeItems>, Fail<Refusal>>
    requires sizes { All (λ a. length a.body ≤ most_read) method.now.attributes }
    ensures items { IfOk result (λ found. MatchOption found (HasNoCode pool.now method.now) (HasItems pool.now method.now)) }
    ensures refused { (major : ℕ) (owner : List ℕ) → IfErr result (λ e. Said e (IsRefusal major pool.now owner method.now number)) }
{
    match code_presence(alloc, pool, method)? {
        Presence::Without => Ok(None),
        Presence::Wrong => Err(Fail::Said(bad_code(number, 0))),
        Presence::Single(bytes) => match read_code(alloc, pool, bytes)? {
            Some(items) => Ok(Some(items)),
            None => Err(Fail::Said(bad_code(number, 0))),
        },
    }
}

/// The instructions of a method, or the refusal that names the method.
fn decode_method(alloc: Global, number: u16, code: &[u8]) -> Result<Decoded, Fail<Refusal>>
    requires { length code.now ≤ most_read }
    ensures decoded { IfOk result (λ d. Spells code.now d.code d.starts) }
    ensures refused { IfErr result (λ e. Said e (λ r. (r.method ≡ Some number)
        × IsRefused code.now (record { kind = r.kind; method = None; place = r.place }))) }
{
    match decode(alloc, code) {
        Ok(decoded) => Ok(decoded),
        Err(Fail::Memory) => Err(Fail::Memory),
        Err(Fail::Said(refusal)) => Err(Fail::Said(Refusal {
            kind: refusal.kind,
            method: Some(number),
            place: refusal.place,
        })),
    }
}

/// The code of a method, where it has one.
pub fn read_coded(
    alloc: Global,
    pool: &Pool,
    number: u16,
    method: &Member,
) -> Result<Option<Coded>, Fail<Refusal>>
    requires sizes { All (λ a. length a.body ≤ most_read) method.now.attributes }
    ensures coded { IfOk result (λ found. MatchOption found (HasNoCode pool.now method.now) (IsCoded pool.now method.now)) }
    ensures refused { (major : ℕ) (owner : List ℕ) → IfErr result (λ e. Said e (IsRefusal major pool.now owner method.now number)) }
{
    match read_items(alloc, pool, number, method)? {
        None => Ok(None),
        Some(items) => {
            let decoded = decode_method(alloc, number, &items.code)?;
            let Decoded { code, starts } = decoded;
            Ok(Some(Coded {
                items,
                insns: code,
                starts,
            }))
        }
    }
}
