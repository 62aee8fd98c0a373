//! A caller of jc_body.
ghost use Rattle.std.specs.Prelude.{◌≡◌, ◌<◌, ◌≤◌, All, length, IfOk, IfErr, MatchOption};
ghost use Rattle.jc_bytes.specs.Failing.{Said};
ghost use Rattle.jc_bytes.specs.Reader.{most_read};
ghost use Rattle.jc_methods.specs.VerificationTypes.{Names as AllNames};
ghost use Rattle.jc_methods.specs.declared.body.Body.{Body};
ghost use Rattle.jc_class.specs.Writable.{IsClassFile};
ghost use Rattle.jc_body.specs.BodyOf.{BodyOf, Bodiless, FaultOf};

use jc_body::read_body;
use jc_bytes::{Fail, Names, Refusal};
use jc_class::ClassFile;
use std::alloc::Global;

/// How many instructions a method of a class file has; `None` where it has no code.
///
/// # Errors
///
/// `Memory` where memory was refused. `Subroutine` or `BadCode`, at its place, for the first fault of the method.
pub fn method_size(
    alloc: Global,
    class: &ClassFile,
    method: u32,
) -> Result<Option<usize>, Fail<Refusal>>
    requires exists { method < length class.now.methods }
    requires class { IsClassFile class.now }
    requires sizes { All (λ m. All (λ a. length a.body ≤ most_read) m.attributes) class.now.methods }
    ensures size { IfOk result (λ found. MatchOption found (Bodiless class.now method)
        (λ size. (names : AllNames) × (b : Body) × BodyOf names class.now method b × (size ≡ length b.code))) }
    ensures refused { IfErr result (λ e. Said e (FaultOf class.now method)) }
{
    let mut names = Names::new(alloc)?;
    match read_body(alloc, class, method, &mut names)? {
        Some(body) => Ok(Some(body.code.len())),
        None => Ok(None),
    }
}
