//! A caller of jc_class.
ghost use Rattle.std.specs.Prelude.{◌≡◌, ◌≤◌, ℕ, Some, length, MatchResult};
ghost use Rattle.jc_bytes.specs.Reader.{most_read};
ghost use Rattle.jc_class.specs.ClassText.{ClassText, FirstBad, RefusedAs};
ghost use Rattle.jc_class.specs.declared.class_file.ClassFile.{ClassFile as Class};
ghost use Rattle.jc_pool.specs.Lookup.{class_name_of};

use jc_bytes::{Bytes, Fail, Refusal};
use jc_class::read_class;
use std::alloc::Global;

/// The name of the class of a class file.
///
/// # Errors
///
/// `Memory` where memory was refused. `NotAClass`, at the offset of the first item that fails, where the bytes are no class file.
pub fn class_name(alloc: Global, bytes: &[u8]) -> Result<Bytes, Fail<Refusal>>
    requires { length bytes.now ≤ most_read }
    ensures name { (c : Class) → ClassText bytes.now c
        → MatchResult result (λ name. class_name_of c.pool c.this_class ≡ Some name) (λ e. e ≡ Fail.Memory) }
    ensures refused { (offset : ℕ) → FirstBad bytes.now offset
        → MatchResult result (λ _. ⊥) (λ e. RefusedAs e (λ found. found ≡ offset)) }
{
    let class = read_class(alloc, bytes)?;
    let name = class.pool.class_at(class.this_class).unwrap_or(&[]);
    Ok(Bytes::copy_of(alloc, name)?)
}
