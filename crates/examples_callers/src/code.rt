//! A caller of jc_insn.
ghost use Rattle.std.specs.Prelude.{◌≡◌, ◌⊎◌, ◌≤◌, ℕ, List, length, count_by, MatchResult};
ghost use Rattle.jc_bytes.specs.Reader.{most_read};
ghost use Rattle.jc_bytes.specs.declared.refusal.Refusal.{Refusal as Reason};
ghost use Rattle.jc_methods.specs.declared.insn.Insn.{Insn as Instruction};
ghost use Rattle.jc_insn.specs.Spells.{Spells, IsRefused};
ghost use Rattle.examples_callers.specs.Returning.{returns};

use jc_bytes::{Fail, Refusal};
use jc_insn::decode;
use jc_methods::{Flow, Insn};
use std::alloc::Global;

/// Whether an instruction returns from its method.
fn returns(insn: &Insn) -> bool
    ensures { result ≡ returns insn.now }
{
    matches!(insn.flow(), Flow::Returns)
}

/// How many of these instructions return.
fn returns_in(code: &[Insn]) -> usize
    ensures { result ≡ count_by returns code.now }
{
    code.iter().filter(|insn| returns(insn)).count()
}

/// How many instructions of the bytes of a method's code return.
///
/// # Errors
///
/// `Memory` where memory was refused. `Subroutine` or `BadCode`, at its offset, for the first instruction that isn't taken.
pub fn return_count(alloc: Global, bytes: &[u8]) -> Result<usize, Fail<Refusal>>
    requires { length bytes.now ≤ most_read }
    ensures count { (code : List Instruction) (starts : List ℕ) → Spells bytes.now code starts
        → MatchResult result (λ count. count ≡ count_by returns code) (λ e. e ≡ Fail.Memory) }
    ensures refused { (r : Reason) → IsRefused bytes.now r
        → MatchResult result (λ _. ⊥) (λ e. (e ≡ Fail.Memory) ⊎ (e ≡ Fail.Said r)) }
{
    let decoded = decode(alloc, bytes)?;
    Ok(returns_in(&decoded.code))
}
