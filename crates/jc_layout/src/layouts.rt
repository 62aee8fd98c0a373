//! The layout of code.
ghost use Rattle.std.specs.Prelude.{◌≡◌, ◌≤◌, IfOk, IfErr, length};
ghost use Rattle.jc_methods.specs.Widened.{listed};
ghost use Rattle.jc_insn.specs.Sizes.{StartAt};
ghost use Rattle.jc_insn.specs.Spells.{Spells};
ghost use Rattle.jc_layout.specs.Layable.{IsLayable};
ghost use Rattle.jc_layout.specs.Layout.{laid_code, laid_starts, IsChosen, chosen_length, chosen_text, most_bytes, too_large, IsTooLarge};

use crate::choice::{Choice, choose};
use jc_bytes::{Bytes, Fail, List, Refusal, RefusalKind};
use jc_insn::encode;
use jc_methods::{Emitted, Insn};
use std::alloc::Global;

/// The most bytes that the code of a method has.
const MOST_BYTES: u32 = 65535;

/// Code as bytes.
#[derive(Debug, Drop)]
pub struct Laid {
    /// The bytes. The place in the constant pool that the prelude names is as it was emitted.
    pub code: Bytes,
    /// The offset of each instruction, and then the length of the code.
    pub starts: List<u32>,
    /// Of each instruction whether it is a jump that is written with four bytes for its operand.
    pub wide: List<bool>,
}

/// The refusal of code of this length.
fn too_large(length: u32) -> Refusal
    ensures { result ≡ too_large length }
{
    Refusal {
        kind: RefusalKind::CodeTooLarge,
        method: None,
        place: length,
    }
}

/// The bytes of instructions (JVM Specification 4.7.3 and 6.5).
///
/// Each instruction has its shortest spelling, with two bytes for the operand of a jump. The code is
/// laid out in rounds: in each, every jump that has no room becomes wide, until none is left. A wide
/// `goto` is written as `goto_w`, and a wide conditional jump as its inverse over a `goto_w`.
///
/// # Errors
///
/// `CodeTooLarge`, with the length in bytes, where the layout has more than 65,535 bytes, and
/// `Memory` where memory was refused.
pub fn layout_code(alloc: Global, insns: &[Insn]) -> Result<Laid, Fail<Refusal>>
    requires { IsLayable insns.now }
    // The wide jumps are those that the rounds lead to.
    ensures chosen { IfOk result (λ l. IsChosen insns.now l.wide) }
    // The instructions begin one directly behind the other.
    ensures starts { IfOk result (λ l. StartAt (listed l.wide) insns.now l.starts) }
    // The bytes are the shortest spelling of each, and spell the code in the form that has these jumps wide.
    ensures text { IfOk result (λ l. l.code ≡ chosen_text insns.now) }
    ensures spelled { IfOk result (λ l. Spells l.code (laid_code l.wide insns.now)
        (laid_starts l.wide insns.now l.starts)) }
    ensures size { IfOk result (λ l. length l.code ≡ chosen_length insns.now) }
    // What is refused has too many bytes, and what is taken hasn't.
    ensures refused { IfErr result (λ e. IsTooLarge e (chosen_length insns.now)) }
    ensures taken { IfOk result (λ l. chosen_length insns.now ≤ most_bytes) }
{
    let Choice { starts, wide } = choose(alloc, insns)?;
    let length = starts[insns.len()];
    if length > MOST_BYTES {
        return Err(Fail::Said(too_large(length)));
    }
    let mut code = Vec::new(alloc);
    encode(alloc, insns, &starts, &wide, &mut code)?;
    Ok(Laid {
        code: List::from_vec(code),
        starts: List::from_vec(starts),
        wide: List::from_vec(wide),
    })
}

/// The bytes of instrumented code (JVM Specification 4.7.3 and 6.5): those of its instructions.
///
/// # Errors
///
/// `CodeTooLarge`, with the length in bytes, where the layout has more than 65,535 bytes, and
/// `Memory` where memory was refused.
pub fn layout(alloc: Global, emitted: &Emitted) -> Result<Laid, Fail<Refusal>>
    requires { IsLayable emitted.now.code }
    // The wide jumps are those that the rounds lead to.
    ensures chosen { IfOk result (λ l. IsChosen emitted.now.code l.wide) }
    // The instructions begin one directly behind the other.
    ensures starts { IfOk result (λ l. StartAt (listed l.wide) emitted.now.code l.starts) }
    // The bytes are the shortest spelling of each, and spell the code in the form that has these jumps wide.
    ensures text { IfOk result (λ l. l.code ≡ chosen_text emitted.now.code) }
    ensures spelled { IfOk result (λ l. Spells l.code (laid_code l.wide emitted.now.code)
        (laid_starts l.wide emitted.now.code l.starts)) }
    ensures size { IfOk result (λ l. length l.code ≡ chosen_length emitted.now.code) }
    // What is refused has too many bytes, and what is taken hasn't.
    ensures refused { IfErr result (λ e. IsTooLarge e (chosen_length emitted.now.code)) }
    ensures taken { IfOk result (λ l. chosen_length emitted.now.code ≤ most_bytes) }
{
    layout_code(alloc, &emitted.code)
}
