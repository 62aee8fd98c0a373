//! Instructions of a byte string.
ghost use Rattle.std.specs.Prelude.{◌≡◌, ◌+◌, ◌≤◌, ◌<◌, ◌⊎◌, List, ℕ, length, IfOk, IfErr, MatchResult, All};
ghost use Rattle.jc_bytes.specs.Reader.{most_read};
ghost use Rattle.jc_bytes.specs.Decoder.{SameEnd};
ghost use Rattle.jc_methods.specs.declared.insn.Insn.{Insn as Instruction};
ghost use Rattle.jc_bytes.specs.declared.refusal.Refusal.{Refusal as Reason};
ghost use Rattle.jc_methods.specs.Starts.{AreStarts};
ghost use Rattle.jc_insn.specs.Spells.{SpellsFrom, Spells, IsRefused};
ghost use Rattle.jc_insn.specs.Decoding.{Refuses, GivesNext, IsInsnAmong};

use crate::item::{CodeItem, read_item};
use crate::places::all_numbered;
use jc_bytes::{Fail, List, Reader, Refusal, RefusalKind, Unfit};
use jc_methods::{Insn, insn_numbers};
use std::alloc::Global;

/// Instructions, and where they begin.
#[derive(Debug, Drop)]
pub struct Decoded {
    /// The instructions in order. A jump that leads to no instruction's first byte has the number
    /// of instructions for its place.
    pub code: List<Insn>,
    /// The offset of each instruction, and then the length of the code.
    pub starts: List<u32>,
}

/// Instructions whose places are offsets, and where they begin.
#[derive(Drop)]
struct Spelled {
    code: Vec<Insn>,
    starts: Vec<u32>,
}

/// The refusal of code for this reason at this offset.
fn refused(kind: RefusalKind, offset: u32) -> Refusal
    ensures { result ≡ record { kind = kind; method = None; place = offset } }
{
    Refusal {
        kind,
        method: None,
        place: offset,
    }
}

/// The instruction at the reader's offset.
fn next_insn(alloc: Global, reader: &mut Reader<'_>) -> Result<Insn, Fail<Refusal>>
    requires { reader.old.place + length reader.old.left ≤ most_read }
    ensures gives { GivesNext result reader.old reader.new }
    ensures end { SameEnd reader.old reader.new }
{
    let offset = reader.place();
    match read_item(alloc, reader) {
        Ok(CodeItem::Insn(insn)) => Ok(insn),
        Ok(CodeItem::Subroutine) => Err(Fail::Said(refused(RefusalKind::Subroutine, offset))),
        Err(Fail::Memory) => Err(Fail::Memory),
        Err(Fail::Said(Unfit)) => Err(Fail::Said(refused(RefusalKind::BadCode, offset))),
    }
}

/// The instructions that the bytes spell, whose places are offsets.
fn read_all(alloc: Global, bytes: &[u8]) -> Result<Spelled, Fail<Refusal>>
    requires { length bytes.now ≤ most_read }
    ensures ok { IfOk result (λ s. SpellsFrom 0 bytes.now s.code.items s.starts.items) }
    ensures within { IfOk result (λ s. All (λ start. start < length bytes.now + 1) s.starts.items) }
    ensures count { IfOk result (λ s. length s.starts.items ≡ length s.code.items + 1) }
    ensures few { IfOk result (λ s. length s.code.items ≤ length bytes.now) }
    ensures refused { IfErr result (λ e. Refuses e bytes.now) }
{
    let mut reader = Reader::new(bytes);
    let mut code = Vec::with_capacity(alloc, bytes.len() / 2)?;
    let mut starts = Vec::with_capacity(alloc, bytes.len() / 2)?;
    'reading: while (reader.place() as usize) < bytes.len() {
        starts.push(reader.place())?;
        code.push(next_insn(alloc, &mut reader)?)?;
    }
    starts.push(reader.place())?;
    Ok(Spelled { code, starts })
}

/// The instructions that the bytes of a method's code spell (JVM Specification 4.7.3 and 6.5).
///
/// `iload_0` and its like and `wide` are read as `Local` and `Inc`, `ldc` and `ldc_w` as
/// `Constant`, and `goto_w` as `Jump` with the opcode of `goto`. What pads a switch, the last byte
/// of `invokeinterface` and the last two of `invokedynamic` may have any value.
///
/// Refused are `jsr`, `jsr_w`, `ret` and `wide ret` as `Subroutine`, and as `BadCode` an unknown
/// opcode, operands cut off, `wide` before an opcode that it doesn't widen, a
/// `tableswitch` whose low key is above its high one, a `lookupswitch` with a negative number of
/// pairs or keys that don't ascend, a `newarray` code outside 4 to 11, and a `multianewarray`
/// without dimensions. The first in the order of the code is named, by its offset.
pub fn decode(alloc: Global, code: &[u8]) -> Result<Decoded, Fail<Refusal>>
    requires { length code.now ≤ most_read }
    ensures spelled { IfOk result (λ d. Spells code.now d.code d.starts) }
    ensures insns { IfOk result (λ d. All (IsInsnAmong (length d.code)) d.code) }
    ensures starts { IfOk result (λ d. AreStarts (length d.code) (length code.now) d.starts) }
    ensures refused { IfErr result (λ e. Refuses e code.now) }
    // What is spelled is read so, unless memory runs out.
    ensures only { (list : List Instruction) (starts : List ℕ) → Spells code.now list starts
        → MatchResult result (λ d. (d.code ≡ list) × (d.starts ≡ starts)) (λ e. e ≡ Fail.Memory) }
    // What is at fault is refused so, unless memory runs out.
    ensures fault { (r : Reason) → IsRefused code.now r
        → MatchResult result (λ d. ⊥) (λ e. (e ≡ Fail.Memory) ⊎ (e ≡ Fail.Said r)) }
{
    let Spelled { code: text, starts } = read_all(alloc, code)?;
    let numbers = insn_numbers(alloc, &starts, code.len() + 1)?;
    let code = all_numbered(alloc, &numbers, text.len() as u32, text)?;
    Ok(Decoded {
        code,
        starts: List::from_vec(starts),
    })
}
