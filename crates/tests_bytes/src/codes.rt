//! Code: decoded, and encoded again.
ghost use Rattle.std.specs.Prelude.{◌≤◌, ◌<◌, ◌≡◌, ◌+◌, All, IsTrue, length, slice_index};
ghost use Rattle.jc_base.specs.Flow.{targets_of};
ghost use Rattle.jc_base.specs.Insn.{with_places};
ghost use Rattle.jc_base.specs.Widened.{listed};
ghost use Rattle.jc_insn.specs.Decoding.{IsInsnAmong};
ghost use Rattle.jc_insn.specs.Sizes.{StartFrom, StartAt};
ghost use Rattle.jc_insn.specs.Writing.{AllNear, IsNearJump};

use crate::insns::{has_few_arms, of_opcode, put_insn};
use jc_base::Insn;
use jc_insn::{Decoded, decode, encode, size_of};
use std::alloc::Global;
use tests_lines::{Answer, bytes, listed};

/// Puts each instruction behind its offset, and the offset of the end.
fn put_decoded(decoded: &Decoded, out: &mut Answer) {
    let starts = decoded.starts.as_slice();
    for (insn, start) in decoded.code.as_slice().iter().zip(starts) {
        out.show(start);
        out.put(" ");
        put_insn(insn, out);
        out.put(", ");
    }
    match starts.last() {
        Some(end) => out.label("end ", end),
        None => out.put("no end"),
    }
}

/// Decodes the bytes, keeps their code, and puts it. Where the bytes are refused, no code is kept.
fn read(alloc: Global, code: &mut Vec<Insn>, words: &[&str], out: &mut Answer) -> Option<()> {
    let bytes = bytes(alloc, words, out)?;
    code.clear();
    let decoded = out.accepted(decode(alloc, &bytes))?;
    put_decoded(&decoded, out);
    *code = decoded.code.into_vec();
    Some(())
}

/// Whether the instruction of this number is a wide jump.
fn is_listed(wide: &[bool], number: usize) -> bool
    ensures { result ≡ listed wide.now number }
{
    wide.get(number).copied().unwrap_or(false)
}

/// Whether instructions begin at these offsets, the first, which has this number, at this one, and end at the last.
fn start_at(wide: &[bool], number: usize, at: u32, code: &[Insn], starts: &[u32]) -> bool
    requires { number + length code.now ≤ 65535 }
    ensures { IsTrue result → StartFrom (listed wide.now) number at code.now starts.now }
{
    match code {
        [] => matches!(starts, [end] if *end == at),
        [insn, code @ ..] => {
            if !has_few_arms(insn) {
                return false;
            }
            match (
                starts,
                at.checked_add(size_of(insn, at, is_listed(wide, number))),
            ) {
                ([start, later @ ..], Some(next)) => *start == at
                    && start_at(wide, number + 1, next, code, later),
                _ => false,
            }
        }
    }
}

/// Whether the instruction at this offset has room in two bytes for its jump, if it is one.
fn is_near(insn: &Insn, at: u32, starts: &[u32]) -> bool
    ensures { IsTrue result → IsNearJump at (with_places (slice_index starts.now) insn.now) }
{
    match insn {
        Insn::Jump { to, .. } => match starts.get(*to as usize) {
            Some(to) => {
                let (at, to) = (u64::from(at), u64::from(*to));
                to < at + 32768 && at <= to + 32768
            }
            None => false,
        },
        _ => true,
    }
}

/// Whether each instruction, the first of which has this number, is a wide jump or has room in two bytes for its jump, where
/// they begin at these offsets.
fn all_near(wide: &[bool], number: usize, code: &[Insn], begins: &[u32], starts: &[u32]) -> bool
    requires { number + length code.now ≤ 65535 }
    ensures { IsTrue result → AllNear (slice_index starts.now) (listed wide.now) number code.now begins.now }
{
    match code {
        [] => true,
        [insn, code @ ..] => match begins {
            [] => true,
            [at, later @ ..] => (is_listed(wide, number) || is_near(insn, *at, starts))
                && all_near(wide, number + 1, code, later, starts),
        },
    }
}

/// Whether the code ends at an offset that `encode` takes.
fn ends_low(code: &[Insn], starts: &[u32]) -> bool
    ensures { IsTrue result → slice_index starts.now (length code.now) ≤ 2147483647 }
{
    match starts.get(code.len()) {
        Some(end) => *end <= 2_147_483_647,
        None => false,
    }
}

/// Whether each jump leads to an instruction of the code.
fn leads_inside(code: &[Insn], count: u32) -> bool
    ensures { IsTrue result → All (λ insn. All (λ to. to < count) (targets_of insn)) code.now }
{
    code.iter().all(|insn| insn.leads_within(count))
}

/// Whether these are the offsets of the instructions and of the end, where these jumps are wide and each other one has room.
fn are_laid(code: &[Insn], starts: &[u32], wide: &[bool]) -> bool
    requires { length code.now ≤ 65535 }
    ensures starts { IsTrue result → StartAt (listed wide.now) code.now starts.now }
    ensures end { IsTrue result → slice_index starts.now (length code.now) ≤ 2147483647 }
    ensures near { IsTrue result → AllNear (slice_index starts.now) (listed wide.now) 0 code.now starts.now }
{
    start_at(wide, 0, 0, code, starts)
        && (ends_low(code, starts) && all_near(wide, 0, code, starts, starts))
}

/// Puts the bytes of code whose instructions begin at these offsets, where these jumps are wide.
fn put_encoded(
    alloc: Global,
    code: &[Insn],
    starts: &[u32],
    wide: &[bool],
    out: &mut Answer,
) -> Option<()>
    requires { All (IsInsnAmong (length code.now)) code.now }
{
    if code.len() > 65535 || !leads_inside(code, code.len() as u32) {
        return out.wrong("a jump to no instruction");
    }
    if !are_laid(code, starts, wide) {
        return out.wrong("other offsets");
    }
    let mut bytes = Vec::new(alloc);
    let outcome = encode(alloc, code, starts, wide, &mut bytes);
    out.got(outcome)?;
    out.bytes(&bytes);
    Some(())
}

/// What a word says of each instruction: 1 where it is a wide jump, else another number.
fn wide_jumps(alloc: Global, word: &str, out: &mut Answer) -> Option<Vec<bool>> {
    let numbers = listed(alloc, word, out)?;
    out.got(numbers.iter().map(|number| *number == 1).collect(alloc))
}

/// Decodes the bytes, and puts the bytes of their code, where these jumps are wide.
fn encoded(
    alloc: Global,
    jumps: &str,
    starts: &str,
    words: &[&str],
    out: &mut Answer,
) -> Option<()> {
    let wide = wide_jumps(alloc, jumps, out)?;
    let starts = listed(alloc, starts, out)?;
    let bytes = bytes(alloc, words, out)?;
    let decoded = out.accepted(decode(alloc, &bytes))?;
    put_encoded(alloc, decoded.code.as_slice(), &starts, &wide, out)
}

/// What a call answers.
pub fn answer(alloc: Global, code: &mut Vec<Insn>, words: &[&str], out: &mut Answer) -> Option<()> {
    match words {
        ["decode", text @ ..] => read(alloc, code, text, out),
        ["encode", jumps, starts, text @ ..] => encoded(alloc, jumps, starts, text, out),
        [call, op] => of_opcode(call, op, out),
        words => out.unknown(words),
    }
}
