//! The states of a body.
ghost use Rattle.std.specs.Prelude.{◌<◌, length, All, IsTrue};
ghost use Rattle.jc_base.specs.VerificationTypes.{IsNumbered};
ghost use Rattle.jc_base.specs.WellMade.{IsKind, IsWellMadeOfAnySize};
ghost use Rattle.jc_kinds_after.specs.Answers.{IsStateOf};

use crate::bodies::body_of;
use crate::insns::name_of;
use crate::states::{put_state, put_states, state_of};
use jc_base::{Body, Insn, Kind, Names, State, opcode};
use jc_kinds::{check_body, states};
use jc_kinds_after::after;
use std::alloc::Global;
use tests_lines::Answer;

/// The state before each instruction of the method with this number.
pub fn all_states(alloc: Global, class: &[u8], method: u32, out: &mut Answer) -> Option<()> {
    let mut names = out.got(Names::new(alloc))?;
    let body = body_of(alloc, class, method, &mut names, out)?;
    let found = out.accepted(states(alloc, &body, &mut names))?;
    put_states(&found, &names, out);
    Some(())
}

/// Whether the method with this number passes the kind check.
pub fn check(alloc: Global, class: &[u8], method: u32, out: &mut Answer) -> Option<()> {
    let mut names = out.got(Names::new(alloc))?;
    let body = body_of(alloc, class, method, &mut names, out)?;
    out.accepted(check_body(alloc, &body, &mut names))?;
    out.put("passes");
    Some(())
}

/// Whether an object before its constructor comes from a `new` of the code.
fn is_kind(code: &[Insn], kind: Kind) -> bool
    ensures { IsTrue result → IsKind code.now kind }
{
    match kind {
        Kind::Uninit(at) => match code.get(at as usize) {
            Some(Insn::OfClass { op, .. }) => *op == opcode::NEW,
            _ => false,
        },
        _ => true,
    }
}

/// Whether a class is among so many.
fn is_numbered(count: u32, kind: Kind) -> bool
    ensures { IsTrue result → IsNumbered count kind }
{
    match kind {
        Kind::Object(number) => number < count,
        _ => true,
    }
}

/// Whether each object before its constructor comes from a `new` of the code.
fn are_kinds(code: &[Insn], kinds: &[Kind]) -> bool
    ensures { IsTrue result → All (IsKind code.now) kinds.now }
{
    kinds.iter().all(|kind| is_kind(code, *kind))
}

/// Whether each class is among so many.
fn are_numbered(count: u32, kinds: &[Kind]) -> bool
    ensures { IsTrue result → All (IsNumbered count) kinds.now }
{
    kinds.iter().all(|kind| is_numbered(count, *kind))
}

/// Whether the state has the body's local variables, and its objects come from the body, with classes among so many.
#[tactic(auto, using(crate::proofs::StateLaws::state_numbered))]
fn is_state_of(body: &Body, state: &State, count: u32) -> bool
    ensures { IsTrue result → IsStateOf count body.now state.now }
{
    state.locals.len() == usize::from(body.max_locals)
        && are_kinds(&body.code, &state.locals)
        && are_kinds(&body.code, &state.stack)
        && are_numbered(count, &state.locals)
        && are_numbered(count, &state.stack)
}

/// Whether the instruction with this number has this mnemonic.
fn is_named(code: &[Insn], at: u32, name: &str) -> bool
    ensures { IsTrue result → at < length code.now }
{
    match code.get(at as usize) {
        Some(insn) => name_of(insn) == name,
        None => false,
    }
}

/// The state after an instruction of a body, in words.
fn next_state(
    alloc: Global,
    body: &Body,
    at: u32,
    state: &State,
    names: &mut Names,
    out: &mut Answer,
) -> Option<()>
    requires made { IsWellMadeOfAnySize body.now }
    requires place { at < length body.now.code }
{
    if !is_state_of(body, state, names.len()) {
        return out.wrong("no state of the body");
    }
    match out.got(after(alloc, state, body, at, names))? {
        Some(next) => put_state(&next, names, out),
        None => out.put("no state"),
    }
    Some(())
}

/// The state after an instruction of the method with this number, which has this mnemonic, where the state before it is
/// the one that words say.
pub fn state_after(
    alloc: Global,
    class: &[u8],
    method: u32,
    (at, name): (u32, &str),
    words: &[&str],
    out: &mut Answer,
) -> Option<()> {
    let mut names = out.got(Names::new(alloc))?;
    let body = body_of(alloc, class, method, &mut names, out)?;
    if !is_named(&body.code, at, name) {
        return out.unknown_word(name);
    }
    let state = state_of(alloc, words, &mut names, out)?;
    next_state(alloc, &body, at, &state, &mut names, out)
}
