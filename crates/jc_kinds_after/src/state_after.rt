//! The types of values after an instruction.
ghost use Rattle.std.specs.Prelude.{◌<◌, length, IfOk, IfSome};
ghost use Rattle.jc_methods.specs.VerificationTypes.{Grows};
ghost use Rattle.jc_methods.specs.WellMade.{IsWellMadeOfAnySize};
ghost use Rattle.jc_kinds_after.specs.Answers.{IsStateOf, IsWhole, LeavesState};

use crate::Effects;
use jc_bytes::{Memory, Names};
use jc_methods::{Body, State};
use std::alloc::Global;

/// The types after an instruction of a body (JVM Specification 4.10.1.9). There are none exactly where an operand is
/// missing or of another kind, where the stack would have more slots than `max_stack` after the instruction, whichever it
/// is and however many it had before, or where one of the other rules of the instruction is broken. For many instructions
/// of one body `Effects` reads each descriptor once.
///
/// # Errors
///
/// `Memory` where memory was refused, or where a class is new and the list has 4,294,967,295 names.
pub fn after(
    alloc: Global,
    state: &State,
    body: &Body,
    i: u32,
    names: &mut Names,
) -> Result<Option<State>, Memory>
    requires body { IsWellMadeOfAnySize body.now }
    requires place { i < length body.now.code }
    requires state { IsStateOf (length names.old) body.now state.now }
    ensures after { IfOk result (λ after. LeavesState names.old names.new body.now i state.now after) }
    ensures next { IfOk result (λ after. IfSome after (λ s. IsStateOf (length names.new) body.now s)) }
    ensures whole { IfOk result (λ after. IfSome after (λ s. IsWhole body.now state.now → IsWhole body.now s)) }
    ensures names { Grows names.old names.new }
{
    let mut effects = Effects::of(alloc, body, names)?;
    effects.after(alloc, state, i, names)
}
