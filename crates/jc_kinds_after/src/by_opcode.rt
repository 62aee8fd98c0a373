//! The instructions that do nothing but take operands from the stack and leave results.
ghost use Rattle.std.specs.Prelude.{◌≡◌, ℕ, [], ◌++◌, length, map, IfOk, option_map, List as Seq};
ghost use Rattle.jc_methods.specs.VerificationTypes.{Names, verification_type, type_state};
ghost use Rattle.jc_kinds_after.specs.Wants.{accepts_all};
ghost use Rattle.jc_kinds_after.specs.Step.{StackEffect as SpecForm, upper, moved_by, with_stack};
ghost use Rattle.jc_kinds_after.specs.Shapes.{chosen, forms_of};
ghost use Rattle.jc_kinds_after.specs.Table.{forms_at};

use crate::Want;
use crate::form::{StackEffect, form_in};
use crate::moves::move_state;
use crate::table::{Shape, shapes};
use crate::want::are_accepted;
use jc_bytes::Memory;
use jc_methods::{Kind, State};
use std::alloc::Global;

/// Whether the operands on top are those that are asked for.
fn has_operands(stack: &[Kind], wants: &[Want]) -> bool
    ensures { (names : Names) → result ≡ accepts_all wants.now (upper (length wants.now) (map (verification_type names) stack.now)) }
{
    if stack.len() < wants.len() {
        return false;
    }
    are_accepted(wants, &stack[stack.len() - wants.len()..])
}

/// The form of a shape, where it has one and the operands are there.
fn fitting(shape: Shape, stack: &[Kind]) -> Option<StackEffect>
    ensures { (names : Names) (most : ℕ) (rest : Seq SpecForm) → moved_by most (forms_of shape ++ rest) (map (verification_type names) stack.now)
        ≡ chosen names most (map (verification_type names) stack.now) rest result }
{
    match form_in(shape) {
        Some(form) => {
            if has_operands(stack, form.wants) {
                Some(form)
            } else {
                None
            }
        }
        None => None,
    }
}

/// The first form of an opcode whose operands are there.
fn form_for(op: u8, stack: &[Kind]) -> Option<StackEffect>
    ensures { (names : Names) (most : ℕ) → moved_by most (forms_at op) (map (verification_type names) stack.now)
        ≡ chosen names most (map (verification_type names) stack.now) [] result }
{
    'trying: for shape in shapes(op) {
        match fitting(*shape, stack) {
            Some(form) => return Some(form),
            None => {}
        }
    }
    None
}

/// The state after an instruction by the forms of its opcode.
pub fn move_by_opcode(
    alloc: Global,
    state: State,
    op: u8,
    most: u16,
) -> Result<Option<State>, Memory>
    ensures { IfOk result (λ o. (names : Names) → option_map (type_state names) o
        ≡ with_stack (type_state names state) (moved_by most (forms_at op) (map (verification_type names) state.stack))) }
{
    match form_for(op, state.stack.as_slice()) {
        Some(form) => Ok(move_state(alloc, state, form.wants, form.gives, most)?),
        None => Ok(None),
    }
}
