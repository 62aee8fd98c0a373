//! What is taken from the stack and left there. No class is named, so the clauses hold under all names.
ghost use Rattle.std.specs.Prelude.{◌≡◌, ℕ, map, IfOk, option_map, nat_le};
ghost use Rattle.std.specs.List.{list_any};
ghost use Rattle.jc_methods.specs.VerificationTypes.{Names, verification_type, type_state, slots};
ghost use Rattle.jc_kinds_after.specs.Step.{given_of, with_stack as put_stack};
ghost use Rattle.jc_kinds_after.specs.Shapes.{gives_of, is_item as is_operand, form_of, moved_in};

use crate::Want;
use crate::form::Give;
use crate::want::are_accepted;
use jc_bytes::{List, Memory};
use jc_methods::{Kind, State};
use std::alloc::{AllocError, Global};

/// Whether what is left is one of the operands.
fn is_item(give: Give) -> bool
    ensures { result ≡ is_operand give }
{
    matches!(give, Give::Item(_))
}

/// Whether something that is left is one of the operands.
fn has_item(gives: &[Give]) -> bool
    ensures { result ≡ list_any is_operand gives.now }
{
    gives.iter().any(|give| is_item(*give))
}

/// What is left.
fn given(operands: &[Kind], give: Give) -> Kind
    ensures { (names : Names) → verification_type names result ≡ given_of (map (verification_type names) operands.now) (gives_of names give) }
{
    match give {
        Give::Kind(kind) => kind,
        Give::Item(n) => {
            let n = n as usize;
            if n < operands.len() {
                operands[n]
            } else {
                Kind::Top
            }
        }
    }
}

/// The operands, or none of them where nothing that is left is one of them.
fn operands_for(alloc: Global, operands: &[Kind], gives: &[Give]) -> Result<Vec<Kind>, AllocError>
    ensures { IfOk result (λ kept. (names : Names) → map (given_of (map (verification_type names) kept.items)) (map (gives_of names) gives.now)
        ≡ map (given_of (map (verification_type names) operands.now)) (map (gives_of names) gives.now)) }
{
    if has_item(gives) {
        Vec::from_slice(alloc, operands)
    } else {
        Ok(Vec::new(alloc))
    }
}

/// Whether so many slots are enough for a stack. A long or a double takes two.
pub fn is_within(stack: &[Kind], most: u16) -> bool
    ensures { (names : Names) → result ≡ nat_le (slots (map (verification_type names) stack.now)) most }
{
    let mut free = most;
    'counting: for kind in stack {
        let width = kind.slots();
        if width > free {
            return false;
        }
        free -= width;
    }
    true
}

/// The stack after an instruction of this form, where the operands are there and the slots are enough. It is the same
/// list, changed.
pub fn move_stack(
    alloc: Global,
    stack: List<Kind>,
    wants: &[Want],
    gives: &[Give],
    most: u16,
) -> Result<Option<List<Kind>>, Memory>
    ensures { IfOk result (λ o. (names : Names) → option_map (map (verification_type names)) o
        ≡ moved_in most (form_of names wants.now gives.now) (map (verification_type names) stack)) }
{
    let mut after = stack.into_vec();
    if after.len() < wants.len() {
        return Ok(None);
    }
    let base = after.len() - wants.len();
    if !are_accepted(wants, &after[base..]) {
        return Ok(None);
    }
    let operands = operands_for(alloc, &after[base..], gives)?;
    after.truncate(base);
    'giving: for give in gives {
        after.push(given(operands.as_slice(), *give))?;
    }
    if !is_within(after.as_slice(), most) {
        return Ok(None);
    }
    Ok(Some(List::from_vec(after)))
}

/// The state after an instruction of this form, where the operands are there and the slots are enough.
pub fn move_state(
    alloc: Global,
    state: State,
    wants: &[Want],
    gives: &[Give],
    most: u16,
) -> Result<Option<State>, Memory>
    ensures { IfOk result (λ o. (names : Names) → option_map (type_state names) o
        ≡ put_stack (type_state names state) (moved_in most (form_of names wants.now gives.now) (map (verification_type names) state.stack))) }
{
    let State { locals, stack } = state;
    match move_stack(alloc, stack, wants, gives, most)? {
        Some(stack) => Ok(Some(State { locals, stack })),
        None => Ok(None),
    }
}
