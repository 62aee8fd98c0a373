//! New arrays. They number the names of classes.
ghost use Rattle.std.specs.Prelude.{◌≡◌, ◌++◌, map, length, replicate, IfOk, option_map};
ghost use Rattle.jc_methods.specs.VerificationTypes.{Names, verification_type, object, type_state, Grows, IsNumberedState};
ghost use Rattle.jc_kinds_after.specs.Step.{with_stack, moved_by};
ghost use Rattle.jc_kinds_after.specs.After.{element_letter as letter_of};
ghost use Rattle.jc_kinds_after.specs.Arrays.{array_forms};
ghost use Rattle.jc_kinds_after.specs.Table.{turns};
ghost use Rattle.jc_kinds_after.specs.declared.want.Want.TheVariants as wants;

use crate::Want;
use crate::form::Give;
use crate::moves::move_state;
use jc_bytes::{Memory, Names};
use jc_methods::{Kind, State};
use std::alloc::Global;

/// An object of the class with this name.
pub fn object_of(alloc: Global, name: &[u8], names: &mut Names) -> Result<Kind, Memory>
    ensures kind { IfOk result (λ kind. (more : Names) → verification_type (names.new ++ more) kind ≡ object name.now) }
    ensures names { Grows names.old names.new }
{
    Ok(Kind::Object(names.number(alloc, name)?))
}

/// The letter of the elements' type, by the code of `newarray`.
fn element_letter(elem: u8) -> u8
    ensures { result ≡ letter_of elem }
{
    match elem {
        4 => b'Z',
        5 => b'C',
        6 => b'F',
        7 => b'D',
        8 => b'B',
        9 => b'S',
        10 => b'I',
        _ => b'J',
    }
}

/// The state after `newarray`.
pub fn new_array(
    alloc: Global,
    state: State,
    elem: u8,
    most: u16,
    names: &mut Names,
) -> Result<Option<State>, Memory>
    requires { IsNumberedState (length names.old) state }
    ensures after { IfOk result (λ o. (more : Names) → option_map (type_state (names.new ++ more)) o
        ≡ with_stack (type_state names.old state) (moved_by most (array_forms elem) (map (verification_type names.old) state.stack))) }
    ensures names { Grows names.old names.new }
{
    let class = object_of(alloc, &[b'[', element_letter(elem)], names)?;
    Ok(move_state(alloc, state, &[Want::Int], &[Give::Kind(class)], most)?)
}

/// The most lengths that `multianewarray` takes.
static INTS: [Want; 255] = [Want::Int; 255];

/// The state after `multianewarray`.
pub fn new_arrays(
    alloc: Global,
    state: State,
    count: u8,
    class: Kind,
    most: u16,
) -> Result<Option<State>, Memory>
    ensures { IfOk result (λ o. (names : Names) → option_map (type_state names) o ≡ with_stack (type_state names state)
        (moved_by most (turns (replicate count wants.Int) (verification_type names class)) (map (verification_type names) state.stack))) }
{
    let ints = &INTS[..count as usize];
    Ok(move_state(alloc, state, ints, &[Give::Kind(class)], most)?)
}
