//! `pop`, `pop2`, `dup` and its kin, and `swap` (JVM Specification 6.5).
ghost use Rattle.std.specs.Prelude.{◌≡◌, List, [], ◌∷◌};
ghost use Rattle.jc_methods.specs.Opcode as opcodes;
ghost use Rattle.jc_machine_model.specs.Values.{Value};
ghost use Rattle.jc_machine_model.specs.Effects.{moves_of, gives, results_at};
ghost use Rattle.jc_machine_numbers.specs.Descriptions.{effect_on};
ghost use Rattle.jc_machine_numbers.specs.Categories.{moved_by};

use crate::{Category, Effect};
use jc_methods::opcode;

/// Copies of the operands at these places stand in place of so many operands.
fn moves(taken: u8, places: &'static [u8]) -> Effect
    ensures { (stack : List Value) → effect_on result stack ≡ gives taken (results_at places.now stack) }
{
    Effect::Moves { taken, places }
}

/// `pop`.
#[tactic(auto, unfolding(jc_machine_model::specs::Effects::moves_of))]
fn pop(a: Category) -> Effect
    ensures { (stack : List Value) → effect_on result stack ≡ moved_by (moves_of opcodes.pop) (a ∷ []) stack }
{
    match a {
        Category::One => moves(1, &[]),
        Category::Two | Category::Absent => Effect::Unfit,
    }
}

/// `pop2`.
#[tactic(auto, unfolding(jc_machine_model::specs::Effects::moves_of))]
fn pop2(a: Category, b: Category) -> Effect
    ensures { (stack : List Value) → effect_on result stack ≡ moved_by (moves_of opcodes.pop2) (a ∷ b ∷ []) stack }
{
    match a {
        Category::Two => moves(1, &[]),
        Category::One => match b {
            Category::One => moves(2, &[]),
            Category::Two | Category::Absent => Effect::Unfit,
        },
        Category::Absent => Effect::Unfit,
    }
}

/// `dup`.
#[tactic(auto, unfolding(jc_machine_model::specs::Effects::moves_of))]
fn dup(a: Category) -> Effect
    ensures { (stack : List Value) → effect_on result stack ≡ moved_by (moves_of opcodes.dup) (a ∷ []) stack }
{
    match a {
        Category::One => moves(1, &[0, 0]),
        Category::Two | Category::Absent => Effect::Unfit,
    }
}

/// `dup_x1`.
#[tactic(auto, unfolding(jc_machine_model::specs::Effects::moves_of))]
fn dup_x1(a: Category, b: Category) -> Effect
    ensures { (stack : List Value) → effect_on result stack ≡ moved_by (moves_of opcodes.dup_x1) (a ∷ b ∷ []) stack }
{
    match a {
        Category::One => match b {
            Category::One => moves(2, &[0, 1, 0]),
            Category::Two | Category::Absent => Effect::Unfit,
        },
        Category::Two | Category::Absent => Effect::Unfit,
    }
}

/// `dup_x2`.
#[tactic(auto, unfolding(jc_machine_model::specs::Effects::moves_of))]
fn dup_x2(a: Category, b: Category, c: Category) -> Effect
    ensures { (stack : List Value) → effect_on result stack ≡ moved_by (moves_of opcodes.dup_x2) (a ∷ b ∷ c ∷ []) stack }
{
    match a {
        Category::One => match b {
            Category::One => match c {
                Category::One => moves(3, &[0, 1, 2, 0]),
                Category::Two | Category::Absent => Effect::Unfit,
            },
            Category::Two => moves(2, &[0, 1, 0]),
            Category::Absent => Effect::Unfit,
        },
        Category::Two | Category::Absent => Effect::Unfit,
    }
}

/// `dup2`.
#[tactic(auto, unfolding(jc_machine_model::specs::Effects::moves_of))]
fn dup2(a: Category, b: Category) -> Effect
    ensures { (stack : List Value) → effect_on result stack ≡ moved_by (moves_of opcodes.dup2) (a ∷ b ∷ []) stack }
{
    match a {
        Category::One => match b {
            Category::One => moves(2, &[0, 1, 0, 1]),
            Category::Two | Category::Absent => Effect::Unfit,
        },
        Category::Two => moves(1, &[0, 0]),
        Category::Absent => Effect::Unfit,
    }
}

/// `dup2_x1`.
#[tactic(auto, unfolding(jc_machine_model::specs::Effects::moves_of))]
fn dup2_x1(a: Category, b: Category, c: Category) -> Effect
    ensures { (stack : List Value) → effect_on result stack ≡ moved_by (moves_of opcodes.dup2_x1) (a ∷ b ∷ c ∷ []) stack }
{
    match a {
        Category::One => match b {
            Category::One => match c {
                Category::One => moves(3, &[0, 1, 2, 0, 1]),
                Category::Two | Category::Absent => Effect::Unfit,
            },
            Category::Two | Category::Absent => Effect::Unfit,
        },
        Category::Two => match b {
            Category::One => moves(2, &[0, 1, 0]),
            Category::Two | Category::Absent => Effect::Unfit,
        },
        Category::Absent => Effect::Unfit,
    }
}

/// `dup2_x2` of two operands of one slot each.
#[tactic(auto, unfolding(jc_machine_model::specs::Effects::moves_of))]
fn dup2_x2_of_ones(c: Category, d: Category) -> Effect
    ensures { (stack : List Value) → effect_on result stack
        ≡ moved_by (moves_of opcodes.dup2_x2) (Category.One ∷ Category.One ∷ c ∷ d ∷ []) stack }
{
    match c {
        Category::One => match d {
            Category::One => moves(4, &[0, 1, 2, 3, 0, 1]),
            Category::Two | Category::Absent => Effect::Unfit,
        },
        Category::Two => moves(3, &[0, 1, 2, 0, 1]),
        Category::Absent => Effect::Unfit,
    }
}

/// `dup2_x2` of an operand of two slots.
#[tactic(auto, unfolding(jc_machine_model::specs::Effects::moves_of))]
fn dup2_x2_of_two(b: Category, c: Category) -> Effect
    ensures { (d : Category) (stack : List Value) → effect_on result stack
        ≡ moved_by (moves_of opcodes.dup2_x2) (Category.Two ∷ b ∷ c ∷ d ∷ []) stack }
{
    match b {
        Category::One => match c {
            Category::One => moves(3, &[0, 1, 2, 0]),
            Category::Two | Category::Absent => Effect::Unfit,
        },
        Category::Two => moves(2, &[0, 1, 0]),
        Category::Absent => Effect::Unfit,
    }
}

/// `dup2_x2`.
#[tactic(auto, unfolding(jc_machine_model::specs::Effects::moves_of))]
fn dup2_x2(a: Category, b: Category, c: Category, d: Category) -> Effect
    ensures { (stack : List Value) → effect_on result stack ≡ moved_by (moves_of opcodes.dup2_x2) (a ∷ b ∷ c ∷ d ∷ []) stack }
{
    match a {
        Category::One => match b {
            Category::One => dup2_x2_of_ones(c, d),
            Category::Two | Category::Absent => Effect::Unfit,
        },
        Category::Two => dup2_x2_of_two(b, c),
        Category::Absent => Effect::Unfit,
    }
}

/// `swap`.
#[tactic(auto, unfolding(jc_machine_model::specs::Effects::moves_of))]
fn swap(a: Category, b: Category) -> Effect
    ensures { (stack : List Value) → effect_on result stack ≡ moved_by (moves_of opcodes.swap) (a ∷ b ∷ []) stack }
{
    match a {
        Category::One => match b {
            Category::One => moves(2, &[1, 0]),
            Category::Two | Category::Absent => Effect::Unfit,
        },
        Category::Two | Category::Absent => Effect::Unfit,
    }
}

/// An instruction that moves operands of these categories, the first of which is that of the top one.
#[tactic(auto, unfolding(jc_machine_model::specs::Effects::moves_of))]
pub fn moved(op: u8, a: Category, b: Category, c: Category, d: Category) -> Effect
    ensures { (stack : List Value) → effect_on result stack ≡ moved_by (moves_of op) (a ∷ b ∷ c ∷ d ∷ []) stack }
{
    match op {
        opcode::POP => pop(a),
        opcode::POP2 => pop2(a, b),
        opcode::DUP => dup(a),
        opcode::DUP_X1 => dup_x1(a, b),
        opcode::DUP_X2 => dup_x2(a, b, c),
        opcode::DUP2 => dup2(a, b),
        opcode::DUP2_X1 => dup2_x1(a, b, c),
        opcode::DUP2_X2 => dup2_x2(a, b, c, d),
        opcode::SWAP => swap(a, b),
        _ => Effect::Unfit,
    }
}
