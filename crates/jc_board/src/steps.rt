//! The rule of the words of a board, and the steps that seats make on them.
ghost use Rattle.std.specs.Prelude.{ℕ};

use crate::seat::View;
use atomic_table::{Join, Play, Split, TableRule};
use std::marker::{Brand, PhantomData};

// The rule of a board. Its key is the number of probes of each class.
pub struct BoardRule;

impl TableRule<(), View, Vec<u32>> for BoardRule {
    ghost use Rattle.std.specs.Prelude.{[]};
    ghost use Rattle.jc_board.specs.Rule.{IsKept};
    ghost use Rattle.jc_board.specs.Views.{view, whole};

    ghost holds = { λ counts state. IsKept counts.items state.words state.views };

    ghost first = { λ _. view [] whole };
}

// Names a probe.
pub trait Probe {
    ghost class: { ℕ };

    ghost id: { ℕ };
}

impl Probe for Brand {
    ghost class = { 0 };

    ghost id = { 0 };
}

// The step by which a probe is hit.
pub struct Hit<P: Probe>(PhantomData<P>);

impl<P: Probe> Play<(), View> for Hit<P> {
    ghost use Rattle.std.specs.Prelude.{◌≡◌};
    ghost use Rattle.jc_board.specs.Views.{with_hit};

    ghost then = { λ step before found after. after ≡ (with_hit before.0 P.class P.id, before.1) };
}

// The step by which a probe is looked at.
pub struct Peek<P: Probe>(PhantomData<P>);

impl<P: Probe> Play<(), View> for Peek<P> {
    ghost use Rattle.jc_board.specs.Views.{Peeks};

    ghost then = { λ step before found after. Peeks P.class P.id before found after };
}

// Names a part.
pub trait Part {
    ghost amount: { ℕ };
}

impl Part for Brand {
    ghost amount = { 0 };
}

// The step by which a seat gives away a part.
pub struct GivePart<P: Part>(PhantomData<P>);

impl<P: Part> Split<View> for GivePart<P> {
    ghost use Rattle.std.specs.Prelude.{[]};
    ghost use Rattle.jc_board.specs.Views.{view, without_part};

    ghost left = { without_part P.amount };

    ghost right = { λ _. view [] P.amount };
}

// The step by which a seat takes in another one.
pub struct TakeSeat;

impl Join<View> for TakeSeat {
    ghost use Rattle.std.specs.Prelude.{[]};
    ghost use Rattle.jc_board.specs.Views.{view, joined};

    ghost both = { joined };

    ghost spent = { view [] 0 };
}
