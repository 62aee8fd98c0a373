//! The rule of the words of a dump board, and the steps that seats make on them.
ghost use Rattle.std.specs.Prelude.{ℕ};

use crate::seat::View;
use atomic_table::{Join, Play, Split, TableRule};
use std::marker::{Brand, PhantomData};

// The rule of a dump board. Its key is the number of probes of each class.
pub struct DumpRule;

impl TableRule<(), View, Vec<u32>> for DumpRule {
    ghost use Rattle.jc_dump_board.specs.Rule.{IsKept};
    ghost use Rattle.jc_dump_board.specs.Views.{only_view};

    ghost holds = { λ counts state. IsKept counts.items state.words state.views };

    ghost first = { λ _. only_view };
}

// Names a probe.
pub trait Probe {
    ghost class: { ℕ };

    ghost id: { ℕ };
}

impl Probe for Brand {
    ghost class = { 0 };

    ghost id = { 0 };
}

// The step by which a probe is hit.
pub struct Hit<P: Probe>(PhantomData<P>);

impl<P: Probe> Play<(), View> for Hit<P> {
    ghost use Rattle.std.specs.Prelude.{◌≡◌};
    ghost use Rattle.jc_dump_board.specs.Views.{with_hit};

    ghost then = { λ step before found after. after ≡ (with_hit before.0 P.class P.id, before.1) };
}

// Names a word, and the number of probes of each class of its board.
pub trait Word {
    ghost use Rattle.std.specs.Prelude.{ℕ, List};

    ghost counts: { List ℕ };

    ghost word: { ℕ };
}

impl Word for Brand {
    ghost use Rattle.std.specs.Prelude.{[]};

    ghost counts = { [] };

    ghost word = { 0 };
}

// The step by which the hits of a word are taken.
pub struct Take<W: Word>(PhantomData<W>);

impl<W: Word> Play<(), View> for Take<W> {
    ghost use Rattle.jc_dump_board.specs.Taking.{TakesWord};

    ghost then = { λ step before found after. TakesWord W.counts W.word before found after };
}

// Names a part.
pub trait Part {
    ghost amount: { ℕ };
}

impl Part for Brand {
    ghost amount = { 0 };
}

// The step by which a seat gives away a part.
pub struct GivePart<P: Part>(PhantomData<P>);

impl<P: Part> Split<View> for GivePart<P> {
    ghost use Rattle.jc_dump_board.specs.Views.{new_view, without_part};

    ghost left = { without_part P.amount };

    ghost right = { λ _. new_view P.amount };
}

// The step by which a seat takes in another one.
pub struct TakeSeat;

impl Join<View> for TakeSeat {
    ghost use Rattle.jc_dump_board.specs.Views.{new_view, joined};

    ghost both = { joined };

    ghost spent = { new_view 0 };
}
