//! The rule of the word from which numbers are drawn, and the steps that drawers make on it.
ghost use Rattle.std.specs.Prelude.{ℕ};

use crate::drawn::Drawn;
use atomic_table::{Join, Play, Split, TableRule};
use std::marker::{Brand, PhantomData};

// The rule of claims. Its key is the budget of all drawers.
pub struct ClaimRule;

impl TableRule<(), Drawn, u64> for ClaimRule {
    ghost use Rattle.std.specs.Prelude.{[]};
    ghost use Rattle.jc_workers.specs.ClaimRule.{IsKept};
    ghost use Rattle.jc_workers.specs.Claims.{drawn};

    ghost holds = { λ budget state. IsKept budget state.words state.views };

    ghost first = { λ budget. drawn [] budget };
}

// The step by which a number is drawn.
pub struct Draw;

impl Play<(), Drawn> for Draw {
    ghost use Rattle.jc_workers.specs.Claims.{Draws};

    ghost then = { λ step before found after. Draws before found after };
}

// Names a budget.
pub trait Budget {
    ghost amount: { ℕ };
}

impl Budget for Brand {
    ghost amount = { 0 };
}

// The step by which a drawer gives away a budget.
pub struct GiveBudget<B: Budget>(PhantomData<B>);

impl<B: Budget> Split<Drawn> for GiveBudget<B> {
    ghost use Rattle.std.specs.Prelude.{[]};
    ghost use Rattle.jc_workers.specs.Claims.{drawn, without_budget};

    ghost left = { without_budget B.amount };

    ghost right = { λ _. drawn [] B.amount };
}

// The step by which a drawer takes in another one.
pub struct TakeDrawer;

impl Join<Drawn> for TakeDrawer {
    ghost use Rattle.std.specs.Prelude.{[]};
    ghost use Rattle.jc_workers.specs.Claims.{drawn, joined};

    ghost both = { joined };

    ghost spent = { drawn [] 0 };
}
