//! Numbers that threads draw, each number once.
ghost use Rattle.std.specs.Prelude.{◌≡◌, ℕ, ◌+◌, ◌<◌, ◌≤◌, [], ◌∷◌, ◌++◌, length, Contains, IfOk};
ghost use Rattle.jc_workers.specs.Claims.{drawn, without_budget, AreThoseBelow};

use crate::claim_steps::{Budget, ClaimRule, Draw, GiveBudget, TakeDrawer};
use crate::drawn::Drawn;
use atomic_table::{Shared, Table};
use jc_bytes::Memory;
use std::alloc::Global;
use std::marker::{Brand, Model};

/// The word from which threads draw the numbers 0, 1, 2 and so on.
#[derive(Drop)]
pub struct Claims {
    table: Table<(), Drawn, u64, ClaimRule, Global>,
    // How many numbers all drawers together may draw.
    budget: u64,
}

impl Model for Claims {
    ghost use Rattle.std.specs.Prelude.{◌≡◌, ◌<◌};
    ghost use Rattle.jc_workers.specs.Claims.{ClaimsSeen};

    ghost Value = { ClaimsSeen };

    ghost view = { λ claims. record { table = claims.table.shared.table_id; budget = claims.budget } };

    ghost invariant = { λ claims. (claims.table.shared.key ≡ claims.budget)
        × (claims.table.shared.table_id.slots ≡ 0) × (0 < claims.table.shared.table_id.words) };
}

/// The place from which a thread draws numbers. It knows the numbers that it drew, and has a budget: how many it may still draw.
#[derive(Drop)]
pub struct Drawer {
    seat: atomic_table::Seat<(), Drawn>,
}

impl Model for Drawer {
    ghost use Rattle.std.specs.Prelude.{◌≡◌, []};
    ghost use Rattle.jc_workers.specs.Claims.{DrawerSeen};

    ghost Value = { DrawerSeen };

    ghost view = { λ drawer. record { table = drawer.seat.table_id; numbers = drawer.seat.me.0.numbers; budget = drawer.seat.me.0.budget } };

    ghost invariant = { λ drawer. drawer.seat.me.1 ≡ [] };
}

// A new seat, to which a budget goes.
fn give_budget<B: Budget>(
    words: &Shared<(), Drawn, u64, ClaimRule>,
    seat: &mut atomic_table::Seat<(), Drawn>,
    budget: u64,
) -> atomic_table::Seat<(), Drawn>
    requires amount { budget ≡ B.amount }
    requires table { (seat.old.table_id ≡ words.now.table_id) × (0 < words.now.table_id.words) }
    requires budget { budget ≤ seat.old.me.0.budget }
    ensures tables { (seat.new.table_id ≡ seat.old.table_id) × (result.table_id ≡ seat.old.table_id) }
    ensures left { seat.new.me ≡ (without_budget budget seat.old.me.0, seat.old.me.1) }
    ensures right { result.me ≡ (drawn [] budget, []) }
{
    words.split_seat::<GiveBudget<B>>(seat)
}

impl Claims {
    /// A word of which no number is drawn yet, and the drawer that has the whole budget.
    ///
    /// # Errors
    ///
    /// `Memory` where memory was refused.
    pub fn new(alloc: Global, budget: u64) -> Result<(Claims, Drawer), Memory>
        ensures claims { IfOk result (λ t. (t.0.budget ≡ budget) × (t.1.table ≡ t.0.table)) }
        ensures drawer { IfOk result (λ t. (t.1.numbers ≡ []) × (t.1.budget ≡ budget)) }
    {
        let (table, seat) = Table::of_words(alloc, &[0], &budget)?;
        Ok((Claims { table, budget }, Drawer { seat }))
    }

    /// Ends the drawing. Where the drawer's numbers and its budget are together as many as the budget of `new`, its numbers are
    /// exactly those below some number, each once. Takes no memory.
    pub fn close(self, drawer: Drawer)
        requires { drawer.table ≡ self.table }
        ensures { length drawer.numbers + drawer.budget ≡ self.budget → (n : ℕ) × AreThoseBelow n drawer.numbers }
    {
        let Claims { table, budget: _ } = self;
        let Drawer { seat } = drawer;
        table.close_with(seat).free();
    }
}

impl Drawer {
    /// Draws the next number, by one `fetch_add` of 1. It is above all that this drawer had. Takes no memory.
    pub fn draw(&mut self, claims: &Claims) -> u64
        requires claims { self.old.table ≡ claims.now.table }
        requires budget { 0 < self.old.budget }
        ensures claims { self.new.table ≡ self.old.table }
        ensures numbers { self.new.numbers ≡ self.old.numbers ++ result ∷ [] }
        ensures budget { self.new.budget + 1 ≡ self.old.budget }
        ensures above { (y : ℕ) → Contains self.old.numbers y → y < result }
    {
        claims.table.shared.fetch_add::<Draw>(&mut self.seat, 0, 1)
    }

    /// A new drawer of the claims, which has no number. `budget` goes to it from the budget of this drawer. Takes no memory.
    pub fn split(&mut self, claims: &Claims, budget: u64) -> Drawer
        requires claims { self.old.table ≡ claims.now.table }
        requires budget { budget ≤ self.old.budget }
        ensures claims { (self.new.table ≡ self.old.table) × (result.table ≡ self.old.table) }
        ensures numbers { (self.new.numbers ≡ self.old.numbers) × (result.numbers ≡ []) }
        ensures budgets { (self.new.budget + budget ≡ self.old.budget) × (result.budget ≡ budget) }
    {
        let seat = give_budget::<Brand>(&claims.table.shared, &mut self.seat, budget);
        Drawer { seat }
    }

    /// Takes in the numbers and the budget of another drawer of the claims. Takes no memory.
    pub fn join(&mut self, claims: &Claims, other: Drawer)
        requires claims { (self.old.table ≡ claims.now.table) × (other.table ≡ claims.now.table) }
        ensures claims { self.new.table ≡ self.old.table }
        ensures numbers { self.new.numbers ≡ self.old.numbers ++ other.numbers }
        ensures budget { self.new.budget ≡ self.old.budget + other.budget }
    {
        let Drawer { seat } = other;
        claims
            .table
            .shared
            .join_seat::<TakeDrawer>(&mut self.seat, seat);
    }
}
