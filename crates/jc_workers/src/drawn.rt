//! What a drawer knows of its claims.
ghost use Rattle.std.specs.Prelude.{ℕ, List};
ghost use Rattle.std.specs.Borrow.{ftrue};

use std::marker::Model;

// The numbers that a drawer has, and how many it may still draw. No value of it is made.
pub struct Drawn {
    pub ghost numbers: { List ℕ },
    pub ghost budget: { ℕ },
}

impl Model for Drawn {
    ghost also_owns = { λ _. ftrue };
}
