//! What a seat knows of its board.
ghost use Rattle.std.specs.Prelude.{ℕ, List};
ghost use Rattle.std.specs.Borrow.{ftrue};

use std::marker::Model;

// The probes that a seat has hit, by class and id, and its part of 65,536. No value of it is made.
pub struct View {
    pub ghost hits: { List (ℕ × ℕ) },
    pub ghost part: { ℕ },
}

impl Model for View {
    ghost also_owns = { λ _. ftrue };
}
