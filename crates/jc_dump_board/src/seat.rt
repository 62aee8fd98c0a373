//! What a seat knows of its board.
ghost use Rattle.std.specs.Prelude.{ℕ, List, Bool};
ghost use Rattle.std.specs.Borrow.{ftrue};

use std::marker::Model;

// The probes that a seat has hit, those that it has taken, those that it has hit and not taken since, and those of its hits
// that are known to be taken, each by class and id; its part of 65,536; and whether no other seat ever had a part. No value of
// it is made.
pub struct View {
    pub ghost hits: { List (ℕ × ℕ) },
    pub ghost taken: { List (ℕ × ℕ) },
    pub ghost pending: { List (ℕ × ℕ) },
    pub ghost settled: { List (ℕ × ℕ) },
    pub ghost part: { ℕ },
    pub ghost alone: { Bool },
}

impl Model for View {
    ghost also_owns = { λ _. ftrue };
}
