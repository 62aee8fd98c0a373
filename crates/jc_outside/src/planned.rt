//! The calls that are planned to fail.
ghost use Rattle.std.specs.Prelude.{◌≡◌, [], IfOk};
ghost use Rattle.std.specs.Bool.{OnTrue, OnFalse};
ghost use Rattle.jc_outside.specs.Outside.{Begins};
ghost use Rattle.jc_outside.specs.Planned.{is_planned, next_call, first_half};

use std::alloc::{AllocError, Global};
use std::marker::Model;

/// The numbers of the calls that are to fail, from 1, and how many calls were made.
#[derive(Drop)]
pub struct PlannedFaults {
    failing: Vec<u32>,
    made: u64,
}

impl Model for PlannedFaults {
    ghost use Rattle.jc_outside.specs.Planned.{Planned};

    ghost Value = { Planned };

    ghost view = { λ p. record { failing = p.failing.items; made = p.made } };
}

impl PlannedFaults {
    /// No call was made yet.
    pub fn new(alloc: Global, failing: &[u32]) -> Result<PlannedFaults, AllocError>
        ensures failing { IfOk result (λ p. p.failing ≡ failing.now) }
        ensures made { IfOk result (λ p. p.made ≡ 0) }
    {
        Ok(PlannedFaults {
            failing: Vec::from_slice(alloc, failing)?,
            made: 0,
        })
    }

    /// Counts a call, and answers whether it is to fail.
    #[tactic(auto, unfolding(crate::specs::Planned::is_planned))]
    pub fn next_fails(&mut self) -> bool
        ensures planned { result ≡ is_planned self.old }
        ensures made { self.new ≡ next_call self.old }
    {
        self.made = self.made.saturating_add(1);
        let made = self.made;
        self.failing.iter().any(|number| u64::from(*number) == made)
    }
}

/// What a call writes of its bytes: the first half where it is to fail, else all of them.
pub fn front(bytes: &[u8], fails: bool) -> &[u8]
    ensures begins { Begins result.now bytes.now }
    ensures half { OnTrue fails (result.now ≡ first_half bytes.now) }
    ensures all { OnFalse fails (result.now ≡ bytes.now) }
{
    if fails {
        &bytes[..bytes.len() / 2]
    } else {
        bytes
    }
}
