//! What the turn of a thread comes to.
ghost use Rattle.std.specs.Prelude.{◌≡◌, None};

use jc_programs::End;

/// A probe of a class.
#[derive(Clone, Copy, Debug)]
pub struct ProbeHit {
    pub class: u32,
    pub id: u32,
}

/// What the turn of a thread comes to, beside its frames and what all threads share.
#[derive(Clone, Copy, Debug)]
pub struct ThreadTurn {
    /// How the thread stands.
    pub end: End,
    /// The probe that was hit.
    pub hit: Option<ProbeHit>,
}

impl ThreadTurn {
    /// A turn in which no probe is hit, and how the thread stands then.
    pub fn to(end: End) -> ThreadTurn
        ensures { result ≡ record { end = end; hit = None } }
    {
        ThreadTurn { end, hit: None }
    }
}
