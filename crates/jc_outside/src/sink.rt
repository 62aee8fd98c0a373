//! The texts outside that the tool writes on.
ghost use Rattle.std.specs.Prelude.{◌≤◌, ℕ, List, Option};
ghost use Rattle.jc_outside.specs.Outside.{PutLeaves, PutCause, Rose};

/// Why a sink took no more.
#[derive(Clone, Copy, Debug, PartialEq, Eq)]
pub enum SinkFault {
    /// The piece couldn't be written whole.
    Failed,
}

/// A text that grows.
pub trait Sink {
    /// What it has taken, where that is told.
    ghost told: { Self → Option (List ℕ) };

    /// How often it has failed.
    ghost faults: { Self → ℕ };

    /// Appends the whole piece. `Failed` comes only where `faults` rose in this call or stands at
    /// its last value; then a prefix of the piece was appended. `faults` rises in no other call.
    fn put(&mut self, piece: &[u8]) -> Result<(), SinkFault>
        ensures leaves { PutLeaves (told self.old) (told self.new) piece.now result }
        ensures cause { PutCause (faults self.old) (faults self.new) result };
}

/// A count of faults after one more, which stays at its last value.
pub fn next_count(count: u64) -> u64
    ensures later { count ≤ result }
    ensures rose { Rose count result }
{
    count.saturating_add(1)
}
