//! Offsets where one more jump is wide.
ghost use Rattle.std.specs.Prelude.{◌≡◌, ◌+◌, ◌<◌, ◌≤◌, All, length};
ghost use Rattle.jc_layout.specs.Shift.{all_risen, passed_on, rise_at, risen_ends};

use crate::jumps::{Ends, Jump};

/// By how much offsets rise where one more jump is wide.
#[derive(Clone, Copy)]
pub struct Shift {
    /// The number of the jump. Up to it offsets stay.
    pub jump: u32,
    /// The number of the first switch behind it.
    pub switch: u32,
    /// By how much offsets rise up to that switch.
    pub near: u32,
    /// By how much they rise behind it.
    pub behind: u32,
}

/// By how much offsets rise behind a switch that stands at this offset and rises by so many bytes:
/// its padding falls or rises too.
pub fn passed_on(offset: u32, more: u32) -> u32
    requires offset { offset < 4 }
    requires more { more ≤ 5 }
    ensures passed { result ≡ passed_on offset more }
    ensures few { result ≤ 8 }
{
    let before = 3 - offset % 4;
    let after = 3 - (offset + more) % 4;
    (more + after).saturating_sub(before)
}

/// By how much the offset of the instruction with this number rises.
fn rise_at(shift: Shift, number: u32) -> u32
    ensures { result ≡ rise_at shift number }
{
    if number <= shift.jump {
        0
    } else if number <= shift.switch {
        shift.near
    } else {
        shift.behind
    }
}

/// The offsets of a jump where they have risen.
fn risen(shift: Shift, jump: Jump, ends: Ends) -> Ends
    requires shift { (shift.near ≤ 8) × (shift.behind ≤ 8) }
    requires ends { (ends.at ≤ 16000000) × (ends.to ≤ 16000000) }
    ensures { result ≡ risen_ends shift jump ends }
{
    Ends {
        at: ends.at + rise_at(shift, jump.number),
        to: ends.to + rise_at(shift, jump.to),
    }
}

/// Raises the offsets of jumps.
pub fn raise(shift: Shift, jumps: &[Jump], ends: &mut [Ends])
    requires size { length ends.old ≡ length jumps.now }
    requires shift { (shift.near ≤ 8) × (shift.behind ≤ 8) }
    requires ends { All (λ e. (e.at ≤ 16000000) × (e.to ≤ 16000000)) ends.old }
    ensures { ends.new ≡ all_risen shift jumps.now ends.old }
{
    'raising: for place in 0..jumps.len() {
        ends[place] = risen(shift, jumps[place], ends[place]);
    }
}
