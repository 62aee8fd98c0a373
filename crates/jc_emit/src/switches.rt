//! The switches of an instrumented method.
ghost use Rattle.std.specs.Prelude.{◌≡◌, ◌<◌, ◌≤◌, ◌+◌, ℕ, All, Contains, length};
ghost use Rattle.std.specs.Prelude.{slice_index, slice_index_or, OnOk, None};
ghost use Rattle.jc_bytes.specs.PlainLists.{pieces};
ghost use Rattle.jc_emit.specs.Branching.{IsPushed, IsTableOf, arm_place_in, arm_part_in};
ghost use Rattle.jc_emit.specs.TwinCode.{here_or};
ghost use Rattle.jc_emit.specs.Writing.{GrowsFrom};

use crate::places::{hop_size, hop_sizes};
use crate::written::{ProbeSource, Written};
use jc_bytes::Memory;

/// The arm place where there is a probe, and else where jumps to the target land.
fn here_or(id: Option<u32>, here: u32, landing: u32) -> u32
    ensures { result ≡ here_or id here landing }
{
    match id {
        Some(_) => here,
        None => landing,
    }
}

/// Puts into a table, at each of the distinct targets of a switch, where the switch leads for it. The
/// arm places stand one behind the other, from `here` on.
pub(crate) fn set_arms(
    table: &mut [u32],
    lands: &[u32],
    here: u32,
    targets: &[u32],
    ids: &[Option<u32>],
)
    requires size { length table.old ≡ length lands.now }
    requires within { All (λ to. to < length lands.now) targets.now }
    requires ids { length ids.now ≡ length targets.now }
    requires few { length ids.now ≤ 65536 }
    requires small { here ≤ 1000001 }
    ensures size { length table.new ≡ length table.old }
    ensures each { (to : ℕ) → Contains targets.now to
        → slice_index table.new to ≡ arm_place_in (slice_index lands.now) here targets.now ids.now to }
{
    let mut place = here + hop_sizes(ids);
    let mut number = targets.len();
    'setting: while number > 0 {
        number -= 1;
        let to = targets[number] as usize;
        place -= hop_size(ids[number]);
        table[to] = here_or(ids[number], place, lands[to]);
    }
}

/// Puts what stands at the arm places of a switch: a probe and a goto for each of its distinct targets
/// that has a probe.
pub(crate) fn put_arms(
    written: &mut Written,
    source: ProbeSource<'_>,
    lands: &[u32],
    targets: &[u32],
    ids: &[Option<u32>],
) -> Result<(), Memory>
    requires within { All (λ to. to < length lands.now) targets.now }
    requires ids { length ids.now ≡ length targets.now }
    requires pushed { (number : ℕ) → IsPushed (length source.constants.now) (slice_index_or ids.now number None) }
    ensures { (land : ℕ → ℕ) → IsTableOf land lands.now
        → OnOk result (GrowsFrom source.entry written.old written.new (pieces (arm_part_in land targets.now ids.now) (length targets.now))) }
{
    'putting: for (number, to) in targets.iter().enumerate() {
        written.put_behind(source, ids[number], *to, lands[*to as usize])?;
    }
    Ok(())
}
