//! What workers left, as texts.
ghost use Rattle.std.specs.Prelude.{◌≡◌, ◌<◌, ◌≤◌, ◌^◌, length, slice_index_or, []};
ghost use Rattle.jc_programs.specs.Probes.{counts_of};

use jc_bytes::Memory;
use jc_machine_text::case_text;
use jc_programs::{CaseEnd, HitSet, Program};
use std::alloc::{AllocError, Global};

/// The text of the cases that left these ends.
pub fn cases_text(alloc: Global, program: &Program, ends: &[CaseEnd]) -> Result<Vec<u8>, Memory>
    requires { length ends.now ≤ 256 }
{
    let mut text = Vec::new(alloc);
    for (before, end) in ends.iter().enumerate() {
        let case = case_text(alloc, before as u32 + 1, end, program)?;
        text.extend_from_slice(&case)?;
    }
    Ok(text)
}

/// Whether a case raised a throwable.
pub fn has_raised(ends: &[CaseEnd]) -> bool {
    ends.iter().any(|end| end.raised)
}

/// Puts 1 for each probe of a class that is hit, and 0 for each other.
fn put_bits(bits: &mut String, hits: &HitSet, class: u32, count: u32) -> Result<(), AllocError>
    requires class { class < length hits.now }
    requires count { count ≤ length (slice_index_or hits.now class []) }
{
    for id in 0..count {
        bits.push(if hits.get(class, id) { '1' } else { '0' })?;
    }
    Ok(())
}

/// 1 for each probe that is hit, and 0 for each other, with `.` behind each class.
pub fn bits_text(alloc: Global, hits: &HitSet, counts: &[u32]) -> Result<String, AllocError>
    requires counts { counts_of hits.now ≡ counts.now }
    requires few { length counts.now < 2 ^ 32 }
{
    let mut bits = String::new(alloc);
    'classes: for (class, count) in counts.iter().enumerate() {
        put_bits(&mut bits, hits, class as u32, *count)?;
        bits.push('.')?;
    }
    Ok(bits)
}
