//! Jumps that have no room in two bytes.
ghost use Rattle.std.specs.Prelude.{◌≡◌, ◌+◌, ◌<◌, ◌&&◌, not, All, length};
ghost use Rattle.jc_methods.specs.Flow.{targets_of};
ghost use Rattle.jc_methods.specs.InsnUse.{LeadsWithin};
ghost use Rattle.jc_layout.specs.Layout.{is_near, is_far_by, has_far};

use jc_methods::Insn;

/// Whether a jump from one offset to the other has room in two bytes.
pub fn is_near(at: u32, to: u32) -> bool
    ensures { result ≡ is_near at to }
{
    let (at, to) = (u64::from(at), u64::from(to));
    to < at + 32768 && at <= to + 32768
}

/// Whether the instruction with this number is a jump that has no room in two bytes.
fn is_far(insn: &Insn, number: usize, starts: &[u32]) -> bool
    requires number { number < length starts.now }
    requires places { All (λ to. to < length starts.now) (targets_of insn.now) }
    ensures { result ≡ is_far_by starts.now number insn.now }
{
    match insn {
        Insn::Jump { to, .. } => !is_near(starts[number], starts[*to as usize]),
        _ => false,
    }
}

/// Whether the instruction with this number is a jump that isn't wide and has no room in two bytes.
fn lacks_room(insn: &Insn, number: usize, starts: &[u32], wide: bool) -> bool
    requires number { number < length starts.now }
    requires places { All (λ to. to < length starts.now) (targets_of insn.now) }
    ensures { result ≡ (not wide && is_far_by starts.now number insn.now) }
{
    !wide && is_far(insn, number, starts)
}

/// Whether a jump that isn't wide has no room in two bytes, where the instructions begin at these
/// offsets.
#[tactic(auto, using(crate::proofs::FarLaws::left_next, crate::proofs::FarLaws::left_here, crate::proofs::FarLaws::none_left))]
pub fn has_far(code: &[Insn], starts: &[u32], wide: &[bool]) -> bool
    requires starts { length starts.now ≡ length code.now + 1 }
    requires wide { length wide.now ≡ length code.now }
    requires places { All (LeadsWithin (length code.now)) code.now }
    ensures { result ≡ has_far starts.now 0 code.now wide.now }
{
    'seeking: for (number, insn) in code.iter().enumerate() {
        if lacks_room(insn, number, starts, wide[number]) {
            return true;
        }
    }
    false
}
