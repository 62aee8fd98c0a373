//! The first instruction with a fault (JVM Specification 4.9.1, 4.9.2).
ghost use Rattle.std.specs.Prelude.{◌≤◌, length};
ghost use Rattle.jc_methods.specs.InsnUse.{LocalsWithin, LeadsWithin};
ghost use Rattle.jc_body.specs.First.{FirstItem};
ghost use Rattle.jc_body.specs.Standing.{HasRightEntry};
ghost use Rattle.jc_body.specs.Faults.{IsAstray};

use crate::standing::has_right_entry;
use jc_methods::Insn;
use jc_pool::Pool;

/// The number of the first instruction that names a place without an entry of the kind that it needs.
pub fn first_wrong_entry(major: u16, pool: &Pool, insns: &[Insn]) -> Option<usize>
    ensures { FirstItem (λ number insn. HasRightEntry major pool.now insn → ⊥) insns.now result }
{
    insns
        .iter()
        .position(|insn| !has_right_entry(major, pool, insn))
}

/// The number of the first instruction that leads to none of so many.
fn first_leading_nowhere(count: u32, insns: &[Insn]) -> Option<usize>
    ensures { FirstItem (λ number insn. LeadsWithin count insn → ⊥) insns.now result }
{
    insns.iter().position(|insn| !insn.leads_within(count))
}

/// The number of the first instruction that leads to no instruction, or is the last and may go on.
pub fn first_astray(insns: &[Insn]) -> Option<usize>
    requires { length insns.now ≤ 65535 }
    ensures { FirstItem (IsAstray (length insns.now)) insns.now result }
{
    if let Some(number) = first_leading_nowhere(insns.len() as u32, insns) {
        return Some(number);
    }
    match insns {
        [.., last] if last.falls_through() => Some(insns.len() - 1),
        _ => None,
    }
}

/// The number of the first instruction that uses a local variable that is none of so many.
pub fn first_local_outside(max_locals: u16, insns: &[Insn]) -> Option<usize>
    ensures { FirstItem (λ number insn. LocalsWithin max_locals insn → ⊥) insns.now result }
{
    insns
        .iter()
        .position(|insn| !insn.locals_within(max_locals))
}
