//! Offsets of instructions.
ghost use Rattle.std.specs.Prelude.{◌≡◌, ◌≤◌, IfOk};
ghost use Rattle.jc_methods.specs.WellMade.{insns_and_arms};
ghost use Rattle.jc_methods.specs.Widened.{listed};
ghost use Rattle.jc_layout.specs.Layable.{most_laid};
ghost use Rattle.jc_layout.specs.Layout.{starts_of};

use jc_bytes::Memory;
use jc_insn::size_of;
use jc_methods::{Insn, is_listed};
use std::alloc::Global;

/// The offset of each instruction where these jumps are wide, and then that of the end.
pub fn offsets(alloc: Global, code: &[Insn], wide: &[bool]) -> Result<Vec<u32>, Memory>
    requires { insns_and_arms code.now ≤ most_laid }
    ensures { IfOk result (λ starts. starts.items ≡ starts_of (listed wide.now) code.now) }
{
    let mut starts = Vec::new(alloc);
    let mut at = 0;
    'placing: for (number, insn) in code.iter().enumerate() {
        starts.push(at)?;
        at += size_of(insn, at, is_listed(wide, number));
    }
    starts.push(at)?;
    Ok(starts)
}
