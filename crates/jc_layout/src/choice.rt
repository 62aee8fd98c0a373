//! Which jumps of code are wide.
ghost use Rattle.std.specs.Prelude.{◌≡◌, IfOk, false, length, replicate};
ghost use Rattle.jc_methods.specs.Widened.{listed};
ghost use Rattle.jc_layout.specs.Layable.{IsLayable};
ghost use Rattle.jc_layout.specs.Layout.{chosen_list, chosen_starts, starts_of};

use crate::far::has_far;
use crate::offsets::offsets;
use crate::widening::Widening;
use jc_bytes::Memory;
use jc_methods::Insn;
use std::alloc::Global;

/// The offsets of the layout that is chosen, and its wide jumps.
#[derive(Drop)]
pub struct Choice {
    pub starts: Vec<u32>,
    pub wide: Vec<bool>,
}

/// The layout of code in which a jump has no room, where none is wide.
fn choose_wide(
    alloc: Global,
    code: &[Insn],
    wide: Vec<bool>,
    starts: Vec<u32>,
) -> Result<Choice, Memory>
    requires layable { IsLayable code.now }
    requires wide { wide.items ≡ replicate (length code.now) false }
    requires starts { starts.items ≡ starts_of (listed wide.items) code.now }
    ensures wide { IfOk result (λ c. c.wide.items ≡ chosen_list code.now) }
    ensures starts { IfOk result (λ c. c.starts.items ≡ chosen_starts code.now) }
{
    let mut widening = Widening::new(alloc, code, wide, starts)?;
    let mut far = widening.far(alloc)?;
    'widening: while !far.is_empty() {
        widening.widen_far(alloc, &far)?;
        far = widening.far(alloc)?;
    }
    let wide = widening.wide;
    let starts = offsets(alloc, code, &wide)?;
    Ok(Choice { starts, wide })
}

/// The layout of the code. In each round the code is laid out, and each jump that has no room in two
/// bytes becomes wide, and stays so, until a round makes no more jump wide.
pub fn choose(alloc: Global, code: &[Insn]) -> Result<Choice, Memory>
    requires { IsLayable code.now }
    ensures wide { IfOk result (λ c. c.wide.items ≡ chosen_list code.now) }
    ensures starts { IfOk result (λ c. c.starts.items ≡ chosen_starts code.now) }
{
    let wide = vec![in alloc; false; code.len()]?;
    let starts = offsets(alloc, code, &wide)?;
    if has_far(code, &starts, &wide) {
        return choose_wide(alloc, code, wide, starts);
    }
    Ok(Choice { starts, wide })
}
