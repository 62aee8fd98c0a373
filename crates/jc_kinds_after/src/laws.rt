//! Laws of the types after an instruction.
//!
//! [`a_step_shifts`] is the promise of this crate; the other is a step, which the crates above cite too.
ghost use Rattle.std.specs.Prelude.{◌≡◌, ◌<◌, ℕ, List, length};
ghost use Rattle.jc_kinds_after.specs.Step.{fails};
ghost use Rattle.jc_kinds_after.specs.After.{array_of, array_step};
ghost use Rattle.jc_kinds_after.specs.Shift.{StepShifts, AfterShifts};

/// Where no long or double stands round a new local variable, an instruction of a body with that local variable
/// has the shifted state after it: each instruction leads to the image of its targets, and each state has the
/// array of probes in the new local variable.
pub fn a_step_shifts()
    ensures step { StepShifts }
    ensures after { AfterShifts }
{}

/// An array whose class would have a name of more than 65,535 bytes isn't made.
pub fn each_array_has_a_name()
    ensures { (name : List ℕ) → 65535 < length (array_of name) → array_step name ≡ fails }
{}
