//! Worked examples of instrumented programs that run beside their originals.
//!
//! The turns were counted by hand. A method's prelude takes 13 turns where a thread first asks for the probe array, 6 where its
//! class has it already, and a probe takes 4.
#![tactic(auto)]

mod constants;
mod coverage;

ghost use Rattle.std.specs.Prelude.{◌≡◌, [], ◌∷◌, ◌++◌, replicate};
ghost use Rattle.jc_programs.specs.Turns.{turns_of};
ghost use Rattle.jc_programs.specs.declared.run_plan.Schedule.TheVariants as schedules;
ghost use Rattle.jc_machine_model.specs.Run.{run};
ghost use Rattle.jc_twin_simulation.specs.Kept.{kept, row};
ghost use Rattle.jc_twin_simulation.specs.Same.{Same};
ghost use Rattle.jc_twin_simulation.specs.Spread.{IsSpread};
ghost use Rattle.jc_twin_programs.specs.TwinProgram.{TwinProgram};
ghost use Rattle.examples_machine.specs.ProgramExamples.{abs_program, probed_abs_program, inc_program, probed_inc_program};
ghost use Rattle.examples_simulation.specs.SimulationExamples.{inc_marks, one_inc, one_begun, two_begun};
ghost use Rattle.examples_simulation.specs.SimulationExamples.{probed_nothing_program, nothing_marks, nothing_begun};

pub use constants::worked_constant;
pub use coverage::{worked_call, worked_coverage, worked_stop, worked_throw};

/// Of the 22 turns of one thread, five are kept. Of two threads that race through `$jacocoInit`, ten turns are kept, of each
/// thread in turn; one after the other they keep five each.
pub fn worked_kept_turns()
    ensures one { kept probed_inc_program inc_marks one_begun (replicate 22 0) ≡ replicate 5 0 }
    ensures racing { kept probed_inc_program inc_marks two_begun (turns_of 2 (schedules.Robin 44)) ≡ turns_of 2 (schedules.Robin 10) }
    ensures in_order { kept probed_inc_program inc_marks two_begun (replicate 22 0 ++ replicate 15 1) ≡ replicate 5 0 ++ replicate 5 1 }
{}

/// A method that returns at once takes 17 probe turns in front of its return. Turns of other threads and those of a thread
/// that has ended don't count, and a kept turn ends the row.
pub fn worked_rows()
    ensures prelude { row probed_inc_program inc_marks one_begun 0 (replicate 13 0) 0 ≡ 13 }
    ensures kept_turn { row probed_inc_program inc_marks one_begun 0 (replicate 14 0) 0 ≡ 0 }
    ensures others { row probed_inc_program inc_marks two_begun 0 (0 ∷ 0 ∷ 1 ∷ 0 ∷ 1 ∷ []) 0 ≡ 3 }
    ensures most { row probed_nothing_program nothing_marks nothing_begun 0 (replicate 17 0) 0 ≡ 17 }
    ensures behind { row probed_nothing_program nothing_marks nothing_begun 0 (replicate 18 0) 0 ≡ 0 }
    ensures ended { row probed_nothing_program nothing_marks nothing_begun 0 (replicate 20 0) 0 ≡ 0 }
{}

/// One turn of the original is 18 of the instrumented program. A turn of a thread that has ended is left out.
pub fn worked_spread()
    ensures longest { IsSpread probed_nothing_program nothing_marks nothing_begun (0 ∷ 0 ∷ []) (replicate 18 0) }
{}

/// Within a probe, behind 20 turns, and where the original stands behind four: three values more are on the stack.
pub fn worked_same_worlds()
    ensures within { Same probed_inc_program inc_marks (run inc_program one_inc (replicate 4 0)) (run probed_inc_program one_inc (replicate 20 0)) }
{}

/// What is said of every program and its twin isn't said of none: a class with a jump, and the same class with its probes.
pub fn worked_twin_program()
    ensures twin { TwinProgram abs_program probed_abs_program }
{}
