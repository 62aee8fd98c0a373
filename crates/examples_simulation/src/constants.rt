//! A class that gets its array of probes by a constant, worked by hand.
ghost use Rattle.std.specs.Prelude.{◌≡◌, [], ◌∷◌, replicate};
ghost use Rattle.jc_programs.specs.Turns.{turns_of};
ghost use Rattle.jc_programs.specs.declared.run_plan.Schedule.TheVariants as schedules;
ghost use Rattle.jc_twin_programs.specs.TwinProgram.{TwinProgram};
ghost use Rattle.jc_twin_simulation.specs.Kept.{kept, row};
ghost use Rattle.examples_simulation.specs.ConstantExamples.{mixed_program, probed_mixed_program, probed_newer_program};
ghost use Rattle.examples_simulation.specs.ConstantExamples.{newer_begun, newer_begun_twice, newer_marks};

/// One program may have classes of both ways. The prelude by the constant takes three turns, whether the thread is the first to ask
/// for the array or not: of two threads that take turns, each keeps its four turns in step with the other.
pub fn worked_constant()
    ensures twin { TwinProgram mixed_program probed_mixed_program }
    ensures prelude { row probed_newer_program newer_marks newer_begun 0 (replicate 3 0) 0 ≡ 3 }
    ensures kept_turn { row probed_newer_program newer_marks newer_begun 0 (replicate 4 0) 0 ≡ 0 }
    ensures one { kept probed_newer_program newer_marks newer_begun (replicate 11 0) ≡ replicate 4 0 }
    ensures racing { kept probed_newer_program newer_marks newer_begun_twice (turns_of 2 (schedules.Robin 22)) ≡ turns_of 2 (schedules.Robin 8) }
{}
