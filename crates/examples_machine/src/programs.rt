//! Programs that are well made, and the worlds of their runs, so that what is said of every program isn't said of none.
ghost use Rattle.std.specs.Prelude.{◌≡◌, ℕ, pos, List, [], ◌∷◌, codes};
ghost use Rattle.jc_programs.specs.declared.run_plan.Schedule.TheVariants as schedules;
ghost use Rattle.jc_machine_model.specs.Programs.{IsProgram};
ghost use Rattle.jc_machine_model.specs.Fits.{FitsWorld};
ghost use Rattle.jc_machine_model.specs.Run.{run};
ghost use Rattle.jc_machine_model.specs.Values.{int, long};
ghost use Rattle.jc_machine_model.specs.World.{running};
ghost use Rattle.examples_machine.specs.ProgramExamples.{wide_program, w_name, abs_program, inc_program, probed_abs_program};
ghost use Rattle.examples_machine.specs.ProgramExamples.{case, one_thread, a_name, inc_thread};

/// These two are programs, and each world of a run of the second one's two threads fits it.
pub fn worked_programs()
    ensures abs { IsProgram abs_program }
    ensures inc { IsProgram inc_program }
    ensures runs { (turns : List ℕ)
        → FitsWorld inc_program (run inc_program (case (inc_thread ∷ inc_thread ∷ []) (schedules.Robin 10)) turns) }
{}

/// So is an instrumented class with its `$jacocoInit`, and each world of a run of its method fits it.
pub fn worked_probed_programs()
    ensures probed { IsProgram probed_abs_program }
    ensures runs { (turns : List ℕ)
        → FitsWorld probed_abs_program (run probed_abs_program (one_thread a_name (codes "abs") (pos 5 ∷ []) 100) turns) }
{}

/// A frame of a class file may say Top of a stack entry where a long lies. The stack of this body has two slots, and
/// behind two turns a long and an int lie there.
pub fn worked_values_on_a_stack()
    ensures wide { IsProgram wide_program }
    ensures values { (run wide_program (one_thread w_name (codes "w") [] 2) (0 ∷ 0 ∷ [])).threads
        ≡ running (record {
          method = record { class = 0; method = 0 };
          place = 2;
          locals = [];
          stack = int (pos 0) ∷ long (pos 0) ∷ [];
        }) [] ∷ [] }
{}
