//! Coverage of programs that ran, worked by hand.
ghost use Rattle.std.specs.Prelude.{◌≡◌, true, false, None, [], ◌∷◌};
ghost use Rattle.jc_programs.specs.Turns.{turns_in};
ghost use Rattle.jc_programs.specs.declared.run_end.Thrown.TheVariants as thrown;
ghost use Rattle.jc_twin_programs.specs.TwinProgram.{TwinProgram};
ghost use Rattle.jc_machine_model.specs.Run.{run};
ghost use Rattle.jc_machine_model.specs.World.{threw};
ghost use Rattle.examples_machine.specs.EdgeExamples.{edge};
ghost use Rattle.examples_machine.specs.ProgramExamples.{abs, abs_program, probed_abs_program, div, div_program, hit, inc};
ghost use Rattle.examples_machine.specs.ProgramExamples.{inc_program, probed_inc_program, r_program, probed_r_program};
ghost use Rattle.examples_simulation.specs.SimulationExamples.{inc_marks};
ghost use Rattle.examples_simulation.specs.CoverageExamples.{MeetsPremises, abs_case, abs_hits, abs_marks, abs_plan};
ghost use Rattle.examples_simulation.specs.CoverageExamples.{covered_in, div_case, div_marks, edges_reached, edges_taken};
ghost use Rattle.examples_simulation.specs.CoverageExamples.{hits_in, probed_div_program, r_case, r_marks, stopped_inc};

/// The premises can be met: a run plan of one case that returns. The branches that are covered are those that were taken.
pub fn worked_coverage()
    ensures premises { MeetsPremises abs_program probed_abs_program abs_plan (abs_hits ∷ []) }
    ensures taken { edges_taken abs_program probed_abs_program abs_marks abs_case
        ≡ edge 0 0 ∷ edge 1 0 ∷ edge 2 0 ∷ edge 3 0 ∷ edge 4 0 ∷ [] }
    ensures covered { covered_in abs abs_hits
        ≡ ((true ∷ []) ∷ (true ∷ false ∷ []) ∷ (true ∷ []) ∷ (true ∷ []) ∷ (true ∷ []) ∷ (false ∷ []) ∷ (false ∷ [])
        ∷ []) ∷ [] }
{}

/// Instructions before a throw aren't reported: two of them took their edges, the third raised, and no probe was hit.
pub fn worked_throw()
    ensures twin { TwinProgram div_program probed_div_program }
    ensures taken { edges_taken div_program probed_div_program div_marks div_case ≡ edge 0 0 ∷ edge 1 0 ∷ [] }
    ensures threw { (run probed_div_program div_case (turns_in div_case)).threads ≡ threw thrown.ArithmeticException ∷ [] }
    ensures hits { hits_in probed_div_program div_case ≡ [] }
    ensures covered { covered_in div [] ≡ ((false ∷ []) ∷ (false ∷ []) ∷ (false ∷ []) ∷ (false ∷ []) ∷ []) ∷ [] }
{}

/// A thread that is stopped behind the probe of its return hasn't returned, and the return is reported. One turn before, nothing
/// is.
pub fn worked_stop()
    ensures hits { hits_in probed_inc_program (stopped_inc 21) ≡ hit 0 0 ∷ [] }
    ensures taken { edges_taken inc_program probed_inc_program inc_marks (stopped_inc 21) ≡ edge 0 0 ∷ edge 1 0 ∷ edge 2 0 ∷ edge 3 0 ∷ [] }
    ensures reached { edges_reached inc_program probed_inc_program inc_marks (stopped_inc 21)
        ≡ edge 0 0 ∷ edge 1 0 ∷ edge 2 0 ∷ edge 3 0 ∷ edge 4 0 ∷ [] }
    ensures covered { covered_in inc (true ∷ [])
        ≡ ((true ∷ []) ∷ (true ∷ []) ∷ (true ∷ []) ∷ (true ∷ []) ∷ (true ∷ []) ∷ []) ∷ [] }
    ensures none { hits_in probed_inc_program (stopped_inc 20) ≡ [] }
{}

/// A call takes its edge when its method returns. Behind 19 turns the method is entered, and the call has taken none.
pub fn worked_call()
    ensures entered { edges_taken r_program probed_r_program r_marks (r_case 19) ≡ edge 0 0 ∷ edge 1 0 ∷ edge 2 0 ∷ edge 3 0 ∷ edge 4 0 ∷ [] }
    ensures returned { edges_taken r_program probed_r_program r_marks (r_case 60)
        ≡ edge 0 0 ∷ edge 1 0 ∷ edge 2 0 ∷ edge 3 0 ∷ edge 4 0 ∷ edge 0 0 ∷ edge 1 1 ∷ edge 6 0 ∷ edge 5 0 ∷ edge 6 0 ∷ [] }
    ensures hits { hits_in probed_r_program (r_case 60) ≡ hit 0 2 ∷ hit 0 1 ∷ hit 0 2 ∷ hit 0 0 ∷ [] }
{}
