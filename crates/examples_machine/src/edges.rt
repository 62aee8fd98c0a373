//! The edges that turns take in runs that were worked by hand.
ghost use Rattle.std.specs.Prelude.{◌≡◌, pos, [], ◌∷◌, codes};
ghost use Rattle.jc_programs.specs.declared.run_plan.Schedule.TheVariants as schedules;
ghost use Rattle.examples_machine.specs.ProgramExamples.{one_thread, case, inc_program, inc_thread, r_program, r_name};
ghost use Rattle.examples_machine.specs.ProgramExamples.{div_program, m_name};
ghost use Rattle.examples_machine.specs.EdgeExamples.{edge, edges_taken, edges_reached, countdown_program, either_way_program};
ghost use Rattle.examples_machine.specs.EdgeExamples.{choice_program, throwing_program};

/// A loop that runs once.
pub fn worked_loop()
    ensures taken { edges_taken countdown_program (one_thread (codes "A") (codes "f") (pos 1 ∷ []) 100)
        ≡ edge 0 0 ∷ edge 1 0 ∷ edge 2 0 ∷ edge 3 1 ∷ edge 0 0 ∷ edge 1 1 ∷ edge 4 0 ∷ [] }
    ensures stopped { edges_reached countdown_program (one_thread (codes "A") (codes "f") (pos 1 ∷ []) 3)
        ≡ edge 0 0 ∷ edge 1 0 ∷ edge 2 0 ∷ edge 3 1 ∷ [] }
{}

/// A jump to the next instruction takes the branch that its condition chooses.
pub fn worked_either_way()
    ensures jumps { edges_taken either_way_program (one_thread (codes "A") (codes "f") (pos 0 ∷ []) 9)
        ≡ edge 0 0 ∷ edge 1 1 ∷ edge 2 0 ∷ [] }
    ensures goes_on { edges_taken either_way_program (one_thread (codes "A") (codes "f") (pos 1 ∷ []) 9)
        ≡ edge 0 0 ∷ edge 1 0 ∷ edge 2 0 ∷ [] }
{}

/// A switch takes the branch of its key's target: the default's is 0, and an arm to it is no branch of its own.
pub fn worked_switch()
    ensures arm { edges_taken choice_program (one_thread (codes "A") (codes "f") (pos 2 ∷ []) 9)
        ≡ edge 0 0 ∷ edge 1 0 ∷ edge 2 0 ∷ edge 3 1 ∷ edge 4 0 ∷ edge 5 0 ∷ [] }
    ensures to_default { edges_taken choice_program (one_thread (codes "A") (codes "f") (pos 3 ∷ []) 9)
        ≡ edge 0 0 ∷ edge 1 0 ∷ edge 2 0 ∷ edge 3 0 ∷ edge 6 0 ∷ edge 7 0 ∷ [] }
{}

/// A call takes its edge when its method returns, and a division that raises takes none.
pub fn worked_calls_and_throws()
    ensures returned { edges_taken r_program (one_thread r_name (codes "r") (pos 1 ∷ []) 99)
        ≡ edge 0 0 ∷ edge 1 0 ∷ edge 2 0 ∷ edge 3 0 ∷ edge 4 0 ∷ edge 0 0 ∷ edge 1 1 ∷ edge 6 0 ∷ edge 5 0 ∷ edge 6 0 ∷ [] }
    ensures within { edges_taken r_program (one_thread r_name (codes "r") (pos 1 ∷ []) 6)
        ≡ edge 0 0 ∷ edge 1 0 ∷ edge 2 0 ∷ edge 3 0 ∷ edge 4 0 ∷ [] }
    ensures raised { edges_taken div_program (one_thread m_name (codes "div") (pos 1 ∷ pos 0 ∷ []) 9) ≡ edge 0 0 ∷ edge 1 0 ∷ [] }
    ensures thrown { edges_taken throwing_program (one_thread (codes "A") (codes "f") [] 9) ≡ edge 0 0 ∷ edge 1 0 ∷ [] }
{}

/// A thread that stands at a return has reached it.
pub fn worked_stands()
    ensures at_return { edges_reached inc_program (case (inc_thread ∷ []) (schedules.Robin 4))
        ≡ edge 0 0 ∷ edge 1 0 ∷ edge 2 0 ∷ edge 3 0 ∷ edge 4 0 ∷ [] }
    ensures before_return { edges_reached inc_program (case (inc_thread ∷ []) (schedules.Robin 3))
        ≡ edge 0 0 ∷ edge 1 0 ∷ edge 2 0 ∷ [] }
{}
