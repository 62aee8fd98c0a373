//! Whole runs that were worked by hand.
ghost use Rattle.std.specs.Prelude.{◌≡◌, pos, negsuc, true, false, [], ◌∷◌, Some, None, codes};
ghost use Rattle.jc_programs.specs.declared.run_plan.Schedule.TheVariants as schedules;
ghost use Rattle.jc_programs.specs.Turns.{turns_of};
ghost use Rattle.jc_programs.specs.Entries.{entry_of};
ghost use Rattle.jc_machine_model.specs.Run.{case_hits};
ghost use Rattle.jc_machine_model.specs.Heap.{has_room};
ghost use Rattle.jc_machine_model.specs.CaseText.{case_texts};
ghost use Rattle.examples_machine.specs.ProgramExamples.{case, one_thread, hit, thread, abs_program, probed_abs_program, a_name};
ghost use Rattle.examples_machine.specs.ProgramExamples.{inc_program, probed_inc_program, inc_thread, r_program};
ghost use Rattle.examples_machine.specs.ProgramExamples.{probed_r_program, r_name, div_program, m_name, g_program, g_name};
ghost use Rattle.examples_machine.specs.ProgramExamples.{catches_program, probed_catches_program, probed_choice_program};
ghost use Rattle.examples_machine.specs.ProgramExamples.{probed_countdown_program, probed_either_way_program};

/// The absolute value of 5 is 5. The instrumented method hits the probe of the second return alone.
pub fn worked_absolute_value()
    ensures text { case_texts abs_program 1 (one_thread a_name (codes "abs") (pos 5 ∷ []) 100 ∷ [])
        ≡ codes "case 1\nthread 0 returned 5\n" }
    ensures probed_text { case_texts probed_abs_program 1 (one_thread a_name (codes "abs") (pos 5 ∷ []) 100 ∷ [])
        ≡ codes "case 1\nthread 0 returned 5\n" }
    ensures negative { case_texts probed_abs_program 1 (one_thread a_name (codes "abs") (negsuc 4 ∷ []) 40 ∷ [])
        ≡ codes "case 1\nthread 0 returned 5\n" }
    ensures hits { case_hits probed_abs_program (one_thread a_name (codes "abs") (pos 5 ∷ []) 100) ≡ hit 0 1 ∷ [] }
    ensures negative_hits { case_hits probed_abs_program (one_thread a_name (codes "abs") (negsuc 4 ∷ []) 40) ≡ hit 0 0 ∷ [] }
{}

/// The least int by -1 is the least int, and a division by zero throws.
pub fn worked_divisions()
    ensures least { case_texts div_program 1 (one_thread m_name (codes "div") (negsuc 2147483647 ∷ negsuc 0 ∷ []) 100 ∷ [])
        ≡ codes "case 1\nthread 0 returned -2147483648\n" }
    ensures by_zero { case_texts div_program 1 (one_thread m_name (codes "div") (pos 7 ∷ pos 0 ∷ []) 100 ∷ [])
        ≡ codes "case 1\nthread 0 threw java.lang.ArithmeticException\n" }
{}

/// Two threads that add 1 in turns lose one update.
pub fn worked_lost_update()
    ensures original { case_texts inc_program 1 (case (inc_thread ∷ inc_thread ∷ []) (schedules.Robin 10) ∷ [])
        ≡ codes "case 1\nthread 0 returned\nthread 1 returned\nstatic C.x 1\n" }
    ensures listed { case_texts inc_program 1 (case (inc_thread ∷ inc_thread ∷ [])
        (schedules.Listed (0 ∷ 1 ∷ 0 ∷ 1 ∷ 0 ∷ 1 ∷ 0 ∷ 1 ∷ 0 ∷ 1 ∷ [])) ∷ [])
        ≡ codes "case 1\nthread 0 returned\nthread 1 returned\nstatic C.x 1\n" }
    ensures in_order { case_texts inc_program 1 (case (inc_thread ∷ inc_thread ∷ [])
        (schedules.Listed (0 ∷ 0 ∷ 0 ∷ 0 ∷ 0 ∷ 1 ∷ 1 ∷ 1 ∷ 1 ∷ 1 ∷ [])) ∷ [])
        ≡ codes "case 1\nthread 0 returned\nthread 1 returned\nstatic C.x 2\n" }
    ensures probed { case_texts probed_inc_program 1 (case (inc_thread ∷ inc_thread ∷ []) (schedules.Robin 44) ∷ [])
        ≡ codes "case 1\nthread 0 returned\nthread 1 returned\nstatic C.x 1\n" }
{}

/// A thread that is stopped behind its probe has hit it, and one that is stopped a turn before has not.
pub fn worked_stopped_threads()
    ensures behind { case_texts probed_inc_program 1 (case (inc_thread ∷ []) (schedules.Robin 21) ∷ [])
        ≡ codes "case 1\nthread 0 running\nstatic C.x 1\n" }
    ensures behind_hits { case_hits probed_inc_program (case (inc_thread ∷ []) (schedules.Robin 21)) ≡ hit 0 0 ∷ [] }
    ensures before { case_texts probed_inc_program 1 (case (inc_thread ∷ []) (schedules.Robin 20) ∷ [])
        ≡ codes "case 1\nthread 0 running\nstatic C.x 1\n" }
    ensures before_hits { case_hits probed_inc_program (case (inc_thread ∷ []) (schedules.Robin 20)) ≡ [] }
    ensures ended { case_texts probed_inc_program 1 (case (inc_thread ∷ []) (schedules.Robin 22) ∷ [])
        ≡ codes "case 1\nthread 0 returned\nstatic C.x 1\n" }
{}

/// Calls within calls return. The instrumented method takes 21 turns a call and 18 for the last, and 7 more where it first
/// asks for the probe array.
pub fn worked_few_calls()
    ensures original { case_texts r_program 1 (one_thread r_name (codes "r") (pos 3 ∷ []) 24 ∷ [])
        ≡ codes "case 1\nthread 0 returned\n" }
    ensures not_yet { case_texts r_program 1 (one_thread r_name (codes "r") (pos 3 ∷ []) 23 ∷ [])
        ≡ codes "case 1\nthread 0 running\n" }
    ensures probed { case_texts probed_r_program 1 (one_thread r_name (codes "r") (pos 3 ∷ []) 88 ∷ [])
        ≡ codes "case 1\nthread 0 returned\n" }
    ensures probed_not_yet { case_texts probed_r_program 1 (one_thread r_name (codes "r") (pos 3 ∷ []) 87 ∷ [])
        ≡ codes "case 1\nthread 0 running\n" }
{}

/// A thread has at most 128 frames.
pub fn worked_many_calls()
    ensures fits { case_texts r_program 1 (one_thread r_name (codes "r") (pos 127 ∷ []) 892 ∷ [])
        ≡ codes "case 1\nthread 0 returned\n" }
    ensures overflows { case_texts r_program 1 (one_thread r_name (codes "r") (pos 128 ∷ []) 768 ∷ [])
        ≡ codes "case 1\nthread 0 threw java.lang.StackOverflowError\n" }
{}

/// A thread begins with a method that is there.
pub fn worked_entries()
    ensures there { entry_of abs_program (thread a_name (codes "abs") (pos 5 ∷ [])) ≡ Some (record { class = 0; method = 0 }) }
    ensures no_method { entry_of abs_program (thread a_name (codes "none") (pos 5 ∷ [])) ≡ None }
    ensures no_class { entry_of abs_program (thread (codes "B") (codes "abs") (pos 5 ∷ [])) ≡ None }
    ensures other_count { entry_of abs_program (thread a_name (codes "abs") []) ≡ None }
    ensures too_great { entry_of abs_program (thread a_name (codes "abs") (pos 2147483648 ∷ [])) ≡ None }
    ensures least { entry_of abs_program (thread a_name (codes "abs") (negsuc 2147483647 ∷ []))
        ≡ Some (record { class = 0; method = 0 }) }
    ensures init { entry_of probed_abs_program (thread a_name (codes "$jacocoInit") []) ≡ None }
{}

/// The turns of schedules.
pub fn worked_turns()
    ensures seeded { turns_of 2 (schedules.Seeded 0 1) ≡ 1 ∷ [] }
    ensures around { turns_of 3 (schedules.Robin 5) ≡ 0 ∷ 1 ∷ 2 ∷ 0 ∷ 1 ∷ [] }
    ensures listed { turns_of 3 (schedules.Listed (2 ∷ 2 ∷ 0 ∷ [])) ≡ 2 ∷ 2 ∷ 0 ∷ [] }
    ensures none { turns_of 3 (schedules.Robin 0) ≡ [] }
{}

/// An array has the length that was asked for, where it finds room.
pub fn worked_arrays()
    ensures small { case_texts g_program 1 (one_thread g_name (codes "f") (pos 3 ∷ []) 40 ∷ [])
        ≡ codes "case 1\nthread 0 returned 3\n" }
    ensures empty { case_texts g_program 1 (one_thread g_name (codes "f") (pos 0 ∷ []) 40 ∷ [])
        ≡ codes "case 1\nthread 0 returned 0\n" }
    ensures longest { has_room [] 1000000 ≡ true }
    ensures longer { has_room [] 1000001 ≡ false }
    ensures too_long { case_texts g_program 1 (one_thread g_name (codes "f") (pos 1000000 ∷ []) 40 ∷ [])
        ≡ codes "case 1\nthread 0 threw java.lang.OutOfMemoryError\n" }
    ensures negative { case_texts g_program 1 (one_thread g_name (codes "f") (negsuc 0 ∷ []) 40 ∷ [])
        ≡ codes "case 1\nthread 0 threw java.lang.NegativeArraySizeException\n" }
    ensures fresh { case_texts g_program 1 (one_thread g_name (codes "h") [] 100 ∷ one_thread g_name (codes "g") [] 100 ∷ [])
        ≡ codes "case 1\nthread 0 returned\ncase 2\nthread 0 returned 0\n" }
{}

/// A loop hits the probe of its goto each time that it goes round.
pub fn worked_countdown()
    ensures none { case_hits probed_countdown_program (one_thread a_name (codes "f") (pos 0 ∷ []) 100) ≡ hit 0 1 ∷ [] }
    ensures twice { case_hits probed_countdown_program (one_thread a_name (codes "f") (pos 2 ∷ []) 100)
        ≡ hit 0 1 ∷ hit 0 0 ∷ hit 0 0 ∷ [] }
{}

/// A jump to the next instruction hits its own probe or that of the sequence.
pub fn worked_either_way_probes()
    ensures jumps { case_hits probed_either_way_program (one_thread a_name (codes "f") (pos 0 ∷ []) 100)
        ≡ hit 0 2 ∷ hit 0 0 ∷ [] }
    ensures goes_on { case_hits probed_either_way_program (one_thread a_name (codes "f") (pos 1 ∷ []) 100)
        ≡ hit 0 2 ∷ hit 0 1 ∷ [] }
{}

/// A switch hits the probe of its key's target, which two keys share.
pub fn worked_choice()
    ensures second { case_hits probed_choice_program (one_thread a_name (codes "f") (pos 2 ∷ []) 100) ≡ hit 0 2 ∷ hit 0 1 ∷ [] }
    ensures text { case_texts probed_choice_program 1 (one_thread a_name (codes "f") (pos 2 ∷ []) 100 ∷ [])
        ≡ codes "case 1\nthread 0 returned 1\n" }
    ensures first { case_hits probed_choice_program (one_thread a_name (codes "f") (pos 1 ∷ []) 100) ≡ hit 0 2 ∷ hit 0 1 ∷ [] }
    ensures third { case_hits probed_choice_program (one_thread a_name (codes "f") (pos 3 ∷ []) 100) ≡ hit 0 3 ∷ [] }
    ensures jump { case_hits probed_choice_program (one_thread a_name (codes "f") (negsuc 0 ∷ []) 100) ≡ hit 0 2 ∷ hit 0 0 ∷ [] }
{}

/// A division by zero goes on at its handler: the probes before it and behind the handler are hit.
pub fn worked_catch()
    ensures original { case_texts catches_program 1 (one_thread a_name (codes "f") (pos 0 ∷ []) 100 ∷ [])
        ≡ codes "case 1\nthread 0 returned 0\n" }
    ensures probed { case_texts probed_catches_program 1 (one_thread a_name (codes "f") (pos 0 ∷ []) 100 ∷ [])
        ≡ codes "case 1\nthread 0 returned 0\n" }
    ensures hits { case_hits probed_catches_program (one_thread a_name (codes "f") (pos 0 ∷ []) 100) ≡ hit 0 2 ∷ hit 0 0 ∷ [] }
    ensures none_thrown { case_hits probed_catches_program (one_thread a_name (codes "f") (pos 1 ∷ []) 100)
        ≡ hit 0 1 ∷ hit 0 0 ∷ [] }
{}
