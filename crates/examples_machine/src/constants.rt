//! Runs of classes that get their arrays of probes by a constant, worked by hand.
ghost use Rattle.std.specs.Prelude.{◌≡◌, pos, negsuc, [], ◌∷◌, ◌++◌, codes, replicate};
ghost use Rattle.jc_methods.specs.declared.insn.Insn.TheVariants as insns;
ghost use Rattle.jc_methods.specs.Opcode as opcode;
ghost use Rattle.jc_programs.specs.declared.run_plan.Schedule.TheVariants as schedules;
ghost use Rattle.jc_kinds.specs.Checking.{verdict_of, passes};
ghost use Rattle.jc_machine_model.specs.Run.{case_hits};
ghost use Rattle.jc_machine_model.specs.CaseText.{case_texts};
ghost use Rattle.examples_machine.specs.ProgramExamples.{case, one_thread, hit, inc_thread, a_name};
ghost use Rattle.examples_machine.specs.ConstantExamples.{constant_abs, bootstrap_method, constant_abs_program, other_bootstrap_program, no_bootstrap_program};
ghost use Rattle.examples_machine.specs.ConstantExamples.{constant_inc_program, both_ways_program, d_name, init_called_program};
ghost use Rattle.examples_machine.specs.ConstantExamples.{cast_null_program, cast_later_program, fetch_later_program, cast_by_jump_program};

/// The absolute value of 5 is 5. The prelude takes three turns, and the probe is hit in the fourth of its own.
pub fn worked_constant()
    ensures text { case_texts constant_abs_program 1 (one_thread a_name (codes "abs") (pos 5 ∷ []) 11 ∷ [])
        ≡ codes "case 1\nthread 0 returned 5\n" }
    ensures running { case_texts constant_abs_program 1 (one_thread a_name (codes "abs") (pos 5 ∷ []) 10 ∷ [])
        ≡ codes "case 1\nthread 0 running\n" }
    ensures hits { case_hits constant_abs_program (one_thread a_name (codes "abs") (pos 5 ∷ []) 10) ≡ hit 0 1 ∷ [] }
    ensures not_yet { case_hits constant_abs_program (one_thread a_name (codes "abs") (pos 5 ∷ []) 9) ≡ [] }
    ensures negative { case_hits constant_abs_program (one_thread a_name (codes "abs") (negsuc 4 ∷ []) 12) ≡ hit 0 0 ∷ [] }
{}

/// The kind check takes a method with the prelude, and the method that gives the constant.
pub fn worked_constant_checks()
    ensures method { verdict_of (codes "[Z" ∷ []) constant_abs ≡ passes }
    ensures bootstrap { verdict_of (codes "[Z" ∷ []) (bootstrap_method a_name (pos 7) 2) ≡ passes }
{}

/// The constant is that of the class's own bootstrap method, which the class declares.
pub fn worked_bootstraps()
    ensures other { case_texts other_bootstrap_program 1 (one_thread a_name (codes "abs") (pos 5 ∷ []) 100 ∷ [])
        ≡ codes "case 1\nthread 0 stuck\n" }
    ensures none { case_texts no_bootstrap_program 1 (one_thread a_name (codes "abs") (pos 5 ∷ []) 100 ∷ [])
        ≡ codes "case 1\nthread 0 stuck\n" }
{}

/// Two threads that add 1 in turns both have the array and lose one update, and none one after the other.
pub fn worked_constant_threads()
    ensures in_turns { case_texts constant_inc_program 1 (case (inc_thread ∷ inc_thread ∷ []) (schedules.Robin 24) ∷ [])
        ≡ codes "case 1\nthread 0 returned\nthread 1 returned\nstatic C.x 1\n" }
    ensures in_order { case_texts constant_inc_program 1 (case (inc_thread ∷ inc_thread ∷ [])
        (schedules.Listed (replicate 12 0 ++ replicate 12 1)) ∷ [])
        ≡ codes "case 1\nthread 0 returned\nthread 1 returned\nstatic C.x 2\n" }
    ensures hits { case_hits constant_inc_program (case (inc_thread ∷ inc_thread ∷ []) (schedules.Robin 24)) ≡ hit 0 0 ∷ hit 0 0 ∷ [] }
{}

/// A class by constant and one with its method call one another. Each method takes the array of its own class.
pub fn worked_both_ways()
    ensures text { case_texts both_ways_program 1 (one_thread d_name (codes "d") [] 37 ∷ [])
        ≡ codes "case 1\nthread 0 returned 3\n" }
    ensures running { case_texts both_ways_program 1 (one_thread d_name (codes "d") [] 36 ∷ [])
        ≡ codes "case 1\nthread 0 running\n" }
    ensures hits { case_hits both_ways_program (one_thread d_name (codes "d") [] 37) ≡ hit 0 0 ∷ hit 1 0 ∷ hit 0 1 ∷ [] }
{}

/// The array passes instruction 1 behind the fetch and no other `checkcast`, also where a jump leads there, and null doesn't.
pub fn worked_casts()
    ensures null { case_texts cast_null_program 1 (one_thread a_name (codes "f") [] 100 ∷ []) ≡ codes "case 1\nthread 0 stuck\n" }
    ensures later { case_texts cast_later_program 1 (one_thread a_name (codes "f") [] 100 ∷ []) ≡ codes "case 1\nthread 0 stuck\n" }
    ensures jump { case_texts (cast_by_jump_program (insns.Local opcode.aload 0)) 1 (one_thread a_name (codes "f") [] 100 ∷ [])
        ≡ codes "case 1\nthread 0 running\n" }
    ensures null_jump { case_texts (cast_by_jump_program (insns.Simple opcode.aconst_null)) 1 (one_thread a_name (codes "f") [] 6 ∷ [])
        ≡ codes "case 1\nthread 0 stuck\n" }
    ensures null_jumps { case_texts (cast_by_jump_program (insns.Simple opcode.aconst_null)) 1 (one_thread a_name (codes "f") [] 5 ∷ [])
        ≡ codes "case 1\nthread 0 running\n" }
{}

/// The constant is in the profile as instruction 0 alone, and a class by constant calls no `$jacocoInit`.
pub fn worked_fetches()
    ensures later { case_texts fetch_later_program 1 (one_thread a_name (codes "f") [] 100 ∷ []) ≡ codes "case 1\nthread 0 stuck\n" }
    ensures called { case_texts init_called_program 1 (one_thread a_name (codes "f") [] 100 ∷ []) ≡ codes "case 1\nthread 0 stuck\n" }
{}
