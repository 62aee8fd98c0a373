//! What turns keep.
ghost use Rattle.jc_machine_laws.specs.Laws.{EffectFits, RoomFits, RunFits, StepFits, StepHits};
ghost use Rattle.std.specs.Prelude.{◌≡◌, ℕ, List, Some};
ghost use Rattle.jc_programs.specs.declared.program.Program.{Program};
ghost use Rattle.jc_programs.specs.declared.run_plan.Case.{Case};
ghost use Rattle.jc_programs.specs.declared.run_plan.RunPlan.{RunPlan};
ghost use Rattle.jc_programs.specs.declared.run_plan.ThreadLine.{ThreadLine};
ghost use Rattle.jc_programs.specs.declared.run_end.Entry.{Entry};
ghost use Rattle.jc_programs.specs.declared.run_end.Thrown.{Thrown};
ghost use Rattle.jc_programs.specs.Entries.{entry_of};
ghost use Rattle.jc_machine_model.specs.CaseText.{case_texts};
ghost use Rattle.jc_machine_model.specs.Run.{run, hits_of};
ghost use Rattle.jc_machine_model.specs.Programs.{IsProgram};
ghost use Rattle.jc_machine_model.specs.World.{World};
ghost use Rattle.jc_machine_model.specs.Fits.{FitsWorld};
ghost use Rattle.jc_machine_model.specs.Locked.{turn_by, MonitorInsn, monitor_at, dropping, raising, callee, calling};
ghost use Rattle.jc_machine_laws.specs.Frameless.{frameless};

/// What an opcode that reads and writes the stack alone leaves there is of the types that the kind check gives it.
pub fn effects_keep_types()
    ensures { EffectFits }
{}

/// Each turn of a world that fits its program gives a world that fits.
pub fn each_turn_keeps_a_world_fitting()
    ensures { StepFits }
{}

/// What a turn hits is a probe of a class of the program.
pub fn each_hit_is_of_a_probe()
    ensures { StepHits }
{}

/// Each world of a run of a case whose threads have entries fits the program.
pub fn each_world_of_a_run_fits()
    ensures { RunFits }
{}

/// A frame of a world that fits has no more values on its stack than its method's stack has slots.
pub fn each_stack_has_room()
    ensures { RoomFits }
{}

/// A turn in which a throwable is raised, the operand of a monitor instruction is dropped, or a synchronized method is called keeps a
/// world fitting.
pub fn turns_of_monitors_keep_a_world_fitting()
    ensures raise { (program : Program) (w : World) (t : ℕ) (c : Thrown) → IsProgram program → FitsWorld program w
        → FitsWorld program (turn_by program (raising c) w t) }
    ensures drop { (program : Program) (w : World) (t : ℕ) (insn : MonitorInsn) → IsProgram program → FitsWorld program w
        → monitor_at program w t ≡ Some insn → FitsWorld program (turn_by program dropping w t) }
    ensures call { (program : Program) (w : World) (t : ℕ) (method : Entry) → IsProgram program → FitsWorld program w
        → callee program w t ≡ Some method → FitsWorld program (turn_by program (calling program) w t) }
{}

/// Programs that are equal but for the frames of their bodies and for the names of the classes in them have the same entries,
/// and each case runs alike: the world after any turns is the same, and so are the texts of cases and the hits of a run plan.
pub fn equal_programs_run_alike()
    ensures entry { (p q : Program) (thread : ThreadLine) → frameless p ≡ frameless q → entry_of p thread ≡ entry_of q thread }
    ensures world { (p q : Program) (case : Case) (turns : List ℕ) → frameless p ≡ frameless q → run p case turns ≡ run q case turns }
    ensures text { (p q : Program) (k : ℕ) (cases : List Case) → frameless p ≡ frameless q → case_texts p k cases ≡ case_texts q k cases }
    ensures hits { (p q : Program) (plan : RunPlan) → frameless p ≡ frameless q → hits_of p plan ≡ hits_of q plan }
{}
