//! Laws of runs with locks.
ghost use Rattle.std.specs.Prelude.{◌≡◌, ℕ, List};
ghost use Rattle.jc_programs.specs.declared.program.Program.{Program};
ghost use Rattle.jc_programs.specs.declared.run_plan.Case.{Case};
ghost use Rattle.jc_programs.specs.declared.run_plan.RunPlan.{RunPlan};
ghost use Rattle.jc_machine_laws.specs.Frameless.{frameless};
ghost use Rattle.jc_monitor_model.specs.MonitorWorld.{MonitorWorld};
ghost use Rattle.jc_monitor_model.specs.MonitorStep.{monitor_step};
ghost use Rattle.jc_monitor_model.specs.MonitorRun.{monitor_run};
ghost use Rattle.jc_monitor_runs.specs.MonitorTexts.{monitor_texts, monitor_hits_of};

/// Programs that are equal but for the frames of their bodies and for the names of the classes in them run alike where threads take
/// locks: a turn gives the same world and the same locks, and so do any turns of a case from its beginning; the texts of cases and
/// the hits of a run plan are the same.
pub fn equal_programs_run_alike_with_locks()
    ensures turn { (p q : Program) (m : MonitorWorld) (t : ℕ) → frameless p ≡ frameless q → monitor_step p m t ≡ monitor_step q m t }
    ensures world { (p q : Program) (case : Case) (turns : List ℕ) → frameless p ≡ frameless q
        → monitor_run p case turns ≡ monitor_run q case turns }
    ensures text { (p q : Program) (k : ℕ) (cases : List Case) → frameless p ≡ frameless q → monitor_texts p k cases ≡ monitor_texts q k cases }
    ensures hits { (p q : Program) (plan : RunPlan) → frameless p ≡ frameless q → monitor_hits_of p plan ≡ monitor_hits_of q plan }
{}
