//! Laws of turns with locks.
ghost use Rattle.std.specs.Prelude.{◌≡◌, ℕ};
ghost use Rattle.jc_programs.specs.declared.program.Program.{Program};
ghost use Rattle.jc_monitor_model.specs.MonitorWorld.{MonitorWorld};
ghost use Rattle.jc_monitor_model.specs.MonitorTurns.{idle, turn_of};
ghost use Rattle.jc_monitor_model.specs.MonitorStep.{monitor_step};

/// A turn of a thread that has ended, is stuck, or waits for a lock leaves the world and the locks.
pub fn idle_turns_change_nothing()
    ensures { (program : Program) (m : MonitorWorld) (t : ℕ) → turn_of program m t ≡ idle → monitor_step program m t ≡ m }
{}
