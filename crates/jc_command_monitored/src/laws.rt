//! A law of the work of `run --monitors`.
ghost use Rattle.std.specs.Prelude.{ℕ, List, ◌∷◌};
ghost use Rattle.jc_command_work.specs.Step.{Word};
ghost use Rattle.jc_command_work.specs.Answered.{HasOneAnswer};
ghost use Rattle.jc_command_monitored.specs.MonitoredAnswers.{MonitoredAnswers};

use jc_run_plans::each_text_is_a_plan_or_has_a_first_unfit_line;

/// Of the text of a run plan, whatever it is, and what may be read of class files there is exactly one answer of `run --monitors`: an
/// end, or what it writes, whatever numbers the classes in the frames are given when the files are linked.
pub fn a_monitored_run_has_an_answer()
    ensures { (plan exec : Word) (paths : List Word) (text : List ℕ) → HasOneAnswer paths (λ read. MonitoredAnswers plan exec paths (text ∷ read)) }
{
    each_text_is_a_plan_or_has_a_first_unfit_line();
}
