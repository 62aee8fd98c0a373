//! A law of the work of `run`.
ghost use Rattle.std.specs.Prelude.{◌≡◌, ℕ, List, ◌∷◌};
ghost use Rattle.jc_command_work.specs.Step.{Word};
ghost use Rattle.jc_command_work.specs.Answered.{Answer, HasOneAnswer};
ghost use Rattle.jc_command_run.specs.RunAnswers.{RunAnswers};

use jc_run_plans::each_text_is_a_plan_or_has_a_first_unfit_line;

/// Of a run plan's text and class files there is one answer at most: one end, or the same execution data and the same text,
/// whatever numbers the classes in the frames are given when the files are linked.
pub fn a_run_has_one_answer()
    ensures { (plan exec : Word) (paths : List Word) (texts : List (List ℕ)) (a b : Answer)
        → RunAnswers plan exec paths texts a → RunAnswers plan exec paths texts b → a ≡ b }
{
    each_text_is_a_plan_or_has_a_first_unfit_line();
}

/// Of the text of a run plan, whatever it is, and what may be read of class files there is exactly one answer of `run`: an end, or
/// what it writes.
pub fn a_run_has_an_answer()
    ensures { (plan exec : Word) (paths : List Word) (text : List ℕ) → HasOneAnswer paths (λ read. RunAnswers plan exec paths (text ∷ read)) }
{
    each_text_is_a_plan_or_has_a_first_unfit_line();
}
