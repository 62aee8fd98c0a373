//! Laws of the work of `lines` and of `check`.
ghost use Rattle.std.specs.Prelude.{ℕ, List, ◌++◌, Option, option_to_list};
ghost use Rattle.jc_rules.specs.declared.rule.Rule.{Rule};
ghost use Rattle.jc_command_work.specs.Part.{End, stops};
ghost use Rattle.jc_command_work.specs.Step.{Word};
ghost use Rattle.jc_command_work.specs.Answered.{HasOneAnswer};
ghost use Rattle.jc_command_work.specs.Causes.{IsRefusal};
ghost use Rattle.jc_command_rules.specs.LinesAnswers.{LinesAnswers};
ghost use Rattle.jc_command_rules.specs.CheckAnswers.{CheckAnswers};

/// Of what may be read of execution data and of class files there is exactly one answer of `lines`, and where it ends the
/// command, it refuses an input.
pub fn lines_have_an_answer()
    ensures one { (exec : Option Word) (paths : List Word) → HasOneAnswer (option_to_list exec ++ paths) (LinesAnswers exec paths) }
    ensures refuses { (exec : Option Word) (paths : List Word) (texts : List (List ℕ)) (end : End) → LinesAnswers exec paths texts (stops end)
        → IsRefusal end }
{}

/// So is there of `check`, by any rules.
pub fn checks_have_an_answer()
    ensures one { (rules : List Rule) (exec : Option Word) (paths : List Word)
        → HasOneAnswer (option_to_list exec ++ paths) (CheckAnswers rules exec paths) }
    ensures refuses { (rules : List Rule) (exec : Option Word) (paths : List Word) (texts : List (List ℕ)) (end : End)
        → CheckAnswers rules exec paths texts (stops end) → IsRefusal end }
{}
