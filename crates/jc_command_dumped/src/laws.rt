//! Laws of the work of `run --dumps`.
ghost use Rattle.std.specs.Prelude.{ℕ, ◌≤◌, List, ◌∷◌};
ghost use Rattle.jc_programs.specs.declared.program.Program.{Program};
ghost use Rattle.jc_programs.specs.declared.run_plan.RunPlan.{RunPlan};
ghost use Rattle.jc_machine_model.specs.Programs.{IsProgram};
ghost use Rattle.jc_workers.specs.Cases.{HaveEntries};
ghost use Rattle.jc_command_work.specs.Step.{Word};
ghost use Rattle.jc_command_work.specs.Answered.{Answer, HasOneAnswer};
ghost use Rattle.jc_command_dumped.specs.DumpedAnswers.{AnswersBy, DumpedAnswers, Dumping, IsTaken, Taken};

use jc_run_plans::each_text_is_a_plan_or_has_a_first_unfit_line;

/// Of the text of a run plan, whatever it is, what may be read of class files, and these dumps and this rest there is exactly one
/// answer of `run --dumps`: an end, or what it writes, whatever numbers the classes in the frames are given when the files are
/// linked.
pub fn a_dumped_run_has_one_answer_by_its_dumps()
    ensures one { (taken : Taken) (d : Dumping) (paths : List Word) (text : List ℕ) → HasOneAnswer paths (λ read. AnswersBy taken d paths (text ∷ read)) }
    ensures by_them { (taken : Taken) (d : Dumping) (paths : List Word) (texts : List (List ℕ)) (answer : Answer)
        → DumpedAnswers taken d paths texts answer → AnswersBy taken d paths texts answer }
{
    each_text_is_a_plan_or_has_a_first_unfit_line();
}

/// There are dumps and a rest of each run plan of a program each of whose threads has a method to begin with, whatever the number of
/// workers is: each dump has the hits of the cases since the one in front of it.
pub fn each_run_plan_has_dumps()
    ensures { (program : Program) (plan : RunPlan) (every workers : ℕ) → IsProgram program → HaveEntries program plan → 1 ≤ every
        → (taken : Taken) × IsTaken program plan every workers taken }
{}
