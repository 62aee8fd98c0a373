//! Laws of run plans.
ghost use Rattle.std.specs.Prelude.{◌≡◌, ◌⊎◌, ℕ, List};
ghost use Rattle.jc_programs.specs.Turns.{IsRunPlan};
ghost use Rattle.jc_programs.specs.declared.run_plan.RunPlan.{RunPlan};
ghost use Rattle.jc_run_plans.specs.Plans.{IsPlanText, FirstUnfit};

/// Each text is that of a run plan, or has a first line that doesn't fit, and never both. It is the text of one run plan,
/// and has one such line.
pub fn each_text_is_a_plan_or_has_a_first_unfit_line()
    ensures each { (text : List ℕ) → ((plan : RunPlan) × IsPlanText text plan) ⊎ ((line : ℕ) × FirstUnfit text line) }
    ensures apart { (text : List ℕ) (plan : RunPlan) (line : ℕ) → IsPlanText text plan → FirstUnfit text line → ⊥ }
    ensures one_plan { (text : List ℕ) (p q : RunPlan) → IsPlanText text p → IsPlanText text q → p ≡ q }
    ensures one_line { (text : List ℕ) (m n : ℕ) → FirstUnfit text m → FirstUnfit text n → m ≡ n }
{}

/// The run plan of a text has 1 to 256 cases, each with 1 to 8 threads and at most 1,000,000 turns of these.
pub fn each_plan_fits()
    ensures { (text : List ℕ) (plan : RunPlan) → IsPlanText text plan → IsRunPlan plan }
{}
