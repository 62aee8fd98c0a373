//! Laws of the work of a sample.
ghost use Rattle.std.specs.Prelude.{◌≡◌, ◌≢◌, ◌≤◌, ℕ, List, []};
ghost use Rattle.jc_command_work.specs.Step.{Outside, Landed, Step};
ghost use Rattle.jc_command_work.specs.Part.{End, done, stops};
ghost use Rattle.jc_command_work.specs.Causes.{HasOwnEnds};
ghost use Rattle.jc_command_work.specs.OneWay.{IsTold, Work, IsWork};
ghost use Rattle.jc_command_sample.specs.SampleWork.{sample_work};

/// A sample with 1 to 1,000 methods has exactly one work where contents are told.
pub fn each_sample_has_one_work()
    ensures some { (landed : Landed) (n : ℕ) (w : Outside) → n ≤ 1000 → IsTold w → (work : Work) × IsWork landed (sample_work n) w work }
    ensures one { (landed : Landed) (n : ℕ) (w : Outside) (a b : Work) → n ≤ 1000 → IsTold w → IsWork landed (sample_work n) w a
        → IsWork landed (sample_work n) w b → a ≡ b }
{}

/// By itself a sample is done, or its class, its run plan or its execution data is refused. Else a call failed, or memory was
/// refused.
pub fn each_sample_ends_by_itself()
    ensures { (n : ℕ) → HasOwnEnds (sample_work n) }
{}

/// A sample that ends otherwise than done has made no step: it has written nothing.
pub fn a_sample_that_is_not_done_wrote_nothing()
    ensures { (n : ℕ) (steps : List Step) (end : End) → sample_work n steps (stops end) → end ≢ done → steps ≡ [] }
{}
