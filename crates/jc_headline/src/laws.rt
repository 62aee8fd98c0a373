//! Laws of the work of `cover`.
ghost use Rattle.std.specs.Prelude.{◌≡◌, ◌≢◌, ℕ, List};
ghost use Rattle.jc_command_work.specs.Step.{Outside, Counts, Landed};
ghost use Rattle.jc_command_work.specs.Ending.{Ends, NoneRose};
ghost use Rattle.jc_command_work.specs.Prefix.{LeavesFront};
ghost use Rattle.jc_command_work.specs.Causes.{HasOwnEnds};
ghost use Rattle.jc_command_work.specs.OneWay.{IsTold, Work, IsWork};
ghost use Rattle.jc_command_work.specs.declared.status.Status.TheVariants as status;
ghost use Rattle.jc_headline.specs.CoverWork.{Cover, cover_work};
ghost use Rattle.jc_headline.specs.CoverRun.{CoverRun};
ghost use Rattle.jc_headline.specs.Headline.{HeadlineOf};
ghost use Rattle.jc_headline.specs.Runs.{ToldRun, MakesItsWork};
ghost use Rattle.std.specs.List.{AllByRecursion};
ghost use Rattle.jc_link_programs.specs.declared.link_refusal.LinkRefusal.{LinkRefusal};
ghost use Rattle.jc_link_laws.specs.SecondLinking.{IsSecondRefusal};
ghost use Rattle.jc_headline.specs.FewSlots.{DifferInId, UsesFewSlots};
ghost use Rattle.jc_headline.specs.FitCover.{DoneCoversFit, FitCoversAreDone, FitCoversHaveWork};

use jc_run_plans::each_text_is_a_plan_or_has_a_first_unfit_line;

/// What is asked of `cover` and told contents have exactly one work: its steps, and an end.
pub fn cover_has_one_work()
    ensures some { (landed : Landed) (c : Cover) (w : Outside) → IsTold w → (work : Work) × IsWork landed (cover_work c) w work }
    ensures one { (landed : Landed) (c : Cover) (w : Outside) (a b : Work) → IsTold w → IsWork landed (cover_work c) w a
        → IsWork landed (cover_work c) w b → a ≡ b }
{
    each_text_is_a_plan_or_has_a_first_unfit_line();
}

/// Where contents are told, no count rose and memory wasn't refused, all steps of the work were made, and the message of its end
/// was said [`makes`]. Else what stands is what first writes of the work leave, the last of them perhaps in part, and behind them
/// on `err` the last message, as far as it was taken [`leaves`].
pub fn each_cover_ends_as_its_work()
    ensures makes { (landed : Landed) (c : Cover) (run : ToldRun landed (cover_work c)) → NoneRose run.old_counts run.new_counts
        → run.ended ≢ status.Memory → MakesItsWork run }
    ensures leaves { (landed : Landed) (c : Cover) (run : ToldRun landed (cover_work c))
        → LeavesFront landed run.old run.work run.ended run.new }
{
    each_text_is_a_plan_or_has_a_first_unfit_line();
}

/// By itself `cover` is done, refuses an input, or can't read a file. Else a call failed, or memory was refused.
pub fn cover_ends_by_itself()
    ensures { (c : Cover) → HasOwnEnds (cover_work c) }
{}

/// A run of `cover` that is done read, made and wrote what a `CoverRun` says: text and execution data are those of the program
/// that is linked from the very bytes that were read back, whatever a path holds after a write.
pub fn what_was_read_back_runs()
    ensures { (landed : Landed) (c : Cover) (old new : Outside) (f f' : Counts) → Ends landed (cover_work c) old new f f' status.Done
        → CoverRun landed c old new }
{}

/// The headline. Of accepted classes each case of the instrumented files prints and leaves what the originals give under its
/// schedule without probe turns. The written data is the union of the probes passed. Every instruction and branch that is reported
/// was executed, or is, instructions alone, next in a stopped thread, and exactly what was executed is reported where every thread
/// returned and nothing was thrown. Every refused class is copied unchanged, and its reason is printed.
///
/// It is said of each run of `cover` that is done, where contents are told, a file reads back as it was written, and paths are named
/// as words name them that call `cover`. The run is one of all class files that the words name, as they stood.
pub fn instrumented_classes_do_what_their_originals_do()
    ensures { (landed : Landed) → ((path bytes : List ℕ) → landed path bytes ≡ bytes) → HeadlineOf landed }
{}

/// Where files read back as they were written, the work of a cover that fits ends as done [`work`]. So each run of it in which no
/// count rose, and memory wasn't refused, is done, and the headline holds of it, where paths are named as words name them that call
/// `cover` [`ends`]: see [`crate::laws::instrumented_classes_do_what_their_originals_do`].
pub fn each_fit_cover_is_done()
    ensures work { (landed : Landed) → ((path bytes : List ℕ) → landed path bytes ≡ bytes) → FitCoversHaveWork landed }
    ensures ends { (landed : Landed) → ((path bytes : List ℕ) → landed path bytes ≡ bytes) → FitCoversAreDone landed }
{
    each_cover_ends_as_its_work();
}

/// And nothing less is enough: where contents are told, each run of `cover` that is done is of one that fits.
pub fn each_done_cover_is_fit()
    ensures { (landed : Landed) → ((path bytes : List ℕ) → landed path bytes ≡ bytes) → DoneCoversFit landed }
{}

/// Of the originals alone it is enough for a second linking that each method has at most 508 slots for local variables and on the
/// stack, and that no two changed classes have one id: neither of the two reasons then refuses what is written of them.
pub fn few_slots_and_other_ids_are_enough()
    ensures { (originals written : List (List ℕ)) (r : LinkRefusal) → AllByRecursion UsesFewSlots originals → DifferInId originals
        → IsSecondRefusal originals written r → ⊥ }
{}
