//! Laws of every run of the tool, over the definitions alone.
ghost use Rattle.std.specs.Prelude.{◌≡◌, ◌≢◌, ◌⊎◌, [], List};
ghost use Rattle.jc_command_work.specs.declared.status.Status.{Status};
ghost use Rattle.jc_command_work.specs.declared.status.Status.TheVariants as status;
ghost use Rattle.jc_command_work.specs.Step.{Word, Outside, Counts, Landed, Step};
ghost use Rattle.jc_command_work.specs.Part.{End, Outcome, status_of, stops};
ghost use Rattle.jc_command_work.specs.Ending.{NoneRose, Ends};
ghost use Rattle.jc_command_work.specs.OneWay.{IsTold, Work, IsWork, writes_of};
ghost use Rattle.jc_command_work.specs.Prefix.{LeavesFront};
ghost use Rattle.jc_command_work.specs.Causes.{Cause, WorkFailed};
ghost use Rattle.jc_command_words.specs.Commands.{NoForm};
ghost use Rattle.jc_headline.specs.Runs.{ToldRun, MakesItsWork};
ghost use Rattle.jc_top.specs.FirstWrite.{DecideFirst, HasWrittenAll, IsAsItWasOrBegun};
ghost use Rattle.jc_command_dumped.specs.DumpedAnswers.{Taken};
ghost use Rattle.jc_top.specs.Work.{any_work, AskNoDumps, the_work};

use jc_command_dumped::a_dumped_run_has_one_answer_by_its_dumps;
use jc_command_monitored::a_monitored_run_has_an_answer;
use jc_command_refs::refs_have_an_answer;
use jc_command_run::a_run_has_an_answer;
use jc_run_plans::each_text_is_a_plan_or_has_a_first_unfit_line;

/// Words and told contents have exactly one work by dumps: the steps that they ask for where these dumps are taken, and an end. It is
/// the work of the words where the dumps are ones that a run takes, and whatever they are where the words ask for none.
pub fn words_have_one_work()
    ensures some { (landed : Landed) (taken : Taken) (words : List Word) (w : Outside) → IsTold w
        → (work : Work) × IsWork landed (any_work taken words) w work }
    ensures one { (landed : Landed) (taken : Taken) (words : List Word) (w : Outside) (a b : Work) → IsTold w
        → IsWork landed (any_work taken words) w a → IsWork landed (any_work taken words) w b → a ≡ b }
    ensures dumps { (taken : Taken) (words : List Word) (steps : List Step) (o : Outcome ⊥) → the_work taken words steps o → any_work taken words steps o }
    ensures plain { (taken other : Taken) (words : List Word) (steps : List Step) (o : Outcome ⊥) → AskNoDumps words
        → any_work taken words steps o → the_work other words steps o }
{
    a_run_has_an_answer();
    a_monitored_run_has_an_answer();
    a_dumped_run_has_one_answer_by_its_dumps();
    refs_have_an_answer();
    each_text_is_a_plan_or_has_a_first_unfit_line();
}

/// Words that ask for no dumps have their work, and a run ends by it, whatever dumps are named: these matter to `run --dumps` alone.
pub fn words_without_dumps_have_their_work_whatever_is_taken()
    ensures work { (taken other : Taken) (words : List Word) (steps : List Step) (o : Outcome ⊥) → AskNoDumps words
        → the_work taken words steps o → the_work other words steps o }
    ensures ends { (landed : Landed) (taken other : Taken) (words : List Word) (old new : Outside) (f g : Counts) (s : Status) → AskNoDumps words
        → Ends landed (the_work taken words) old new f g s → Ends landed (the_work other words) old new f g s }
{}

/// Each status has its cause, which says too what stands then, and what `err` holds.
///
/// - `Done`: no count moved, and all steps were made.
/// - `Refused`: all steps were made, and the work ends so, with the message of the refusal.
/// - `Usage`: the same of words of no stated form.
/// - `ReadFault`: the path that the work wants next is missing or too large, as is told; or a read failed, and its count rose.
/// - `WriteFault`: a write failed, its count rose, and it was made in part.
/// - `Memory`: some first steps were made, or the call behind them failed too. Nothing is said.
/// - `Broken`: no count moved, all steps were made, and a rule doesn't hold.
pub fn each_status_has_its_cause()
    ensures { (landed : Landed) (taken : Taken) (words : List Word) (old new : Outside) (f g : Counts) (s : Status)
        → Ends landed (the_work taken words) old new f g s → Cause landed (the_work taken words) old new f g s }
{}

/// Where contents are told a run ends as its work does, or a call of the work failed, or memory was refused.
///
/// Where no count rose, it ends as the work does or for want of memory; and if memory wasn't refused either, all steps of the
/// work were made, and the message of its end was said.
pub fn each_run_ends_as_its_work()
    ensures ends { (landed : Landed) (taken : Taken) (words : List Word) (run : ToldRun landed (the_work taken words))
        → (run.ended ≡ status_of run.work.end)
        ⊎ (WorkFailed run.work run.old_counts run.new_counts ⊎ (run.ended ≡ status.Memory)) }
    ensures completes { (landed : Landed) (taken : Taken) (words : List Word) (run : ToldRun landed (the_work taken words))
        → NoneRose run.old_counts run.new_counts → (run.ended ≡ status_of run.work.end) ⊎ (run.ended ≡ status.Memory) }
    ensures makes { (landed : Landed) (taken : Taken) (words : List Word) (run : ToldRun landed (the_work taken words))
        → NoneRose run.old_counts run.new_counts → run.ended ≢ status.Memory → MakesItsWork run }
{
    a_run_has_an_answer();
    a_monitored_run_has_an_answer();
    a_dumped_run_has_one_answer_by_its_dumps();
    refs_have_an_answer();
    each_text_is_a_plan_or_has_a_first_unfit_line();
}

/// Whatever stops a run, it has made first writes of the one work of its words, the last of them perhaps in part: what stands was
/// made by them alone, and on `err` the message of the run comes behind them, as far as it was taken. It is the message of the end
/// of the work where all its writes were made, or names what the call behind them couldn't read or write. A run that is done, or
/// ends for want of memory, has none.
pub fn each_run_leaves_a_front_of_its_work()
    ensures { (landed : Landed) (taken : Taken) (words : List Word) (run : ToldRun landed (the_work taken words))
        → LeavesFront landed run.old run.work run.ended run.new }
{
    a_run_has_an_answer();
    a_monitored_run_has_an_answer();
    a_dumped_run_has_one_answer_by_its_dumps();
    refs_have_an_answer();
    each_text_is_a_plan_or_has_a_first_unfit_line();
}

/// Usage comes exactly where the words are of no stated form, but for want of memory.
pub fn usage_comes_for_words_of_no_form()
    ensures only { (landed : Landed) (taken : Taken) (words : List Word) (old new : Outside) (f g : Counts)
        → Ends landed (the_work taken words) old new f g status.Usage → NoForm words }
    ensures always { (landed : Landed) (taken : Taken) (words : List Word) (old new : Outside) (f g : Counts) (s : Status) → NoForm words
        → Ends landed (the_work taken words) old new f g s → (s ≡ status.Usage) ⊎ (s ≡ status.Memory) }
{}

/// A command other than `cover` that hasn't written all at its end has written nothing but the message: it refuses its inputs
/// before its first write. It has written all where it is done, or a rule doesn't hold.
pub fn a_command_but_cover_that_refuses_has_written_nothing()
    ensures { (taken : Taken) (words : List Word) (steps : List Step) (end : End) → DecideFirst words → the_work taken words steps (stops end)
        → HasWrittenAll end ⊎ (writes_of steps ≡ []) }
{}

/// Where a command other than `cover` ends for want of memory, files and texts are as they were, whichever read of them failed last,
/// or all inputs were read and what to write was decided: what stands then was made by first ones of these writes, the last of them perhaps in part.
pub fn want_of_memory_leaves_what_was_or_first_writes()
    ensures { (landed : Landed) (taken : Taken) (words : List Word) (old new : Outside) (f g : Counts) → DecideFirst words
        → Ends landed (the_work taken words) old new f g status.Memory → IsAsItWasOrBegun landed (the_work taken words) old new }
{}
