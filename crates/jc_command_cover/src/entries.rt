//! Threads without a method to begin with.
ghost use Rattle.std.specs.Prelude.{◌≡◌, None, OnOk};
ghost use Rattle.jc_machine_laws.specs.Frameless.{frameless};
ghost use Rattle.jc_command_run.specs.RunStore.{threads_of, first_without};
ghost use Rattle.jc_headline.specs.CoverWork.{HaveEntries, IsEntryEnd};
ghost use Rattle.jc_command_cover.specs.Deciding.{Decides};
ghost use Rattle.jc_command_work.specs.Seen.{stop_seen};
ghost use Rattle.jc_machine_model.specs.Programs.{IsProgram};

use jc_command_run::line_without_entry;
use jc_command_work::{Fault, Stop};
use jc_programs::{Program, RunPlan};

/// Refuses the first thread of a run plan that has no method to begin with, by its line in the file of the run plan.
pub fn check_entries<'a>(path: &'a str, program: &Program, plan: &RunPlan) -> Result<(), Stop<'a>>
    requires { IsProgram program.now }
    ensures entries { OnOk result (first_without program.now (threads_of plan.now) ≡ None) }
    ensures decides { Decides (HaveEntries (frameless program.now) plan.now) (IsEntryEnd path.entry.now (frameless program.now) plan.now) (λ _. tt) stop_seen result }
{
    match line_without_entry(program, plan) {
        None => Ok(()),
        Some(line) => {
            let fault = Fault::NoEntry { line };
            Err(Stop::Refused { file: path, fault })
        }
    }
}
