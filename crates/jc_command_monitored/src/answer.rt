//! What `run --monitors` writes of what it read.
ghost use Rattle.std.specs.Prelude.{◌<◌, ◌≤◌, ◌^◌, length};
ghost use Rattle.jc_bytes.specs.Reader.{most_read};
ghost use Rattle.jc_programs.specs.Turns.{IsRunPlan};
ghost use Rattle.jc_command_run.specs.HitStore.{FitRecords};
ghost use Rattle.jc_command_work.specs.Answered.{AnswersWith};
ghost use Rattle.jc_machine_model.specs.Programs.{IsProgram};
ghost use Rattle.jc_command_monitored.specs.MonitoredAnswers.{IsMonitoredAnswer, MonitoredFiles};

use crate::options::MonitoredOptions;
use crate::program::run_monitored;
use jc_bytes::Bytes;
use jc_command_run::{line_without_entry, planned_program, ran_writes};
use jc_command_work::{Fault, InputFiles, Stop, Write};
use jc_programs::{Program, RunPlan};
use jc_workers::Gate;
use std::alloc::Global;

/// The writes of a program and a run plan: the execution data, and the texts of the cases. It is refused where a thread has no
/// method to begin with.
fn monitored_writes<'a, G: Gate>(
    alloc: Global,
    gate: &G,
    options: &MonitoredOptions<'a>,
    program: &Program,
    plan: &RunPlan,
) -> Result<Vec<Write<'a>>, Stop<'a>>
    requires program { IsProgram program.now }
    requires fits { FitRecords program.now }
    requires plan { IsRunPlan plan.now }
    ensures { AnswersWith (IsMonitoredAnswer options.entry.now.plan.now options.entry.now.destfile.now plan.now program.now) result }
{
    if let Some(line) = line_without_entry(program, plan) {
        let fault = Fault::NoEntry { line };
        let file = options.plan;
        return Err(Stop::Refused { file, fault });
    }
    let ran = run_monitored(alloc, gate, program, plan)?;
    Ok(ran_writes(alloc, options.destfile, ran)?)
}

/// The writes of the text of a run plan and of class files. What is refused first is the run plan, then files that are no program,
/// and then a thread that has no method to begin with.
pub fn decided<'a, G: Gate>(
    alloc: Global,
    gate: &G,
    options: &MonitoredOptions<'a>,
    plan_text: &Bytes,
    inputs: &InputFiles<'a>,
) -> Result<Vec<Write<'a>>, Stop<'a>>
    requires few { length inputs.now.paths < 2 ^ 32 }
    requires plan { length plan_text.now ≤ most_read }
    ensures { AnswersWith (MonitoredFiles options.entry.now.plan.now options.entry.now.destfile.now inputs.entry.now.paths plan_text.now inputs.entry.now.texts) result }
{
    let planned = planned_program(alloc, options.plan, plan_text, inputs)?;
    monitored_writes(alloc, gate, options, &planned.program, &planned.plan)
}
