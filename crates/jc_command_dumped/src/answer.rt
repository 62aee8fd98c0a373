//! What `run --dumps` writes of what it read.
ghost use Rattle.std.specs.Prelude.{◌<◌, ◌≤◌, ◌^◌, length};
ghost use Rattle.jc_bytes.specs.Reader.{most_read};
ghost use Rattle.jc_programs.specs.Turns.{IsRunPlan};
ghost use Rattle.jc_command_run.specs.HitStore.{FitRecords};
ghost use Rattle.jc_command_work.specs.Answered.{AnswersWith};
ghost use Rattle.jc_machine_model.specs.Programs.{IsProgram};
ghost use Rattle.jc_command_dumped.specs.DumpedAnswers.{Taken, IsDumpedAnswer, DumpedFiles};
ghost use Rattle.jc_command_dumped.specs.OptionsSeen.{dumping_seen};

use crate::options::DumpOptions;
use crate::program::run_dumped;
use crate::writes::taken_writes;
use jc_bytes::Bytes;
use jc_command_run::{line_without_entry, planned_program};
use jc_command_work::{Fault, InputFiles, Resources, Stop, Write};
use jc_programs::{Program, RunPlan};
use jc_workers::Gate;
use std::marker::Sync;
use std::thread::Threads;

/// The writes of a program and a run plan: the dumps, the rest of the execution data, and the texts of the cases. It is refused where
/// a thread has no method to begin with.
fn dumped_writes<'a, R: Threads + Sync, G: Gate + Sync>(
    resources: &Resources<'_, '_, R, G>,
    options: &DumpOptions<'a>,
    program: &Program,
    plan: &RunPlan,
) -> Result<Vec<Write<'a>>, Stop<'a>>
    requires program { IsProgram program.now }
    requires fits { FitRecords program.now }
    requires plan { IsRunPlan plan.now }
    requires enough { 256 ≤ length options.now.dumps.now }
    requires every { (1 ≤ options.now.every) × (options.now.every ≤ 256) }
    requires workers { (1 ≤ options.now.workers) × (options.now.workers ≤ 16) }
    ensures { (taken : Taken) × AnswersWith (IsDumpedAnswer taken (dumping_seen options.entry.now) plan.now program.now) result }
{
    if let Some(line) = line_without_entry(program, plan) {
        let fault = Fault::NoEntry { line };
        let file = options.plan;
        return Err(Stop::Refused { file, fault });
    }
    let ran = run_dumped(resources, program, plan, options.every, options.workers)?;
    Ok(taken_writes(resources.alloc, program, options, ran)?)
}

/// The writes of the text of a run plan and of class files. What is refused first is the run plan, then files that are no program,
/// and then a thread that has no method to begin with.
pub fn decided<'a, R: Threads + Sync, G: Gate + Sync>(
    resources: &Resources<'_, '_, R, G>,
    options: &DumpOptions<'a>,
    plan_text: &Bytes,
    inputs: &InputFiles<'a>,
) -> Result<Vec<Write<'a>>, Stop<'a>>
    requires few { length inputs.now.paths < 2 ^ 32 }
    requires enough { 256 ≤ length options.now.dumps.now }
    requires every { (1 ≤ options.now.every) × (options.now.every ≤ 256) }
    requires workers { (1 ≤ options.now.workers) × (options.now.workers ≤ 16) }
    requires plan { length plan_text.now ≤ most_read }
    ensures { (taken : Taken) × AnswersWith (DumpedFiles taken (dumping_seen options.entry.now) inputs.entry.now.paths plan_text.now inputs.entry.now.texts) result }
{
    let planned = planned_program(resources.alloc, options.plan, plan_text, inputs)?;
    dumped_writes(resources, options, &planned.program, &planned.plan)
}
