//! What `run` writes of what it read.
ghost use Rattle.std.specs.Prelude.{◌≡◌, ◌<◌, ◌≤◌, ◌^◌, [], ◌∷◌, length, IfOk};
ghost use Rattle.jc_bytes.specs.Reader.{most_read};
ghost use Rattle.jc_programs.specs.Turns.{IsRunPlan};
ghost use Rattle.jc_command_run.specs.HitStore.{FitRecords};
ghost use Rattle.jc_command_run.specs.RunAnswers.{IsRunAnswer, RunsFiles};
ghost use Rattle.jc_command_work.specs.Answered.{AnswersWith, writes_seen};
ghost use Rattle.jc_command_work.specs.Step.{to_file, to_out};
ghost use Rattle.jc_exec.specs.Writing.{exec_text};
ghost use Rattle.jc_machine_model.specs.Programs.{IsProgram};

use crate::beginnings::line_without_entry;
use crate::options::RunOptions;
use crate::planning::planned_program;
use crate::program::{Ran, run_program};
use jc_bytes::{Bytes, Memory};
use jc_command_work::{Fault, InputFiles, Resources, Stop, Write};
use jc_programs::{Program, RunPlan};
use jc_workers::Gate;
use std::alloc::Global;
use std::marker::Sync;
use std::thread::Threads;

/// A list of two writes.
fn two_writes<'a>(
    alloc: Global,
    first: Write<'a>,
    second: Write<'a>,
) -> Result<Vec<Write<'a>>, Memory>
    ensures { IfOk result (λ writes. writes.items ≡ first.entry ∷ second.entry ∷ []) }
{
    let mut writes = Vec::with_capacity(alloc, 2)?;
    writes.push(first)?;
    writes.push(second)?;
    Ok(writes)
}

/// The writes of what the cases of a run plan leave behind: the execution data, to its file, and then what is printed of them, on
/// `out`.
///
/// # Errors
///
/// `Memory` where memory was refused.
pub fn ran_writes<'a>(alloc: Global, destfile: &'a str, ran: Ran) -> Result<Vec<Write<'a>>, Memory>
    ensures { IfOk result (λ writes. writes_seen writes ≡ to_file destfile.entry.now (exec_text ran.store) ∷ to_out ran.text.items ∷ []) }
{
    let Ran { store, text } = ran;
    let bytes = store.write(alloc)?;
    let data = Write::File {
        path: destfile,
        bytes,
    };
    two_writes(alloc, data, Write::Out { text })
}

/// The writes of a program and a run plan: the execution data, and the texts of the cases. It is refused where a thread has no
/// method to begin with.
fn run_writes<'a, R: Threads + Sync, G: Gate + Sync>(
    resources: &Resources<'_, '_, R, G>,
    options: &RunOptions<'a>,
    program: &Program,
    plan: &RunPlan,
) -> Result<Vec<Write<'a>>, Stop<'a>>
    requires program { IsProgram program.now }
    requires fits { FitRecords program.now }
    requires plan { IsRunPlan plan.now }
    requires workers { (1 ≤ options.now.workers) × (options.now.workers ≤ 16) }
    ensures { AnswersWith (IsRunAnswer options.entry.now.plan.now options.entry.now.destfile.now plan.now program.now) result }
{
    if let Some(line) = line_without_entry(program, plan) {
        let fault = Fault::NoEntry { line };
        let file = options.plan;
        return Err(Stop::Refused { file, fault });
    }
    let ran = run_program(resources, program, plan, options.workers)?;
    Ok(ran_writes(resources.alloc, options.destfile, ran)?)
}

/// The writes of the text of a run plan and of class files. What is refused first is the run plan, then files that are no program,
/// and then a thread that has no method to begin with.
pub fn decided<'a, R: Threads + Sync, G: Gate + Sync>(
    resources: &Resources<'_, '_, R, G>,
    options: &RunOptions<'a>,
    plan_text: &Bytes,
    inputs: &InputFiles<'a>,
) -> Result<Vec<Write<'a>>, Stop<'a>>
    requires few { length inputs.now.paths < 2 ^ 32 }
    requires workers { (1 ≤ options.now.workers) × (options.now.workers ≤ 16) }
    requires plan { length plan_text.now ≤ most_read }
    ensures { AnswersWith (RunsFiles options.entry.now.plan.now options.entry.now.destfile.now inputs.entry.now.paths plan_text.now inputs.entry.now.texts) result }
{
    let planned = planned_program(resources.alloc, options.plan, plan_text, inputs)?;
    run_writes(resources, options, &planned.program, &planned.plan)
}
