//! Run plans with the programs on which their cases are run.
ghost use Rattle.std.specs.Prelude.{◌<◌, ◌≤◌, ◌^◌, length, IfOk, IfErr};
ghost use Rattle.jc_bytes.specs.Reader.{most_read};
ghost use Rattle.jc_programs.specs.Turns.{IsRunPlan};
ghost use Rattle.jc_run_plans.specs.Plans.{IsPlanText};
ghost use Rattle.jc_link_programs.specs.Linking.{IsProgramOf};
ghost use Rattle.jc_machine_model.specs.Programs.{IsProgram};
ghost use Rattle.jc_command_run.specs.Clash.{PlannedStops};
ghost use Rattle.jc_command_run.specs.HitStore.{FitRecords};
ghost use Rattle.jc_command_work.specs.Seen.{stop_seen};

use crate::clash::link_stop;
use crate::plans::plan_of;
use jc_bytes::Bytes;
use jc_command_work::{InputFiles, Stop};
use jc_link_programs::link_or_clash;
use jc_programs::{Program, RunPlan};
use std::alloc::Global;

/// A run plan and the program on which its cases are run.
#[derive(Drop)]
pub struct Planned {
    /// The run plan.
    pub plan: RunPlan,
    /// The program.
    pub program: Program,
}

/// The run plan that the text of a file is, and the program of class files.
///
/// # Errors
///
/// `Memory` where memory was refused. Else `Refused` with the path of the run plan and the first line that doesn't fit. Then
/// `Refused` with the path of the first class file that isn't linked, or `Clash` with those of two files of one class name, or
/// else of two whose probes have one id.
pub fn planned_program<'a>(
    alloc: Global,
    plan: &'a str,
    plan_text: &Bytes,
    inputs: &InputFiles<'a>,
) -> Result<Planned, Stop<'a>>
    requires few { length inputs.now.paths < 2 ^ 32 }
    requires plan { length plan_text.now ≤ most_read }
    ensures plan { IfOk result (λ r. IsPlanText plan_text.now r.plan × IsRunPlan r.plan) }
    ensures program { IfOk result (λ r. IsProgramOf inputs.entry.now.texts r.program × IsProgram r.program × FitRecords r.program) }
    ensures refused { IfErr result (λ stop. PlannedStops plan.entry.now inputs.entry.now.paths plan_text.now inputs.entry.now.texts (stop_seen stop)) }
{
    let run_plan = plan_of(alloc, plan, plan_text)?;
    match link_or_clash(alloc, inputs.texts()) {
        Ok(program) => Ok(Planned {
            plan: run_plan,
            program,
        }),
        Err(fail) => Err(link_stop(alloc, fail, inputs)),
    }
}
