//! Texts that are no run plan.
ghost use Rattle.std.specs.Prelude.{◌≡◌, ◌≤◌, length, IfOk, IfErr};
ghost use Rattle.jc_bytes.specs.Reader.{most_read};
ghost use Rattle.jc_run_plans.specs.Plans.{IsPlanText};
ghost use Rattle.jc_programs.specs.Turns.{IsRunPlan};
ghost use Rattle.jc_command_run.specs.PlanStops.{plan_stop, PlanStops};
ghost use Rattle.jc_command_work.specs.Seen.{stop_seen};

use jc_bytes::{Bytes, Fail};
use jc_command_work::{Fault, Stop};
use jc_programs::RunPlan;
use jc_run_plans::{PlanRefusal, read_plan};
use std::alloc::Global;

/// How a text that is no run plan stops a command.
fn plan_stop<'a>(fail: Fail<PlanRefusal>, plan: &'a str) -> Stop<'a>
    ensures { result ≡ plan_stop fail plan.entry }
{
    match fail {
        Fail::Memory => Stop::Memory,
        Fail::Said(refusal) => {
            let fault = Fault::Plan { line: refusal.line };
            Stop::Refused { file: plan, fault }
        }
    }
}

/// The run plan that the text of a file is.
///
/// # Errors
///
/// `Memory` where memory was refused. Else `Refused`, with the path of the file, and the first line that doesn't fit.
pub fn plan_of<'a>(alloc: Global, plan: &'a str, text: &Bytes) -> Result<RunPlan, Stop<'a>>
    requires { length text.now ≤ most_read }
    ensures plan { IfOk result (IsPlanText text.now) }
    ensures fits { IfOk result IsRunPlan }
    ensures refused { IfErr result (λ stop. PlanStops plan.entry.now text.now (stop_seen stop)) }
{
    match read_plan(alloc, text) {
        Ok(run_plan) => Ok(run_plan),
        Err(fail) => Err(plan_stop(fail, plan)),
    }
}
