//! Runs of the cases of a run plan whose threads take locks.
ghost use Rattle.std.specs.Prelude.{◌≡◌};
ghost use Rattle.jc_programs.specs.Probes.{counts_of};
ghost use Rattle.jc_programs.specs.Turns.{IsCase, IsRunPlan};
ghost use Rattle.jc_machine_model.specs.Programs.{IsProgram};
ghost use Rattle.jc_machine.specs.Hits.{probe_counts};

use crate::cases::{NoEntry, entries, put_case};
use jc_bytes::Fail;
use jc_machine::BitSink;
use jc_monitor_world::MonitorWorld;
use jc_programs::{Case, Program, RunPlan};
use std::alloc::Global;

/// Runs a case, and puts its text.
fn run_monitor_case(
    alloc: Global,
    program: &Program,
    number: u32,
    case: &Case,
    sink: &mut BitSink,
    text: &mut String,
) -> Result<(), Fail<NoEntry>>
    requires program { IsProgram program.now }
    requires case { IsCase case.now }
    requires counts { counts_of sink.old ≡ probe_counts program.now }
    ensures { counts_of sink.new ≡ probe_counts program.now }
{
    let entries = entries(alloc, program, &case.threads)?;
    let mut world = MonitorWorld::begin(alloc, program, case, &entries)?;
    world.run(program, &case.schedule, sink);
    let end = world.end(alloc)?;
    put_case(alloc, program, number, &end, text)?;
    Ok(())
}

/// Runs the cases, each in a world of its own.
pub fn run_monitor_cases(
    alloc: Global,
    program: &Program,
    plan: &RunPlan,
    sink: &mut BitSink,
    text: &mut String,
) -> Result<(), Fail<NoEntry>>
    requires program { IsProgram program.now }
    requires plan { IsRunPlan plan.now }
    requires counts { counts_of sink.old ≡ probe_counts program.now }
    ensures { counts_of sink.new ≡ probe_counts program.now }
{
    'running: for (before, case) in plan.cases.as_slice().iter().enumerate() {
        let number = before as u32 + 1;
        run_monitor_case(alloc, program, number, case, sink, text)?;
    }
    Ok(())
}
