//! Running the cases of a run plan whose threads take locks.
ghost use Rattle.std.specs.Prelude.{◌≡◌, ◌<◌, ◌+◌, ◌↔◌, ℕ, List, length, map, IfOk};
ghost use Rattle.jc_machine.specs.Hits.{Gained, probe_counts};
ghost use Rattle.jc_programs.specs.Entries.{AreEntries};
ghost use Rattle.jc_programs.specs.Probes.{counts_of, IsHit};
ghost use Rattle.jc_programs.specs.Turns.{IsCase, IsRunPlan};
ghost use Rattle.jc_programs.specs.declared.run_end.Entry.{Entry as EntrySeen};
ghost use Rattle.jc_machine_model.specs.Programs.{IsProgram};
ghost use Rattle.jc_workers.specs.Cases.{HaveEntries};
ghost use Rattle.jc_monitor_runs.specs.MonitorTexts.{monitor_case_end, monitor_case_hits};
ghost use Rattle.jc_command_monitored.specs.MonitoredHits.{IsMonitoredHit};

use jc_bytes::Memory;
use jc_machine::BitSink;
use jc_monitor_world::MonitorWorld;
use jc_programs::{Case, CaseEnd, Program, RunPlan};
use jc_workers::{Gate, entries_of, probe_counts};
use std::alloc::Global;

/// Runs a case whose threads take locks.
fn run_case(
    alloc: Global,
    program: &Program,
    case: &Case,
    sink: &mut BitSink,
) -> Result<CaseEnd, Memory>
    requires program { IsProgram program.now }
    requires case { IsCase case.now }
    requires entries { (entries : List EntrySeen) × AreEntries program.now case.now.threads entries }
    requires counts { counts_of sink.old ≡ probe_counts program.now }
    ensures end { IfOk result (λ end. end ≡ monitor_case_end program.now case.now) }
    ensures hits { IfOk result (λ _. Gained (IsHit sink.old) (monitor_case_hits program.now case.now) (IsHit sink.new)) }
    ensures counts { counts_of sink.new ≡ counts_of sink.old }
{
    let entries = entries_of(alloc, program, case.threads.as_slice())?;
    let mut world = MonitorWorld::begin(alloc, program, case, entries.as_slice())?;
    world.run(program, &case.schedule, sink);
    world.end(alloc)
}

/// What the cases of a run plan leave, and which probes they hit.
pub struct Outcome {
    pub ends: Vec<CaseEnd>,
    pub sink: BitSink,
}

/// Runs the cases of a run plan, one after another. Each passes the gate when it begins.
pub fn run_cases<G: Gate>(
    alloc: Global,
    gate: &G,
    program: &Program,
    plan: &RunPlan,
) -> Result<Outcome, Memory>
    requires program { IsProgram program.now }
    requires plan { IsRunPlan plan.now }
    requires entries { HaveEntries program.now plan.now }
    ensures ends { IfOk result (λ o. o.ends.items ≡ map (monitor_case_end program.now) plan.now.cases) }
    ensures counts { IfOk result (λ o. counts_of o.sink ≡ probe_counts program.now) }
    ensures hits { IfOk result (λ o. (class id : ℕ) → IsHit o.sink class id ↔ IsMonitoredHit program.now plan.now (record { class = class; id = id })) }
    ensures passed { IfOk result (λ _. (k : ℕ) → k < length plan.now.cases → G.passed gate.now (k + 1)) }
{
    let counts = probe_counts(alloc, program)?;
    let mut sink = BitSink::new(alloc, &counts)?;
    let cases = plan.cases.as_slice();
    let mut ends = Vec::with_capacity(alloc, cases.len())?;
    'running: for index in 0..cases.len() {
        gate.pass(index as u32 + 1);
        let end = run_case(alloc, program, &cases[index], &mut sink)?;
        ends.push(end)?;
    }
    Ok(Outcome { ends, sink })
}
