//! The cases of a run plan, as workers run them on the machine.
ghost use Rattle.std.specs.Prelude.{◌≡◌, ◌<◌, ◌^◌, All, IfOk, length, map};
ghost use Rattle.jc_programs.specs.Turns.{IsRunPlan};
ghost use Rattle.jc_machine_model.specs.Programs.{IsProgram};
ghost use Rattle.jc_machine_model.specs.Begin.{entries_of};
ghost use Rattle.jc_machine.specs.Hits.{probe_counts};
ghost use Rattle.jc_workers.specs.Cases.{HaveEntries, IsRunnable};

use crate::Gate;
use crate::runner::CaseRunner;
use jc_bytes::{List, Memory};
use jc_machine::{World, entry};
use jc_programs::{Case, CaseEnd, Entry, ProbeSink, Program, RunPlan, ThreadLine};
use std::alloc::Global;

/// The cases of a run plan of a program, with the methods with which their threads begin.
#[derive(Drop)]
pub struct PlanRunner<'a> {
    /// The program.
    pub program: &'a Program,
    /// The run plan.
    pub plan: &'a RunPlan,
    /// The entries of the threads of each case.
    pub entries: Vec<List<Entry>>,
}

/// The methods with which threads begin, of those that have one.
pub fn entries_of(
    alloc: Global,
    program: &Program,
    threads: &[ThreadLine],
) -> Result<List<Entry>, Memory>
    requires classes { length program.now.classes < 2 ^ 32 }
    requires methods { All (λ class. length class.bodies < 2 ^ 32) program.now.classes }
    ensures { IfOk result (λ entries. entries ≡ entries_of program.now threads.now) }
{
    let mut entries = List::new(alloc);
    'entering: for thread in threads {
        if let Some(method) = entry(program, thread) {
            entries.push(method)?;
        }
    }
    Ok(entries)
}

/// Those of each case.
fn entries_of_cases(
    alloc: Global,
    program: &Program,
    cases: &[Case],
) -> Result<Vec<List<Entry>>, Memory>
    requires classes { length program.now.classes < 2 ^ 32 }
    requires methods { All (λ class. length class.bodies < 2 ^ 32) program.now.classes }
    ensures { IfOk result (λ entries. entries.items ≡ map (λ case. entries_of program.now case.threads) cases.now) }
{
    let mut entries = Vec::with_capacity(alloc, cases.len())?;
    'cases: for case in cases {
        entries.push(entries_of(alloc, program, &case.threads)?)?;
    }
    Ok(entries)
}

/// How many probes each class has.
///
/// # Errors
///
/// `Memory` where memory was refused.
pub fn probe_counts(alloc: Global, program: &Program) -> Result<Vec<u32>, Memory>
    ensures { IfOk result (λ counts. counts.items ≡ probe_counts program.now) }
{
    let mut counts = Vec::new(alloc);
    'counting: for class in program.classes.as_slice() {
        counts.push(class.probes.map_or(0, |init| init.count))?;
    }
    Ok(counts)
}

impl<'a> PlanRunner<'a> {
    /// The cases of a run plan, each of whose threads has an entry.
    pub fn new(
        alloc: Global,
        program: &'a Program,
        plan: &'a RunPlan,
    ) -> Result<PlanRunner<'a>, Memory>
        requires program { IsProgram program.now }
        requires plan { IsRunPlan plan.now }
        requires entries { HaveEntries program.now plan.now }
        ensures { IfOk result (λ runner. (runner.program.now ≡ program.now) × (runner.plan.now ≡ plan.now)
            × IsRunnable runner.program.now runner.plan.now runner.entries.items) }
    {
        let entries = entries_of_cases(alloc, program, &plan.cases)?;
        Ok(PlanRunner {
            program,
            plan,
            entries,
        })
    }
}

impl<'a> CaseRunner for PlanRunner<'a> {
    ghost use Rattle.std.specs.Prelude.{length};
    ghost use Rattle.jc_machine.specs.Hits.{probe_counts};
    ghost use Rattle.jc_machine.specs.Machines.{Fits};
    ghost use Rattle.jc_workers.specs.Cases.{case_at, end_under, HitBy, IsRunnable};

    type World = World;

    type End = CaseEnd;

    ghost cases = { λ r. length r.plan.now.cases };

    ghost counts = { λ r. probe_counts r.program.now };

    ghost end_of = { λ r k. end_under r.program.now (case_at r.plan.now k) };

    ghost hits = { λ r k class id. HitBy r.program.now r.plan.now k class id };

    ghost fits = { λ r world. Fits r.program.now world };

    ghost runnable = { λ r. IsRunnable r.program.now r.plan.now r.entries.items };

    fn case_count(&self) -> usize {
        self.plan.cases.len()
    }

    fn begin(&self, alloc: Global) -> Result<World, Memory> {
        World::begin(alloc, self.program, &self.plan.cases[0], &self.entries[0])
    }

    fn run<S: ProbeSink, G: Gate>(
        &self,
        alloc: Global,
        world: &mut World,
        _gate: &G,
        case: usize,
        sink: &mut S,
    ) -> Result<CaseEnd, Memory> {
        let next = &self.plan.cases[case];
        world.next(self.program, next, &self.entries[case]);
        world.run(self.program, &next.schedule, sink);
        world.end(alloc)
    }
}
