//! Runs of the cases of a run plan.
ghost use Rattle.std.specs.Prelude.{◌≡◌, ◌≤◌, length, All, IfOk};
ghost use Rattle.jc_programs.specs.Entries.{AreEntries};
ghost use Rattle.jc_programs.specs.Probes.{counts_of};
ghost use Rattle.jc_programs.specs.Turns.{AreThreads, IsCase, IsRunPlan};
ghost use Rattle.jc_machine_model.specs.Programs.{IsProgram};
ghost use Rattle.jc_machine.specs.Hits.{count_in, probe_counts};
ghost use Rattle.jc_machine.specs.Machines.{Fits};

use jc_bytes::Fail;
use jc_machine::{BitSink, World, entry};
use jc_machine_text::case_text;
use jc_programs::{Case, CaseEnd, Entry, ProbeInit, Program, RunPlan, ThreadLine};
use std::alloc::{AllocError, Global};
use std::str;

/// A thread has no method to begin with.
#[derive(Clone, Copy)]
pub struct NoEntry {
    /// The line of the thread in the run plan.
    pub line: u32,
}

/// A case with its number, from 1.
#[derive(Clone, Copy)]
struct NumberedCase<'a> {
    number: u32,
    case: &'a Case,
}

/// How many probes there are.
fn count_of(probes: Option<ProbeInit>) -> u32
    ensures { result ≡ count_in probes }
{
    match probes {
        Some(probes) => probes.count,
        None => 0,
    }
}

/// How many probes each class has.
pub fn counts(alloc: Global, program: &Program) -> Result<Vec<u32>, AllocError>
    ensures { IfOk result (λ counts. counts.items ≡ probe_counts program.now) }
{
    let mut counts = Vec::new(alloc);
    'counting: for class in program.classes.as_slice() {
        counts.push(count_of(class.probes))?;
    }
    Ok(counts)
}

/// The methods with which the threads begin.
#[tactic(auto, using(crate::proofs::CaseLaws::one_entry_more))]
pub fn entries(
    alloc: Global,
    program: &Program,
    threads: &[ThreadLine],
) -> Result<Vec<Entry>, Fail<NoEntry>>
    requires program { IsProgram program.now }
    ensures { IfOk result (λ entries. AreEntries program.now threads.now entries.items) }
{
    let mut entries = Vec::new(alloc);
    'looking: for thread in threads {
        match entry(program, thread) {
            Some(entry) => entries.push(entry)?,
            None => return Err(Fail::Said(NoEntry { line: thread.line })),
        }
    }
    Ok(entries)
}

/// Puts the text of a case.
pub fn put_case(
    alloc: Global,
    program: &Program,
    number: u32,
    end: &CaseEnd,
    text: &mut String,
) -> Result<(), AllocError> {
    match case_text(alloc, number, end, program) {
        Ok(bytes) => text.push_str(str::from_utf8(&bytes).unwrap_or("?")),
        Err(_) => Err(AllocError),
    }
}

/// Runs a case that has begun, and puts its text.
fn run_case(
    alloc: Global,
    program: &Program,
    world: &mut World,
    begun: NumberedCase<'_>,
    sink: &mut BitSink,
    text: &mut String,
) -> Result<(), AllocError>
    requires program { IsProgram program.now }
    requires fits { Fits program.now world.old }
    requires threads { AreThreads (length world.old.threads) begun.case.now.schedule }
    requires counts { counts_of sink.old ≡ probe_counts program.now }
    ensures fits { Fits program.now world.new }
    ensures counts { counts_of sink.new ≡ probe_counts program.now }
{
    world.run(program, &begun.case.schedule, sink);
    match world.end(alloc) {
        Ok(end) => put_case(alloc, program, begun.number, &end, text),
        Err(_) => Err(AllocError),
    }
}

/// Runs the first case, whose world is answered.
#[tactic(auto, using(crate::proofs::CaseLaws::begun_threads))]
fn run_first(
    alloc: Global,
    program: &Program,
    case: &Case,
    sink: &mut BitSink,
    text: &mut String,
) -> Result<World, Fail<NoEntry>>
    requires program { IsProgram program.now }
    requires case { IsCase case.now }
    requires counts { counts_of sink.old ≡ probe_counts program.now }
    ensures fits { IfOk result (λ world. Fits program.now world) }
    ensures counts { counts_of sink.new ≡ probe_counts program.now }
{
    let entries = entries(alloc, program, &case.threads)?;
    let mut world = World::begin(alloc, program, case, &entries)?;
    let begun = NumberedCase { number: 1, case };
    run_case(alloc, program, &mut world, begun, sink, text)?;
    Ok(world)
}

/// Runs a later case in the world of the one before.
#[tactic(auto, using(crate::proofs::CaseLaws::begun_threads))]
fn run_next(
    alloc: Global,
    program: &Program,
    world: &mut World,
    next: NumberedCase<'_>,
    sink: &mut BitSink,
    text: &mut String,
) -> Result<(), Fail<NoEntry>>
    requires program { IsProgram program.now }
    requires case { IsCase next.case.now }
    requires fits { Fits program.now world.old }
    requires counts { counts_of sink.old ≡ probe_counts program.now }
    ensures fits { Fits program.now world.new }
    ensures counts { counts_of sink.new ≡ probe_counts program.now }
{
    let case = next.case;
    let entries = entries(alloc, program, &case.threads)?;
    world.next(program, case, &entries);
    run_case(alloc, program, world, next, sink, text)?;
    Ok(())
}

/// Runs the cases: the first in a new world, and each other in the same one.
pub fn run_cases(
    alloc: Global,
    program: &Program,
    plan: &RunPlan,
    sink: &mut BitSink,
    text: &mut String,
) -> Result<(), Fail<NoEntry>>
    requires program { IsProgram program.now }
    requires plan { IsRunPlan plan.now }
    requires counts { counts_of sink.old ≡ probe_counts program.now }
    ensures { counts_of sink.new ≡ probe_counts program.now }
{
    let [first, others @ ..] = plan.cases.as_slice() else {
        return Ok(());
    };
    let mut world = run_first(alloc, program, first, sink, text)?;
    'running: for (before, case) in others.iter().enumerate() {
        let number = before as u32 + 2;
        let next = NumberedCase { number, case };
        run_next(alloc, program, &mut world, next, sink, text)?;
    }
    Ok(())
}
