//! The cases of the run plan on workers.
ghost use Rattle.std.specs.Prelude.{◌≡◌, ◌≤◌, IfOk};
ghost use Rattle.jc_programs.specs.Turns.{IsRunPlan};
ghost use Rattle.jc_machine_model.specs.Programs.{IsProgram};
ghost use Rattle.jc_machine.specs.Hits.{count_in, probe_counts};
ghost use Rattle.jc_workers.specs.Cases.{HaveEntries};

use crate::told::{bits_text, cases_text, has_raised};
use crate::work::{have_entries, plan, program};
use jc_board::Board;
use jc_bytes::Memory;
use jc_programs::{HitSet, ProbeInit, Program, RunPlan};
use jc_workers::{Gate, run_cases};
use std::alloc::{AllocError, Global};
use std::marker::Sync;
use std::process::Abort;
use std::test::Fail;
use std::thread::Threads;

/// What workers left of a run plan.
#[derive(Drop)]
pub struct Left {
    /// The text of the cases.
    pub text: Vec<u8>,
    /// Whether one of them raised a throwable.
    pub raised: bool,
    /// Which probes are hit.
    pub bits: String,
}

/// How many probes there are.
fn count_of(probes: Option<ProbeInit>) -> u32
    ensures { result ≡ count_in probes }
{
    match probes {
        Some(probes) => probes.count,
        None => 0,
    }
}

/// How many probes each class has.
pub fn counts(alloc: Global, program: &Program) -> Result<Vec<u32>, AllocError>
    ensures { IfOk result (λ counts. counts.items ≡ probe_counts program.now) }
{
    let mut counts = Vec::new(alloc);
    'counting: for class in program.classes.as_slice() {
        counts.push(count_of(class.probes))?;
    }
    Ok(counts)
}

/// Runs the cases of a run plan on so many workers.
fn run<R: Threads + Sync, G: Gate + Sync>(
    rt: &R,
    alloc: Global,
    program: &Program,
    plan: &RunPlan,
    workers: u32,
    gate: &G,
) -> Result<Left, Memory>
    requires program { IsProgram program.now }
    requires plan { IsRunPlan plan.now }
    requires entries { HaveEntries program.now plan.now }
    requires workers { (1 ≤ workers) × (workers ≤ 16) }
{
    let counts = counts(alloc, program)?;
    let (board, seat) = Board::new(alloc, &counts)?;
    let (ends, seat) = run_cases(rt, alloc, program, plan, workers, gate, &board, seat)?;
    let mut hits = HitSet::new(alloc, &counts)?;
    board.close(seat, &mut hits);
    Ok(Left {
        text: cases_text(alloc, program, &ends)?,
        raised: has_raised(&ends),
        bits: bits_text(alloc, &hits, &counts)?,
    })
}

/// Runs the run plan of forty cases on so many workers.
pub fn run_forty<R: Threads + Abort + Sync, G: Gate + Sync>(
    rt: &R,
    alloc: Global,
    workers: u32,
    gate: &G,
) -> Result<Left, Fail>
    requires { (1 ≤ workers) × (workers ≤ 16) }
{
    let program = program(rt, alloc)?;
    let plan = plan(rt, alloc)?;
    assert!(rt; have_entries(&program, &plan));
    Ok(run(rt, alloc, &program, &plan, workers, gate)?)
}
