//! The cases of the run plan on workers, with dumps of their hits.
ghost use Rattle.std.specs.Prelude.{◌≡◌, ◌<◌, ◌≤◌, ◌^◌, length, All};
ghost use Rattle.jc_programs.specs.Probes.{counts_of};
ghost use Rattle.jc_programs.specs.Turns.{IsRunPlan};
ghost use Rattle.jc_machine_model.specs.Programs.{IsProgram};
ghost use Rattle.jc_workers.specs.Cases.{HaveEntries};

use crate::runs::counts;
use crate::told::{bits_text, cases_text};
use crate::work::{have_entries, plan, program};
use jc_bytes::Memory;
use jc_dump::run_dumping;
use jc_programs::{HitSet, Program, RunPlan};
use jc_workers::Gate;
use std::alloc::{AllocError, Global};
use std::marker::Sync;
use std::process::Abort;
use std::test::Fail;
use std::thread::Threads;

/// What workers left of a run plan, with dumps of its hits.
#[derive(Drop)]
pub struct LeftWithDumps {
    /// The text of the cases.
    pub text: Vec<u8>,
    /// Which probes are hit in each dump.
    pub dumps: Vec<String>,
    /// Which probes are hit in the rest.
    pub rest: String,
}

/// On how many workers cases run, and how many of them there are between two dumps.
#[derive(Clone, Copy)]
pub struct Dumping {
    pub workers: u32,
    pub every: u32,
}

/// The probes that are hit in each dump, as texts.
fn dump_texts(alloc: Global, dumps: &[HitSet], counts: &[u32]) -> Result<Vec<String>, AllocError>
    requires dumps { All (λ dump. counts_of dump ≡ counts.now) dumps.now }
    requires few { length counts.now < 2 ^ 32 }
{
    let mut texts = Vec::new(alloc);
    'dumps: for dump in dumps {
        texts.push(bits_text(alloc, dump, counts)?)?;
    }
    Ok(texts)
}

/// Runs the cases of a run plan with dumps.
#[tactic(auto, using(crate::proofs::DumpLaws::each_dump_has_the_counts))]
fn run_with_dumps<R: Threads + Sync, G: Gate + Sync>(
    rt: &R,
    alloc: Global,
    program: &Program,
    plan: &RunPlan,
    dumping: Dumping,
    gate: &G,
) -> Result<LeftWithDumps, Memory>
    requires program { IsProgram program.now }
    requires plan { IsRunPlan plan.now }
    requires entries { HaveEntries program.now plan.now }
    requires workers { (1 ≤ dumping.workers) × (dumping.workers ≤ 16) }
    requires every { (1 ≤ dumping.every) × (dumping.every ≤ 256) }
{
    let counts = counts(alloc, program)?;
    let mut rest = HitSet::new(alloc, &counts)?;
    let Dumping { workers, every } = dumping;
    let dumped = run_dumping(rt, alloc, program, plan, workers, every, gate, &mut rest)?;
    Ok(LeftWithDumps {
        text: cases_text(alloc, program, dumped.ends.as_slice())?,
        dumps: dump_texts(alloc, dumped.dumps.as_slice(), &counts)?,
        rest: bits_text(alloc, &rest, &counts)?,
    })
}

/// Runs the run plan of forty cases with dumps.
pub fn run_forty_with_dumps<R: Threads + Abort + Sync, G: Gate + Sync>(
    rt: &R,
    alloc: Global,
    dumping: Dumping,
    gate: &G,
) -> Result<LeftWithDumps, Fail>
    requires workers { (1 ≤ dumping.workers) × (dumping.workers ≤ 16) }
    requires every { (1 ≤ dumping.every) × (dumping.every ≤ 256) }
{
    let program = program(rt, alloc)?;
    let plan = plan(rt, alloc)?;
    assert!(rt; have_entries(&program, &plan));
    Ok(run_with_dumps(rt, alloc, &program, &plan, dumping, gate)?)
}
