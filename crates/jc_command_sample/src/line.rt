//! The line of the sample.
ghost use Rattle.std.specs.Prelude.{◌≡◌, string_bytes, IfOk};
ghost use Rattle.jc_command_sample.specs.SampleWork.{sizes_text, instructions_text, branches_text, sample_text};

use jc_bytes::Memory;
use jc_cover::{Count, Counters};
use std::alloc::{AllocError, Global};

/// How many methods, probes and cases there are.
fn sizes_text(alloc: Global, methods: u32, probes: u32, cases: usize) -> Result<String, AllocError>
    ensures { IfOk result (λ text. string_bytes text ≡ sizes_text methods probes cases) }
{
    format!(in alloc; "sample {methods}: {probes} probes, {cases} cases, ")
}

/// How many instructions are covered, and how many are missed.
fn instructions_text(alloc: Global, count: Count) -> Result<String, AllocError>
    ensures { IfOk result (λ text. string_bytes text ≡ instructions_text count) }
{
    let Count { missed, covered } = count;
    format!(in alloc; "{covered} covered and {missed} missed instructions, ")
}

/// How many branches are covered, and how many are missed.
fn branches_text(alloc: Global, count: Count) -> Result<String, AllocError>
    ensures { IfOk result (λ text. string_bytes text ≡ branches_text count) }
{
    let Count { missed, covered } = count;
    format!(in alloc; "{covered} covered and {missed} missed branches\n")
}

/// The line of a sample with so many methods, probes and cases, and with these counters.
pub fn sample_text(
    alloc: Global,
    methods: u32,
    probes: u32,
    cases: usize,
    counters: Counters,
) -> Result<Vec<u8>, Memory>
    ensures { IfOk result (λ text. text.items ≡ sample_text methods probes cases counters) }
{
    let instructions = instructions_text(alloc, counters.instruction)?;
    let branches = branches_text(alloc, counters.branch)?;
    let mut text = sizes_text(alloc, methods, probes, cases)?.into_bytes();
    text.extend_from_slice(instructions.as_bytes())?;
    text.extend_from_slice(branches.as_bytes())?;
    Ok(text)
}
