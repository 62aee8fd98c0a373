//! A caller of jc_machine and jc_machine_text.
ghost use Rattle.std.specs.Prelude.{◌≡◌, IfOk};
ghost use Rattle.jc_programs.specs.Entries.{AreEntries};
ghost use Rattle.jc_programs.specs.Turns.{IsCase, turns_in};
ghost use Rattle.jc_machine_model.specs.CaseEnds.{case_end};
ghost use Rattle.jc_machine_model.specs.CaseText.{case_text};
ghost use Rattle.jc_machine_model.specs.Programs.{IsProgram};
ghost use Rattle.jc_machine.specs.Hits.{count_in, probe_counts};

use jc_bytes::Memory;
use jc_machine::{BitSink, World};
use jc_machine_text::case_text;
use jc_programs::{Case, Entry, ProbeInit, Program};
use std::alloc::{AllocError, Global};

/// How many probes there are.
fn count_of(probes: Option<ProbeInit>) -> u32
    ensures { result ≡ count_in probes }
{
    match probes {
        Some(probes) => probes.count,
        None => 0,
    }
}

/// How many probes each class has.
pub fn counts(alloc: Global, program: &Program) -> Result<Vec<u32>, AllocError>
    ensures { IfOk result (λ counts. counts.items ≡ probe_counts program.now) }
{
    let mut counts = Vec::new(alloc);
    'counting: for class in program.classes.as_slice() {
        counts.push(count_of(class.probes))?;
    }
    Ok(counts)
}

/// The text of a case of a program, as that of the first case of a run plan. Its threads begin with the entries.
///
/// # Errors
///
/// `Memory` where memory was refused.
pub fn text_of_case(
    alloc: Global,
    program: &Program,
    case: &Case,
    entries: &[Entry],
) -> Result<Vec<u8>, Memory>
    requires program { IsProgram program.now }
    requires case { IsCase case.now }
    requires entries { AreEntries program.now case.now.threads entries.now }
    ensures { IfOk result (λ text. text.items ≡ case_text program.now 1 (case_end program.now case.now (turns_in case.now))) }
{
    let counts = counts(alloc, program)?;
    let mut sink = BitSink::new(alloc, &counts)?;
    let mut world = World::begin(alloc, program, case, entries)?;
    world.run(program, &case.schedule, &mut sink);
    let end = world.end(alloc)?;
    case_text(alloc, 1, &end, program)
}
