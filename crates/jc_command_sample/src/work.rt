//! The sample: a class of so many methods is instrumented, run and reported on in memory.
ghost use Rattle.std.specs.Prelude.{◌≡◌, ◌≤◌, ◌∷◌, [], ⊤, Some, None, IfOk, length};
ghost use Rattle.jc_bytes.specs.ByteLists.{AreBytes};
ghost use Rattle.jc_bytes.specs.Reader.{most_read};
ghost use Rattle.jc_instrument.specs.InstrumentedFile.{IsInstrumentedFile};
ghost use Rattle.jc_link_programs.specs.Linking.{IsProgramOf};
ghost use Rattle.jc_command_run.specs.HitStore.{FitRecords};
ghost use Rattle.jc_command_run.specs.RunStore.{threads_of, first_without};
ghost use Rattle.jc_machine_laws.specs.Frameless.{frameless};
ghost use Rattle.jc_command_work.specs.Part.{deciding};
ghost use Rattle.jc_machine_model.specs.Programs.{IsProgram};
ghost use Rattle.jc_command_sample.specs.SampleFile.{sample_file as file_of};
ghost use Rattle.jc_command_sample.specs.SampleWork.{IsRefusedEnd, HaveEntries, IsEntryEnd, linking, running, sample_line as line_part, sample_work};
ghost use Rattle.jc_command_sample.specs.Seen.{Decides, RanOut};

use crate::coverage::{PATH, file_counters};
use crate::file::sample_file;
use crate::line::sample_text;
use crate::plan::sample_plan;
use jc_bytes::{Bytes, Fail, MOST_READ, Memory, are_bytes, not_a_class};
use jc_command_run::{line_without_entry, run_program};
use jc_command_work::{Fault, Resources, Stop, class_stop, put_out};
use jc_instrument::{Instrumented, instrument};
use jc_link_programs::{LinkRefusal, link};
use jc_outside::Sink;
use jc_programs::{Program, RunPlan};
use jc_workers::Gate;
use std::alloc::Global;
use std::marker::Sync;
use std::thread::Threads;

/// The class file with its probes.
fn instrumented<'a>(alloc: Global, bytes: &[u8]) -> Result<Instrumented, Stop<'a>>
    requires { length bytes.now ≤ most_read }
    ensures { Decides (deciding (IsInstrumentedFile bytes.now) (IsRefusedEnd bytes.now)) (λ class. class) result }
{
    match instrument(alloc, bytes) {
        Ok(class) => Ok(class),
        Err(fail) => Err(class_stop(fail, 0, PATH)),
    }
}

/// A list of one file.
fn one_file(alloc: Global, bytes: Bytes) -> Result<Vec<Bytes>, Memory>
    ensures { IfOk result (λ files. files.items ≡ bytes ∷ []) }
{
    let mut files = Vec::with_capacity(alloc, 1)?;
    files.push(bytes)?;
    Ok(files)
}

/// The program of the class file alone. One that is too large to be read is refused where reading would end.
fn linked<'a>(alloc: Global, bytes: Bytes) -> Result<Program, Stop<'a>>
    ensures linked { Decides (linking bytes) frameless result }
    ensures program { IfOk result IsProgram }
    ensures fits { IfOk result FitRecords }
{
    if bytes.len() > MOST_READ {
        let refusal = not_a_class(MOST_READ as u32);
        return Err(class_stop(Fail::Said(refusal), 0, PATH));
    }
    are_bytes(&bytes);
    let files = one_file(alloc, bytes)?;
    match link(alloc, &files) {
        Ok(program) => Ok(program),
        Err(Fail::Memory) => Err(Stop::Memory),
        Err(Fail::Said(LinkRefusal::Class { refusal, .. })) => {
            Err(class_stop(Fail::Said(refusal), 0, PATH))
        }
        Err(Fail::Said(LinkRefusal::SameName { .. } | LinkRefusal::SameId { .. })) =>
            unreachable!(),
    }
}

/// Checks that each thread of a run plan has a method to begin with.
fn check_entries<'a>(program: &Program, plan: &RunPlan) -> Result<(), Stop<'a>>
    requires { IsProgram program.now }
    ensures { Decides (deciding (HaveEntries (frameless program.now) plan.now) (IsEntryEnd (frameless program.now) plan.now)) (λ _. tt) result }
{
    match line_without_entry(program, plan) {
        None => Ok(()),
        Some(line) => {
            let fault = Fault::NoEntry { line };
            Err(Stop::Refused { file: PATH, fault })
        }
    }
}

/// The line of a sample with so many methods, of a class with these probes and of its program.
fn run_sample<'a, R: Threads + Sync, G: Gate + Sync>(
    resources: &Resources<'_, '_, R, G>,
    methods: u32,
    bytes: &[u8],
    probes: u32,
    program: &Program,
) -> Result<Vec<u8>, Stop<'a>>
    requires methods { (1 ≤ methods) × (methods ≤ 1000) }
    requires bytes { bytes.now ≡ file_of methods }
    requires program { IsProgram program.now }
    requires fits { FitRecords program.now }
    ensures { Decides (running methods probes (frameless program.now)) (λ line. line.items) result }
{
    let alloc = resources.alloc;
    let plan = sample_plan(alloc, methods)?;
    check_entries(program, &plan)?;
    let ran = run_program(resources, program, &plan, 1)?;
    let counters = file_counters(alloc, bytes, &ran.store)?;
    Ok(sample_text(alloc, methods, probes, plan.cases.len(), counters)?)
}

/// The line of a sample with so many methods.
///
/// The class `Sample` has the static methods `m0`, `m1` and so on, each of an int: method k gives back its argument, or k
/// where k + 2 divides the argument. The class is instrumented. Its run plan has a case for each method, but at most 256; case j
/// is one thread of method j - 1, whose argument is the number of methods, and has 64 turns. The cases run on one worker, and
/// each passes through the gate when it begins. The counters are those of the class before it was instrumented, by the hits.
///
/// # Errors
///
/// `Memory` where memory was refused. Else `Refused`, as the commands end where a class file isn't instrumented or isn't linked,
/// where a thread has no method to begin with, or where a record of execution data clashes with a class.
pub fn sample_line<'a, R: Threads + Sync, G: Gate + Sync>(
    resources: &Resources<'_, '_, R, G>,
    methods: u32,
) -> Result<Vec<u8>, Stop<'a>>
    requires { (1 ≤ methods) × (methods ≤ 1000) }
    ensures { Decides (line_part methods) (λ line. line.items) result }
{
    let alloc = resources.alloc;
    let bytes = sample_file(alloc, methods)?;
    let class = instrumented(alloc, &bytes)?;
    let program = linked(alloc, class.bytes)?;
    run_sample(resources, methods, &bytes, class.probes, &program)
}

/// Writes the line of a sample with so many methods on `out`, as [`sample_line`] gives it.
///
/// # Errors
///
/// Those of [`sample_line`], before anything is written. `Output` where the line couldn't be written.
pub fn sample<'a, R: Threads + Sync, O: Sink, G: Gate + Sync>(
    resources: &Resources<'_, '_, R, G>,
    out: &mut O,
    methods: u32,
) -> Result<(), Stop<'a>>
    requires { (1 ≤ methods) × (methods ≤ 1000) }
    ensures { RanOut (sample_work methods) (O.told out.old) (O.told out.new) (O.faults out.old) (O.faults out.new) result }
{
    let line = sample_line(resources, methods)?;
    put_out(out, &line)
}
