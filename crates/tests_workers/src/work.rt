//! The program and the run plan that workers run.
ghost use Rattle.std.specs.Prelude.{◌≤◌, length, All, IsTrue, IfOk};
ghost use Rattle.jc_programs.specs.Turns.{IsRunPlan};
ghost use Rattle.jc_machine_model.specs.Programs.{IsProgram};
ghost use Rattle.jc_workers.specs.Cases.{HaveEntries};
ghost use Rattle.tests_workers.specs.Begin.{Begin};

use jc_bytes::Bytes;
use jc_instrument::instrument;
use jc_link::{link, read_plan};
use jc_machine::entry;
use jc_programs::{Program, RunPlan, ThreadLine};
use std::alloc::{AllocError, Global};
use std::process::Abort;
use std::test::Fail;

/// A class C in hexadecimal digits, by the JVM Specification, 4.1 to 4.7. It has the static field `x I` and the static method
/// `inc ()V`, which adds 1 to it.
const CLASS: [&str; 7] = [
    // magic, version 52, the count of the pool
    "cafebabe00000034000c",
    // 1 to 4: the classes C and java/lang/Object
    "010001430700010100106a6176612f6c616e672f4f626a656374070003",
    // 5 to 8: x I, inc ()V
    "0100017801000149010003696e63010003282956",
    // 9 to 11: the field C.x, Code
    "0c000500060900020009010004436f6465",
    // flags, this class, superclass, no interfaces
    "0021000200040000",
    // the field
    "00010009000500060000",
    // the method, with room for two items on the stack: getstatic, iconst_1, iadd, putstatic, return; no attributes
    "00010009000700080001000b000000150002000000000009b2000a0460b3000ab1000000000000",
];

/// How many cases the run plan has.
const CASES: u32 = 40;

/// One case: one thread, and its 22 turns. It is 13 turns of the method that asks for the probe array and of its call, four of the
/// method, four of the probe and the return.
const CASE: &str = "case\nthread C.inc\nschedule robin 22\n";

/// The most bytes of a file here.
const MOST: usize = 1_000_000;

/// The class file.
pub fn class_file(alloc: Global) -> Result<Bytes, Fail> {
    let mut bytes = Vec::new(alloc);
    for part in CLASS {
        bytes.extend_from_slice(&hex::decode(alloc, part)?)?;
    }
    Ok(Bytes::from_vec(bytes))
}

/// Whether no file is longer than the longest one here.
fn are_short(files: &[Bytes]) -> bool
    ensures { IsTrue result → All (λ file. length file ≤ 1000000) files.now }
{
    files.iter().all(|file| file.len() <= MOST)
}

/// The program of the class, which is instrumented.
pub fn program(rt: &impl Abort, alloc: Global) -> Result<Program, Fail>
    ensures { IfOk result IsProgram }
{
    let original = class_file(alloc)?;
    assert!(rt; original.len() <= MOST);
    let instrumented = instrument(alloc, &original)?;
    let mut files = Vec::new(alloc);
    files.push(instrumented.bytes)?;
    assert!(rt; files.len() <= MOST && are_short(&files));
    Ok(link(alloc, &files)?)
}

/// The text of the run plan.
pub fn plan_text(alloc: Global) -> Result<String, AllocError> {
    let mut text = String::new(alloc);
    for _ in 0..CASES {
        text.push_str(CASE)?;
    }
    Ok(text)
}

/// The run plan.
pub fn plan(rt: &impl Abort, alloc: Global) -> Result<RunPlan, Fail>
    ensures { IfOk result IsRunPlan }
{
    let text = plan_text(alloc)?;
    let bytes = text.as_bytes();
    assert!(rt; bytes.len() <= MOST);
    Ok(read_plan(alloc, bytes)?)
}

/// Whether each thread has a method to begin with.
fn begin(program: &Program, threads: &[ThreadLine]) -> bool
    requires { IsProgram program.now }
    ensures { IsTrue result → Begin program.now threads.now }
{
    'seeking: for thread in threads {
        match entry(program, thread) {
            Some(_method) => {}
            None => return false,
        }
    }
    true
}

/// Whether each thread of each case has a method to begin with.
pub fn have_entries(program: &Program, plan: &RunPlan) -> bool
    requires { IsProgram program.now }
    ensures { IsTrue result → HaveEntries program.now plan.now }
{
    'seeking: for case in plan.cases.as_slice() {
        if !begin(program, &case.threads) {
            return false;
        }
    }
    true
}
