//! The run plan of the sample.
ghost use Rattle.std.specs.Prelude.{◌≡◌, ◌≤◌, ◌<◌, IfOk};
ghost use Rattle.jc_command_sample.specs.SamplePlan.{sample_thread, sample_case, sample_plan};

use crate::file::method_name;
use jc_bytes::{Bytes, List, Memory};
use jc_programs::{Case, RunPlan, Schedule, ThreadLine};
use std::alloc::Global;

/// The most cases that a run plan has.
const MOST_CASES: u32 = 256;

/// How many turns a case has.
const TURNS: u32 = 64;

/// The thread of the case with this number.
fn sample_thread(alloc: Global, methods: u32, number: u32) -> Result<ThreadLine, Memory>
    requires { number < 256 }
    ensures { IfOk result (λ thread. thread ≡ sample_thread methods number) }
{
    let mut args = List::new(alloc);
    args.push(i64::from(methods))?;
    Ok(ThreadLine {
        class: Bytes::copy_of(alloc, b"Sample")?,
        method: List::from_vec(method_name(alloc, number)?.into_bytes()),
        args,
        line: 3 * number + 2,
    })
}

/// The case with this number.
fn sample_case(alloc: Global, methods: u32, number: u32) -> Result<Case, Memory>
    requires { number < 256 }
    ensures { IfOk result (λ case. case ≡ sample_case methods number) }
{
    let mut threads = List::new(alloc);
    threads.push(sample_thread(alloc, methods, number)?)?;
    Ok(Case {
        threads,
        schedule: Schedule::Robin(TURNS),
    })
}

/// The run plan of the sample with so many methods: a case for each of them, but for those past the most that a run plan has.
pub fn sample_plan(alloc: Global, methods: u32) -> Result<RunPlan, Memory>
    ensures { IfOk result (λ plan. plan ≡ sample_plan methods) }
{
    let mut cases = List::new(alloc);
    'planning: for number in 0..methods.min(MOST_CASES) {
        cases.push(sample_case(alloc, methods, number)?)?;
    }
    Ok(RunPlan { cases })
}
