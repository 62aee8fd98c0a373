//! Plans as answers.
ghost use Rattle.std.specs.Prelude.{◌≤◌, length};

use jc_bytes::Fail;
use jc_link::{PlanRefusal, read_plan};
use jc_programs::{Case, RunPlan, Schedule, ThreadLine};
use std::alloc::Global;
use tests_lines::Answer;

/// Puts a thread: its line, its class and method, and its arguments.
fn put_thread(thread: &ThreadLine, out: &mut Answer) {
    out.label(" ", &thread.line);
    out.put(":");
    out.name(&thread.class);
    out.put(".");
    out.name(&thread.method);
    for number in &thread.args {
        out.label(",", number);
    }
}

/// Puts a schedule.
fn put_schedule(schedule: &Schedule, out: &mut Answer) {
    match schedule {
        Schedule::Listed(turns) => {
            out.put(" list");
            for thread in turns {
                out.label(",", thread);
            }
        }
        Schedule::Robin(turns) => out.label(" robin,", turns),
        Schedule::Seeded { seed, turns } => {
            out.label(" seed,", seed);
            out.label(",", turns);
        }
    }
}

/// Puts a case.
fn put_case(case: &Case, out: &mut Answer) {
    for thread in &case.threads {
        put_thread(thread, out);
    }
    put_schedule(&case.schedule, out);
}

/// Puts how many cases a run plan has, and the last of them.
fn put_cases(plan: &RunPlan, out: &mut Answer) {
    out.show(&plan.cases.len());
    out.put(" cases:");
    if let [.., last] = plan.cases.as_slice() {
        put_case(last, out);
    }
}

/// Puts the run plan that a text is, or the first line that doesn't fit.
pub fn put_plan(alloc: Global, text: &[u8], out: &mut Answer) -> Option<()>
    requires { length text.now ≤ 1000000 }
{
    match read_plan(alloc, text) {
        Ok(plan) => put_cases(&plan, out),
        Err(Fail::Memory) => return out.lose(),
        Err(Fail::Said(PlanRefusal { line })) => out.label("line ", &line),
    }
    Some(())
}
