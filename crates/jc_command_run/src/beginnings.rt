//! The threads of a run plan that have no method to begin with.
ghost use Rattle.std.specs.Prelude.{◌≡◌};
ghost use Rattle.std.specs.Option.{option_map};
ghost use Rattle.jc_command_run.specs.Beginnings.{HasFew, line_of};
ghost use Rattle.jc_command_run.specs.RunStore.{threads_of, first_without};

use jc_programs::{Program, RunPlan, ThreadLine, entry};

/// The line of the first of the threads that has no method to begin with, if there is one.
fn line_in(program: &Program, threads: &[ThreadLine]) -> Option<u32>
    requires { HasFew program.now }
    ensures { result ≡ option_map line_of (first_without program.now threads.now) }
{
    'seeking: for thread in threads {
        if entry(program, thread).is_none() {
            return Some(thread.line);
        }
    }
    None
}

/// The line of the first thread of a run plan that has no method to begin with, if there is one.
pub fn line_without_entry(program: &Program, plan: &RunPlan) -> Option<u32>
    requires { HasFew program.now }
    ensures { result ≡ option_map line_of (first_without program.now (threads_of plan.now)) }
{
    'seeking: for case in plan.cases.as_slice() {
        match line_in(program, &case.threads) {
            Some(line) => return Some(line),
            None => {}
        }
    }
    None
}
