//! What forty cases leave with dumps, whatever the workers. Each case hits the one probe of the program.

use crate::dump_runs::{Dumping, LeftWithDumps, run_forty_with_dumps};
use crate::hold::Hold;
use crate::rows::wanted_text;
use std::alloc::Global;
use std::process::Abort;
use std::test::Fail;

/// Expects the text of forty cases, so many dumps, and the hit in one of them or in the rest.
fn expect_hit(
    rt: &impl Abort,
    alloc: Global,
    left: &LeftWithDumps,
    count: usize,
) -> Result<(), Fail> {
    let wanted = wanted_text(alloc)?;
    assert!(rt; left.text.as_slice() == wanted.as_bytes());
    assert_eq!(rt; left.dumps.len(), count);
    let mut is_hit = left.rest.as_str() == "1.";
    for dump in &left.dumps {
        is_hit = is_hit || dump.as_str() == "1.";
    }
    assert!(rt; is_hit);
    Ok(())
}

#[test]
fn each_number_of_workers_leaves_the_hit(rt: HostRuntime) -> Result<(), Fail> {
    let alloc = rt.alloc();
    for workers in [1u32, 4, 16] {
        for every in [1u32, 7, 40] {
            let gate = Hold::until(alloc, 40, 0)?;
            let left = run_forty_with_dumps(&rt, alloc, Dumping { workers, every }, &gate)?;
            assert!(rt; gate.each_once());
            expect_hit(&rt, alloc, &left, (40 / every) as usize)?;
        }
    }
    Ok(())
}

#[test]
fn one_worker_takes_what_each_case_hits(rt: HostRuntime) -> Result<(), Fail> {
    let alloc = rt.alloc();
    let dumping = Dumping {
        workers: 1,
        every: 1,
    };
    let gate = Hold::until(alloc, 40, 0)?;
    let left = run_forty_with_dumps(&rt, alloc, dumping, &gate)?;
    for dump in &left.dumps {
        assert_eq!(rt; dump.as_str(), "1.");
    }
    assert_eq!(rt; left.rest.as_str(), "0.");
    Ok(())
}

// 40 isn't a multiple of 7: the cases behind the 35th have no dump.
#[test]
fn cases_behind_the_last_dump_are_in_the_rest(rt: HostRuntime) -> Result<(), Fail> {
    let alloc = rt.alloc();
    let dumping = Dumping {
        workers: 1,
        every: 7,
    };
    let gate = Hold::until(alloc, 40, 0)?;
    let left = run_forty_with_dumps(&rt, alloc, dumping, &gate)?;
    assert_eq!(rt; left.dumps.len(), 5);
    assert_eq!(rt; left.rest.as_str(), "1.");
    Ok(())
}

#[test]
fn a_short_plan_has_no_dump(rt: HostRuntime) -> Result<(), Fail> {
    let alloc = rt.alloc();
    for workers in [1u32, 4, 16] {
        let dumping = Dumping {
            workers,
            every: 256,
        };
        let gate = Hold::until(alloc, 40, 0)?;
        let left = run_forty_with_dumps(&rt, alloc, dumping, &gate)?;
        assert_eq!(rt; left.dumps.len(), 0);
        assert_eq!(rt; left.rest.as_str(), "1.");
    }
    Ok(())
}

#[test]
fn a_second_worker_takes_dumps_while_a_case_is_held(rt: HostRuntime) -> Result<(), Fail> {
    let alloc = rt.alloc();
    let dumping = Dumping {
        workers: 2,
        every: 1,
    };
    let gate = Hold::until(alloc, 40, 39)?;
    let left = run_forty_with_dumps(&rt, alloc, dumping, &gate)?;
    assert!(rt; gate.each_once());
    assert!(rt; !gate.gave_up());
    assert_eq!(rt; gate.passed_before(), 39);
    expect_hit(&rt, alloc, &left, 40)
}
