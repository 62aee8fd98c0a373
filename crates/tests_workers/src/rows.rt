//! What forty cases leave, whatever the workers.

use crate::hold::Hold;
use crate::runs::{Left, run_forty};
use std::alloc::{AllocError, Global};
use std::process::Abort;
use std::test::Fail;

/// The text of forty cases, each of which begins with x as 0, and adds 1.
pub fn wanted_text(alloc: Global) -> Result<String, AllocError> {
    let mut text = String::new(alloc);
    for case in 1..41u32 {
        write!(&mut text, "case {case}\nthread 0 returned\nstatic C.x 1\n")?;
    }
    Ok(text)
}

/// Expects what forty cases leave: their text, nothing raised, and the one probe hit.
fn expect_forty(rt: &impl Abort, alloc: Global, left: &Left) -> Result<(), Fail> {
    let wanted = wanted_text(alloc)?;
    assert!(rt; left.text.as_slice() == wanted.as_bytes());
    assert!(rt; !left.raised);
    assert_eq!(rt; left.bits.as_str(), "1.");
    Ok(())
}

#[test]
fn each_number_of_workers_leaves_the_same(rt: HostRuntime) -> Result<(), Fail> {
    let alloc = rt.alloc();
    for workers in [1u32, 4, 16] {
        let gate = Hold::until(alloc, 40, 0)?;
        let left = run_forty(&rt, alloc, workers, &gate)?;
        assert!(rt; gate.each_once());
        expect_forty(&rt, alloc, &left)?;
    }
    Ok(())
}

#[test]
fn four_workers_pass_a_held_case(rt: HostRuntime) -> Result<(), Fail> {
    let alloc = rt.alloc();
    let gate = Hold::until(alloc, 40, 1)?;
    let left = run_forty(&rt, alloc, 4, &gate)?;
    assert!(rt; gate.each_once());
    assert!(rt; !gate.gave_up());
    assert!(rt; gate.passed_before() >= 1);
    expect_forty(&rt, alloc, &left)
}

// Each worker draws its next case where it has ended one, so the other one runs them all while case 1 is held. With fixed
// shares of the cases it would run half of them, and one worker alone would run none.
#[test]
fn a_second_worker_runs_all_other_cases(rt: HostRuntime) -> Result<(), Fail> {
    let alloc = rt.alloc();
    let gate = Hold::until(alloc, 40, 39)?;
    let left = run_forty(&rt, alloc, 2, &gate)?;
    assert!(rt; gate.each_once());
    assert!(rt; !gate.gave_up());
    assert_eq!(rt; gate.passed_before(), 39);
    expect_forty(&rt, alloc, &left)
}
