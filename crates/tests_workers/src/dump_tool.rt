//! The command `run` with dumps, on workers.

use crate::hold::Hold;
use crate::tool::{forty_files, held_first, is_done};
use jc_base::MemoryFiles;
use std::alloc::{AllocError, Global};
use std::marker::Sync;
use std::process::Abort;
use std::test::Fail;
use std::thread::Threads;

/// A class A in hexadecimal digits, by the JVM Specification, 4.1 to 4.10. Its static method `abs (I)I` has two returns, and so
/// the instrumented class has two probes.
const CLASS: [&str; 6] = [
    // magic, version 52, the count of the pool
    "cafebabe000000340009",
    // 1 to 4: the classes A and java/lang/Object
    "010001410700010100106a6176612f6c616e672f4f626a656374070003",
    // 5 to 8: abs (I)I, Code, StackMapTable
    "01000361627301000428492949010004436f646501000d537461636b4d61705461626c65",
    // flags, this class, superclass, no interfaces, no fields
    "00210002000400000000",
    // the method: iload_0, ifge, iload_0, ineg, ireturn, iload_0, ireturn
    "0001000900050006000100070000001e00010001000000091a9c00061a74ac1aac",
    // no rows, the frame behind the jump, no attributes
    "000000010008000000030001070000",
];

/// How many bytes execution data without a record has.
const HEADER: usize = 5;

/// The class file.
fn class_file(alloc: Global) -> Result<Vec<u8>, Fail> {
    let mut bytes = Vec::new(alloc);
    for part in CLASS {
        bytes.extend_from_slice(&hex::decode(alloc, part)?)?;
    }
    Ok(bytes)
}

/// The text of a run plan of forty cases, of which the first alone hits the first probe. All others hit the second.
fn held_plan(alloc: Global) -> Result<String, AllocError> {
    let mut text = String::from_str(alloc, "case\nthread A.abs -5\nschedule robin 40\n")?;
    for _ in 1..40 {
        text.push_str("case\nthread A.abs 5\nschedule robin 40\n")?;
    }
    Ok(text)
}

/// The path of a dump.
fn dump_path(alloc: Global, dump: u32) -> Result<String, AllocError> {
    format!(in alloc; "d/{dump}.exec")
}

/// The hits of the class in a file of execution data: 1 for the first probe, 2 for the second and 3 for both. None where there is
/// no such file.
fn hits(files: &MemoryFiles, path: &str) -> Option<u8> {
    let bytes = files.get(path)?;
    match bytes.last() {
        Some(bits) => Some(if bytes.len() == HEADER { 0 } else { *bits }),
        None => None,
    }
}

/// The files that the run plan leaves on two workers, with a dump behind so many cases each, where the first case is held until all
/// others have begun.
fn run_held<R: Threads + Abort + Sync>(
    rt: &R,
    alloc: Global,
    line: &str,
) -> Result<MemoryFiles, Fail> {
    let mut files = MemoryFiles::new(alloc, &[])?;
    files.with(alloc, "A.class", &class_file(alloc)?)?;
    files.with(alloc, "p.txt", held_plan(alloc)?.as_bytes())?;
    let none = Hold::until(alloc, 0, 0)?;
    assert!(rt; is_done(rt, alloc, &mut files, &none, "instrument --dest i A.class")?);
    let gate = Hold::until(alloc, 40, 39)?;
    assert!(rt; is_done(rt, alloc, &mut files, &gate, line)?);
    assert!(rt; held_first(&gate));
    Ok(files)
}

// Case 40 begins when the other worker has taken dump 39, and case 1 runs then. So what it hits is in none of the dumps 2 to 39: it
// is in its own, or in the last one, which may be taken between.
#[test]
fn a_held_case_is_in_no_dump_taken_before(rt: HostRuntime) -> Result<(), Fail> {
    let alloc = rt.alloc();
    let line = "run --plan p.txt --destfile o --dumps d --every 1 --workers 2 i/A.class";
    let files = run_held(&rt, alloc, line)?;
    for dump in 2..40u32 {
        let path = dump_path(alloc, dump)?;
        assert!(rt; matches!(hits(&files, path.as_str()), Some(2)));
    }
    let own = hits(&files, "d/1.exec").unwrap_or(0);
    let last = hits(&files, "d/40.exec").unwrap_or(0);
    assert_eq!(rt; own | last, 3u8);
    assert!(rt; matches!(hits(&files, "o"), Some(0)));
    Ok(())
}

// Here case 1 has no dump of its own: what it hits is in the last one or in the rest, once.
#[test]
fn a_held_case_is_in_the_last_dump_or_in_the_rest(rt: HostRuntime) -> Result<(), Fail> {
    let alloc = rt.alloc();
    let line = "run --plan p.txt --destfile o --dumps d --every 2 --workers 2 i/A.class";
    let files = run_held(&rt, alloc, line)?;
    for dump in 1..20u32 {
        let path = dump_path(alloc, dump)?;
        assert!(rt; matches!(hits(&files, path.as_str()), Some(2)));
    }
    let last = hits(&files, "d/20.exec").unwrap_or(0);
    let rest = hits(&files, "o").unwrap_or(0);
    assert!(rt; (last == 3 && rest == 0) || (last == 2 && rest == 1));
    assert!(rt; hits(&files, "d/21.exec").is_none());
    Ok(())
}

/// The words that merge forty dumps and the rest.
fn merge_words(alloc: Global) -> Result<String, AllocError> {
    let mut words = String::from_str(alloc, "merge --destfile merged")?;
    for dump in 1..41u32 {
        words.push_str(" ")?;
        let path = dump_path(alloc, dump)?;
        words.push_str(path.as_str())?;
    }
    words.push_str(" o")?;
    Ok(words)
}

/// Whether two paths hold the same bytes.
fn are_alike(files: &MemoryFiles, one: &str, other: &str) -> bool {
    match files.get(one) {
        Some(bytes) => match files.get(other) {
            Some(others) => bytes == others,
            None => false,
        },
        None => false,
    }
}

#[test]
fn dumps_and_rest_are_together_what_run_writes(rt: HostRuntime) -> Result<(), Fail> {
    let alloc = rt.alloc();
    let runs = [
        "run --plan p.txt --destfile o --dumps d --every 1 --workers 1 i/C.class",
        "run --plan p.txt --destfile o --dumps d --every 1 --workers 4 i/C.class",
        "run --plan p.txt --destfile o --dumps d --every 1 --workers 16 i/C.class",
    ];
    for run in runs {
        let mut files = forty_files(alloc)?;
        let none = Hold::until(alloc, 40, 0)?;
        let whole = "run --plan p.txt --destfile whole i/C.class";
        assert!(rt; is_done(&rt, alloc, &mut files, &none, "instrument --dest i C.class")?);
        assert!(rt; is_done(&rt, alloc, &mut files, &none, whole)?);
        assert!(rt; is_done(&rt, alloc, &mut files, &none, run)?);
        let merge = merge_words(alloc)?;
        assert!(rt; is_done(&rt, alloc, &mut files, &none, merge.as_str())?);
        assert!(rt; are_alike(&files, "merged", "whole"));
    }
    Ok(())
}
