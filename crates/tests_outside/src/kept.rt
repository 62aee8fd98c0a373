//! Files of which one holds other bytes than were written to it. What `cover` runs and prints is what it reads back.
ghost use Rattle.std.specs.Prelude.{◌≡◌};

use crate::fakes::words;
use jc_base::{MemoryFiles, MemorySink};
use jc_top::{Fault, OpenGate, Status, run_tool};
use std::alloc::Global;
use std::marker::{PhantomData, Sync};
use std::test::Fail;
use std::thread::Threads;
use tests_lines::{WatchedFiles, Writes};

/// The path whose file holds other bytes.
const TARGET: &str = "out/A.class";

/// A class A of version 52, whose one method is `static int abs(int)`, with a stack map frame at its instruction 5.
const ORIGINAL: &[u8] = b"\xca\xfe\xba\xbe\0\0\x004\0\x09\
      \x01\0\x01A\x07\0\x01\x01\0\x10java/lang/Object\x07\0\x03\
      \x01\0\x03abs\x01\0\x04(I)I\x01\0\x04Code\x01\0\x0dStackMapTable\
      \0!\0\x02\0\x04\0\0\0\0\
      \0\x01\0\x09\0\x05\0\x06\0\x01\0\x07\0\0\0\x1e\0\x01\0\x01\
      \0\0\0\x09\x1a\x9c\0\x06\x1at\xac\x1a\xac\
      \0\0\0\x01\0\x08\0\0\0\x03\0\x01\x07\0\0";

/// A class A with the same id and another number of probes. Its `abs` hits the third of three probes, and returns its argument.
const THREE_PROBES: &[u8] = b"\xca\xfe\xba\xbe\0\0\x004\0\x1b\
      \x01\0\x01A\x07\0\x01\x01\0\x10java/lang/Object\x07\0\x03\
      \x01\0\x0b$jacocoData\x01\0\x02[Z\x01\0\x03abs\x01\0\x04(I)I\
      \x01\0\x0b$jacocoInit\x01\0\x04()[Z\x0c\0\x09\0\x0a\x0a\0\x02\0\x0b\x01\0\x04Code\x0c\0\x05\0\x06\x09\0\x02\0\x0e\
      \x05\x93\xf5\x9c\xa5\xd2\xd3D\x8c\x08\0\x01\
      \x01\0$org/jacoco/agent/rt/internal/Offline\x07\0\x13\
      \x01\0\x09getProbes\x01\0\x18(JLjava/lang/String;I)[Z\
      \x0c\0\x15\0\x16\x0a\0\x14\0\x17\x07\0\x06\x01\0\x0dStackMapTable\
      \0!\0\x02\0\x04\0\0\0\x01\x10\x8a\0\x05\0\x06\0\0\
      \0\x02\0\x09\0\x07\0\x08\0\x01\0\x0d\0\0\0\x16\0\x03\0\x02\
      \0\0\0\x0a\xb8\0\x0cL+\x05\x04T\x1a\xac\0\0\0\0\
      \x10\x0a\0\x09\0\x0a\0\x01\0\x0d\0\0\x005\0\x04\0\0\0\0\0\x17\
      \xb2\0\x0fY\xc7\0\x12W\x14\0\x10\x13\0\x12\x06\xb8\0\x18Y\xb3\0\x0f\xb0\
      \0\0\0\x01\0\x1a\0\0\0\x0c\0\x01\xff\0\x16\0\0\0\x01\x07\0\x19\0\0";

/// No class file.
const NO_CLASS: &[u8] = b"\xca\xfe\xba";

/// What a path holds after each write to it.
trait Landing {
    ghost use Rattle.std.specs.Prelude.{◌≡◌, List, ℕ};

    ghost bytes: { List ℕ };

    fn bytes() -> &'static [u8]
        ensures { result.now ≡ bytes };
}

/// The class before it was instrumented.
#[derive(Clone, Copy)]
struct Original;

impl Landing for Original {
    ghost use Rattle.tests_outside.specs.declared.kept.TheConstants.{ORIGINAL};

    ghost bytes = { ORIGINAL.now };

    fn bytes() -> &'static [u8] {
        ORIGINAL
    }
}

/// The class with three probes.
#[derive(Clone, Copy)]
struct ThreeProbes;

impl Landing for ThreeProbes {
    ghost use Rattle.tests_outside.specs.declared.kept.TheConstants.{THREE_PROBES};

    ghost bytes = { THREE_PROBES.now };

    fn bytes() -> &'static [u8] {
        THREE_PROBES
    }
}

/// No class.
#[derive(Clone, Copy)]
struct NoClass;

impl Landing for NoClass {
    ghost use Rattle.tests_outside.specs.declared.kept.TheConstants.{NO_CLASS};

    ghost bytes = { NO_CLASS.now };

    fn bytes() -> &'static [u8] {
        NO_CLASS
    }
}

/// Writes of which those to one path leave what lands there, whatever is written.
#[derive(Clone, Copy)]
struct Kept<L> {
    landing: PhantomData<L>,
}

impl<L: Landing> Writes for Kept<L> {
    ghost use Rattle.std.specs.Prelude.{bytes_eq, cond};
    ghost use Rattle.tests_outside.specs.declared.kept.TheConstants.{TARGET};

    ghost landed = { λ path bytes. cond (bytes_eq path TARGET.now) L.bytes bytes };

    fn landed<'a>(&self, path: &str, bytes: &'a [u8]) -> &'a [u8] {
        if path == TARGET { L::bytes() } else { bytes }
    }

    fn hear(&mut self, _path: &str, _is_done: bool) {}
}

/// What a run of `cover` over the class left.
#[derive(Drop)]
struct Left<L> {
    status: Status,
    files: WatchedFiles<Kept<L>>,
    out: MemorySink,
    err: MemorySink,
}

/// Runs `cover` over the class and a run plan that calls `abs` with 5.
fn cover<L: Landing, R: Threads + Sync>(rt: &R, alloc: Global) -> Result<Left<L>, Fail> {
    let writes = Kept {
        landing: PhantomData,
    };
    let mut files = WatchedFiles {
        inner: MemoryFiles::new(alloc, &[])?,
        writes,
    };
    let plan = b"case\nthread A.abs 5\nschedule robin 40\n";
    files.inner.with(alloc, "A.class", ORIGINAL)?;
    files.inner.with(alloc, "p.txt", plan)?;
    let mut out = MemorySink::new(alloc, &[])?;
    let mut err = MemorySink::new(alloc, &[])?;
    let line = "cover --dest out --plan p.txt --destfile o --csv r A.class";
    let words = words(alloc, line)?;
    let status = run_tool(rt, alloc, &words, &mut files, &mut out, &mut err, &OpenGate);
    Ok(Left {
        status,
        files,
        out,
        err,
    })
}

/// The report on the class, none of whose probes is hit.
const NO_HITS: &[u8] =
    b"GROUP,PACKAGE,CLASS,INSTRUCTION_MISSED,INSTRUCTION_COVERED,BRANCH_MISSED,BRANCH_COVERED,\
      LINE_MISSED,LINE_COVERED,COMPLEXITY_MISSED,COMPLEXITY_COVERED,METHOD_MISSED,METHOD_COVERED\n\
      JaCoCo Coverage Report,default,A,7,0,2,0,0,0,2,0,1,0\n";

#[test]
fn what_runs_is_what_was_read_back(rt: HostRuntime) -> Result<(), Fail> {
    let left = cover::<Original, _>(&rt, rt.alloc())?;
    let text = b"instrumented A.class 2\ncase 1\nthread 0 returned 5\n";
    let no_record = b"\x01\xc0\xc0\x10\x07";
    assert!(rt; matches!(left.status, Status::Done));
    assert!(rt; left.out.bytes() == text.as_slice());
    assert!(rt; left.err.bytes() == b"".as_slice());
    assert!(rt; left.files.inner.get("o") == Some(no_record.as_slice()));
    assert!(rt; left.files.inner.get("r") == Some(NO_HITS));
    Ok(())
}

#[test]
fn a_record_with_other_probes_clashes(rt: HostRuntime) -> Result<(), Fail> {
    let left = cover::<ThreeProbes, _>(&rt, rt.alloc())?;
    let text = b"o: class 93f59ca5d2d3448c: A with 3 probes, A with 2 probes\n";
    let record = b"\x01\xc0\xc0\x10\x07\x11\x93\xf5\x9c\xa5\xd2\xd3\x44\x8c\0\x01A\x03\x04";
    let clashes = matches!(left.status, Status::Refused(Fault::Exec { path: 0, .. }));
    assert!(rt; clashes);
    assert!(rt; left.out.bytes() == b"instrumented A.class 2\n".as_slice());
    assert!(rt; left.err.bytes() == text.as_slice());
    assert!(rt; left.files.inner.get("o") == Some(record.as_slice()));
    assert!(rt; left.files.inner.get("r").is_none());
    Ok(())
}

#[test]
fn what_was_read_back_may_be_no_class(rt: HostRuntime) -> Result<(), Fail> {
    let left = cover::<NoClass, _>(&rt, rt.alloc())?;
    let refused = matches!(left.status, Status::Refused(Fault::Class { path: 0, .. }));
    assert!(rt; refused);
    assert!(rt; left.out.bytes() == b"instrumented A.class 2\n".as_slice());
    assert!(rt; left.err.bytes() == b"A.class: NotAClass at 0\n".as_slice());
    assert!(rt; left.files.inner.get("o").is_none() && left.files.inner.get("r").is_none());
    Ok(())
}
