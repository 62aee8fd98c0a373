//! Files and writers that behave otherwise than those in memory.

use jc_base::{HostSink, MemoryFiles, MemorySink, Sink};
use jc_top::{OpenGate, Status, run_tool};
use std::alloc::{AllocError, Global};
use std::io;
use std::test::Fail;
use tests_lines::{Forgetful, WatchedFiles};

/// A writer that takes at most so many bytes of a piece.
#[derive(Drop)]
struct Slow {
    taken: Vec<u8>,
    most: usize,
}

impl io::Write for Slow {
    fn write(&mut self, piece: &[u8]) -> io::Result<usize> {
        let count = piece.len().min(self.most);
        self.taken.extend_from_slice(&piece[..count])?;
        Ok(count)
    }

    fn flush(&mut self) -> io::Result<()> {
        Ok(())
    }
}

#[test]
fn slow_writers_take_each_piece(rt: HostRuntime) -> Result<(), Fail> {
    let mut slow = Slow {
        taken: Vec::new(rt.alloc()),
        most: 2,
    };
    let whole = HostSink::new(&mut slow).put(b"abcde").is_ok();
    // A writer that takes nothing of a piece that isn't empty.
    slow.most = 0;
    let empty = HostSink::new(&mut slow).put(b"").is_ok();
    let refused = HostSink::new(&mut slow).put(b"f").is_err();
    assert!(rt; whole && empty && refused);
    assert!(rt; slow.taken.as_slice() == b"abcde".as_slice());
    Ok(())
}

/// One record of a class named A, with probes 0 and 2 of 3 hit.
const RECORD: &[u8] = b"\x01\xc0\xc0\x10\x07\x11\0\0\0\0\0\0\0\x01\0\x01A\x03\x05";

/// Words, which spaces part.
pub fn words(alloc: Global, line: &str) -> Result<Vec<String>, AllocError> {
    let mut words = Vec::new(alloc);
    for word in line.split_whitespace() {
        words.push(String::from_str(alloc, word)?)?;
    }
    Ok(words)
}

#[test]
fn what_lands_is_what_the_files_say(rt: HostRuntime) -> Result<(), Fail> {
    let alloc = rt.alloc();
    let mut files = WatchedFiles {
        inner: MemoryFiles::new(alloc, &[])?,
        writes: Forgetful,
    };
    files.inner.with(alloc, "a.exec", RECORD)?;
    let mut sink = MemorySink::new(alloc, &[])?;
    let mut out = MemorySink::new(alloc, &[])?;
    let words = words(alloc, "merge --destfile o a.exec")?;
    let status = run_tool(
        &rt, alloc, &words, &mut files, &mut out, &mut sink, &OpenGate,
    );
    let left = files.inner.get("o") == Some([].as_slice());
    assert!(rt; matches!(status, Status::Done) && left);
    Ok(())
}
