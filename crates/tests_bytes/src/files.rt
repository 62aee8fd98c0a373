//! Files and texts in memory, whose calls fail where it is planned.

use jc_base::{FileFault, Files, MemoryFiles, MemorySink, Sink, SinkFault};
use std::alloc::Global;
use tests_lines::{Answer, Forgetful, WatchedFiles, bytes, listed};

/// Makes no files, of which calls with these numbers are to fail.
fn new_files(
    alloc: Global,
    files: &mut Option<MemoryFiles>,
    failing: &str,
    out: &mut Answer,
) -> Option<()> {
    let failing = listed(alloc, failing, out)?;
    *files = Some(out.got(MemoryFiles::new(alloc, &failing))?);
    out.put("made");
    Some(())
}

/// Places a file.
fn place(
    alloc: Global,
    files: &mut MemoryFiles,
    path: &str,
    words: &[&str],
    out: &mut Answer,
) -> Option<()> {
    let bytes = bytes(alloc, words, out)?;
    out.got(files.with(alloc, path, &bytes))?;
    out.put("placed");
    Some(())
}

/// Puts what came of a read or a write.
fn put_outcome(outcome: Result<(), FileFault>, out: &mut Answer) {
    match outcome {
        Ok(()) => out.put("done"),
        Err(fault) => out.debug(&fault),
    }
}

/// Reads a file behind these bytes, and puts what came of it, and the bytes.
fn read(
    alloc: Global,
    files: &mut impl Files,
    path: &str,
    words: &[&str],
    out: &mut Answer,
) -> Option<()> {
    let mut into = bytes(alloc, words, out)?;
    put_outcome(files.read(alloc, path, &mut into), out);
    out.put(" ");
    out.bytes_0x(&into);
    Some(())
}

/// Writes a file, and puts what came of it.
fn write_file(
    alloc: Global,
    files: &mut impl Files,
    path: &str,
    words: &[&str],
    out: &mut Answer,
) -> Option<()> {
    let bytes = bytes(alloc, words, out)?;
    put_outcome(files.write(path, &bytes), out);
    Some(())
}

/// Puts what a path holds.
fn put_file(files: &MemoryFiles, path: &str, out: &mut Answer) -> Option<()> {
    match files.get(path) {
        Some(bytes) => out.bytes_0x(bytes),
        None => out.put("none"),
    }
    Some(())
}

/// Writes a file where writes leave nothing, and puts what came of it, and what the path holds.
fn forget(alloc: Global, path: &str, words: &[&str], out: &mut Answer) -> Option<()> {
    let mut files = WatchedFiles {
        inner: out.got(MemoryFiles::new(alloc, &[]))?,
        writes: Forgetful,
    };
    write_file(alloc, &mut files, path, words, out)?;
    out.put(" ");
    put_file(&files.inner, path, out)
}

/// What a call on files that are there answers.
fn of_made(alloc: Global, files: &mut MemoryFiles, words: &[&str], out: &mut Answer) -> Option<()> {
    match words {
        ["with", path, text @ ..] => place(alloc, files, path, text, out),
        ["read", path, text @ ..] => read(alloc, files, path, text, out),
        ["write", path, text @ ..] => write_file(alloc, files, path, text, out),
        ["get", path] => put_file(files, path, out),
        words => out.unknown(words),
    }
}

/// What a call on files answers. The calls behind `new` are on the files that it makes.
pub fn of_files(
    alloc: Global,
    files: &mut Option<MemoryFiles>,
    words: &[&str],
    out: &mut Answer,
) -> Option<()> {
    match words {
        ["new", failing] => new_files(alloc, files, failing, out),
        ["forget", path, text @ ..] => forget(alloc, path, text, out),
        words => match files {
            Some(files) => of_made(alloc, files, words, out),
            None => out.wrong("no files"),
        },
    }
}

/// Makes an empty text, of which calls with these numbers are to fail.
fn new_sink(
    alloc: Global,
    sink: &mut Option<MemorySink>,
    failing: &str,
    out: &mut Answer,
) -> Option<()> {
    let failing = listed(alloc, failing, out)?;
    *sink = Some(out.got(MemorySink::new(alloc, &failing))?);
    out.put("made");
    Some(())
}

/// Appends a piece to a text.
fn append(alloc: Global, sink: &mut impl Sink, words: &[&str], out: &mut Answer) -> Option<()> {
    let piece = bytes(alloc, words, out)?;
    match sink.put(&piece) {
        Ok(()) => out.put("done"),
        Err(SinkFault::Failed) => out.put("Failed"),
    }
    Some(())
}

/// What a call on a text that is there answers.
fn of_text(alloc: Global, sink: &mut MemorySink, words: &[&str], out: &mut Answer) -> Option<()> {
    match words {
        ["put", text @ ..] => append(alloc, sink, text, out),
        ["bytes"] => {
            out.bytes_0x(sink.bytes());
            Some(())
        }
        words => out.unknown(words),
    }
}

/// What a call on a text answers. The calls behind `new` are on the text that it makes.
pub fn of_sink(
    alloc: Global,
    sink: &mut Option<MemorySink>,
    words: &[&str],
    out: &mut Answer,
) -> Option<()> {
    match words {
        ["new", failing] => new_sink(alloc, sink, failing, out),
        words => match sink {
            Some(sink) => of_text(alloc, sink, words, out),
            None => out.wrong("no text"),
        },
    }
}
