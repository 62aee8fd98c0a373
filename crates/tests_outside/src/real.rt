//! Files and texts of the machine, in the folder that the tests run in.
ghost use Rattle.std.specs.Prelude.{◌≡◌, ◌<◌, ◌%◌};

use crate::fakes::words;
use jc_base::{FileFault, Files, HostFiles, HostSink, MOST_READ, MemorySink, Sink, SinkFault};
use jc_top::{OpenGate, Status, run_tool};
use std::alloc::Global;
use std::marker::Sync;
use std::os::unix::fs::symlink;
use std::test::Fail;
use std::thread::Threads;
use std::{fs, io};

/// The folder of the files that are written and read.
const FILES: &str = "jc_rows_files";

/// The folder that is listed.
const LISTED: &str = "jc_rows_listed";

#[test]
fn class_files_of_a_folder_are_listed(rt: HostRuntime) -> Result<(), Fail> {
    let alloc = rt.alloc();
    let _ = fs::remove_dir_all(&rt, LISTED);
    fs::create_dir_all(&rt, "jc_rows_listed/sub.class")?;
    for path in [
        "jc_rows_listed/b.class",
        "jc_rows_listed/B$1.class",
        "jc_rows_listed/B.class",
        "jc_rows_listed/a.txt",
        "jc_rows_listed/sub.class/C.class",
    ] {
        fs::write(&rt, path, "")?;
    }
    // What a link leads to is no file of the folder's own.
    symlink(&rt, "b.class", "jc_rows_listed/link.class")?;
    let mut files = HostFiles::new(&rt);
    let listed = files.list(alloc, LISTED);
    let again = files.list(alloc, "jc_rows_listed/");
    let missing = files.list(alloc, "jc_rows_listed/none");
    let no_folder = files.list(alloc, "jc_rows_listed/b.class");
    assert!(rt; is_listing(&listed) && is_listing(&again));
    assert!(rt; matches!(missing, Err(FileFault::Failed)));
    assert!(rt; matches!(no_folder, Err(FileFault::Failed)));
    fs::remove_dir_all(&rt, LISTED)?;
    Ok(())
}

/// Whether a listing is that of the folder above.
fn is_listing(listed: &Result<Vec<String>, FileFault>) -> bool {
    let wanted = [
        "jc_rows_listed/B$1.class",
        "jc_rows_listed/B.class",
        "jc_rows_listed/b.class",
    ];
    match listed {
        Ok(paths) => paths.iter().map(|path| path.as_str()).eq(wanted),
        Err(_) => false,
    }
}

/// The folder of the file that is read in parts.
const PARTS: &str = "jc_rows_parts";

/// What reading a part of a file answers, and how many bytes it gives.
fn part_length(rt: &HostRuntime, path: &str, from: u64) -> (Result<bool, FileFault>, usize)
    requires aligned { from % 65536 ≡ 0 }
    requires within { from < 67108864 }
{
    let mut into = Vec::new(rt.alloc());
    let answer = HostFiles::new(rt).read_part(rt.alloc(), path, from, &mut into);
    (answer, into.len())
}

#[test]
fn files_are_read_in_parts(rt: HostRuntime) -> Result<(), Fail> {
    let _ = fs::remove_dir_all(&rt, PARTS);
    fs::create_dir_all(&rt, PARTS)?;
    let path = "jc_rows_parts/a";
    let missing = part_length(&rt, path, 0);
    make_zeros(&rt, path, 65536)?;
    let whole = [part_length(&rt, path, 0), part_length(&rt, path, 65536)];
    make_zeros(&rt, path, 65537)?;
    let more = [part_length(&rt, path, 0), part_length(&rt, path, 65536)];
    make_zeros(&rt, path, MOST_READ as u64)?;
    let largest = part_length(&rt, path, 67_043_328);
    make_zeros(&rt, path, MOST_READ as u64 + 1)?;
    let (too_large, _) = part_length(&rt, path, 67_043_328);
    assert_eq!(rt; missing, (Err(FileFault::Failed), 0));
    assert_eq!(rt; whole, [(Ok(true), 65536), (Ok(true), 0)]);
    assert_eq!(rt; more, [(Ok(false), 65536), (Ok(true), 1)]);
    assert_eq!(rt; largest, (Ok(true), 65536));
    assert_eq!(rt; too_large, Err(FileFault::TooLarge));
    fs::remove_dir_all(&rt, PARTS)?;
    Ok(())
}

/// The folder of a text.
const TEXTS: &str = "jc_rows_texts";

#[test]
fn files_are_written_and_read(rt: HostRuntime) -> Result<(), Fail> {
    let alloc = rt.alloc();
    let mut files = HostFiles::new(&rt);
    let mut into = Vec::new(alloc);
    let _ = fs::remove_dir_all(&rt, FILES);
    let answers = [
        files.read(alloc, "jc_rows_files/a", &mut into),
        // The folders on the path are made.
        files.write("jc_rows_files/b/a", b"abc"),
        files.write("jc_rows_files/b/a", b"de"),
        files.read(alloc, "jc_rows_files/b/a", &mut into),
        // A folder stands at the path.
        files.write("jc_rows_files/b", b"abc"),
        files.read(alloc, "jc_rows_files/b", &mut into),
    ];
    let failed = Err(FileFault::Failed);
    assert_eq!(rt; answers, [failed, Ok(()), Ok(()), Ok(()), failed, failed]);
    assert_eq!(rt; into.as_slice(), b"de".as_slice());
    fs::remove_dir_all(&rt, FILES)?;
    Ok(())
}

/// The folder of the files of which one is missing.
const NAMED: &str = "jc_rows_named";

/// Whether a run over these files ends with this message, as one that couldn't read.
fn cant_read<R: Threads + Sync, F: Files>(
    rt: &R,
    alloc: Global,
    files: &mut F,
    line: &str,
    message: &[u8],
) -> Result<bool, Fail> {
    let mut out = MemorySink::new(alloc, &[])?;
    let mut err = MemorySink::new(alloc, &[])?;
    let words = words(alloc, line)?;
    let status = run_tool(rt, alloc, &words, files, &mut out, &mut err, &OpenGate);
    Ok(matches!(status, Status::ReadFault) && err.bytes() == message)
}

#[test]
fn a_message_names_the_path_whose_read_failed(rt: HostRuntime) -> Result<(), Fail> {
    let alloc = rt.alloc();
    let mut files = HostFiles::new(&rt);
    let _ = fs::remove_dir_all(&rt, NAMED);
    let written = files.write("jc_rows_named/a", b"\x01\xc0\xc0\x10\x07");
    assert!(rt; written.is_ok());
    // The second of two files, and a folder behind one that is listed.
    let second = "merge --destfile jc_rows_named/o jc_rows_named/a jc_rows_named/b";
    let message = b"cannot read jc_rows_named/b\n";
    assert!(rt; cant_read(&rt, alloc, &mut files, second, message)?);
    let folder = "classinfo jc_rows_named/ jc_rows_named/none/";
    let message = b"cannot read jc_rows_named/none\n";
    assert!(rt; cant_read(&rt, alloc, &mut files, folder, message)?);
    fs::remove_dir_all(&rt, NAMED)?;
    Ok(())
}

/// Makes a file of zeros.
fn make_zeros(rt: &HostRuntime, path: &str, len: u64) -> io::Result<()> {
    let file = fs::create(rt, path)?;
    file.set_len(len)
}

/// What reading a file answers, and how many bytes it gives.
fn read_length(rt: &HostRuntime, alloc: Global, path: &str) -> (Result<(), FileFault>, usize) {
    let mut into = Vec::new(alloc);
    let answer = HostFiles::new(rt).read(alloc, path, &mut into);
    (answer, into.len())
}

/// The folder of the file below.
const LARGE: &str = "jc_rows_large";

#[test]
fn the_largest_file_is_read(rt: HostRuntime) -> Result<(), Fail> {
    let _ = fs::remove_dir_all(&rt, LARGE);
    fs::create_dir_all(&rt, LARGE)?;
    make_zeros(&rt, "jc_rows_large/a", MOST_READ as u64)?;
    let read = read_length(&rt, rt.alloc(), "jc_rows_large/a");
    assert_eq!(rt; read, (Ok(()), MOST_READ));
    // One byte more.
    make_zeros(&rt, "jc_rows_large/a", MOST_READ as u64 + 1)?;
    let (answer, _) = read_length(&rt, rt.alloc(), "jc_rows_large/a");
    assert_eq!(rt; answer, Err(FileFault::TooLarge));
    fs::remove_dir_all(&rt, LARGE)?;
    Ok(())
}

#[test]
fn texts_are_written(rt: HostRuntime) -> Result<(), Fail> {
    let _ = fs::remove_dir_all(&rt, TEXTS);
    fs::create_dir_all(&rt, TEXTS)?;
    let mut sink = HostSink::new(fs::create(&rt, "jc_rows_texts/a")?);
    let written = [sink.put(b"ab"), sink.put(b""), sink.put(b"cd")];
    // A file that was opened for reading takes nothing.
    let mut closed = HostSink::new(fs::open(&rt, "jc_rows_texts/a")?);
    let refused = closed.put(b"e");
    let text = fs::read_to_string(&rt, "jc_rows_texts/a")?;
    assert_eq!(rt;
        (written, refused),
        ([Ok(()), Ok(()), Ok(())], Err(SinkFault::Failed))
    );
    assert_eq!(rt; text.as_str(), "abcd");
    fs::remove_dir_all(&rt, TEXTS)?;
    Ok(())
}
