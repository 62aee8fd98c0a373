//! Execution data of files, as it is read part by part.
ghost use Rattle.std.specs.Prelude.{◌≡◌, ◌+◌, ◌≤◌, length, IfOk};
ghost use Rattle.jc_bytes.specs.Reader.{most_read};
ghost use Rattle.jc_command_exec.specs.Gathering.{length_of, Begins, FeedsOn, FeedsFile, Ends, ReadsFile, ReadsAlone};
ghost use Rattle.jc_command_work.specs.Handed.{BetweenFiles};

use jc_bytes::{Fail, Memory, are_bytes};
use jc_command_work::{Stop, exec_stop, read_stop};
use jc_exec::{PackedFeed, PackedStore};
use jc_outside::{Files, MOST_PART};
use std::alloc::Global;

/// What has come of the execution data of some files.
#[derive(Drop)]
pub enum Gathered<'a> {
    /// Their union.
    Union(PackedStore),
    /// The first of them that is refused stops the command.
    Refused(Stop<'a>),
}

/// What has come of some bytes of a file behind others.
#[derive(Drop)]
enum Feeding<'a> {
    /// They were fed.
    Fed(PackedFeed),
    /// A file in front is refused. The bytes are read for the faults alone, and dropped.
    Dropped(Stop<'a>),
}

/// No bytes of a file behind others.
fn begin<'a>(alloc: Global, gathered: Gathered<'a>) -> Feeding<'a>
    ensures { Begins gathered.entry result }
{
    match gathered {
        Gathered::Union(store) => Feeding::Fed(PackedFeed::begin(alloc, store)),
        Gathered::Refused(stop) => Feeding::Dropped(stop),
    }
}

/// A part more.
fn feed<'a>(alloc: Global, feeding: Feeding<'a>, part: &[u8]) -> Result<Feeding<'a>, Memory>
    requires { length_of feeding + length part.now ≤ most_read }
    ensures { IfOk result (λ later. FeedsOn feeding.entry part.now later) }
{
    match feeding {
        Feeding::Fed(feed) => Ok(Feeding::Fed(feed.feed(alloc, part)?)),
        Feeding::Dropped(stop) => Ok(Feeding::Dropped(stop)),
    }
}

/// What has come of the files once the one of this index has ended.
fn end<'a>(feeding: Feeding<'a>, index: u32, path: &'a str) -> Gathered<'a>
    ensures { Ends feeding.entry index path.entry result }
{
    match feeding {
        Feeding::Fed(feed) => match feed.finish() {
            Ok(store) => Gathered::Union(store),
            Err(fail) => Gathered::Refused(exec_stop(fail, index, path)),
        },
        Feeding::Dropped(stop) => Gathered::Refused(stop),
    }
}

/// Reads the file at a path part by part, each into the same buffer. A file behind a refused one is read to its end too.
fn feed_file<'a, F: Files>(
    alloc: Global,
    files: &mut F,
    path: &'a str,
    part: &mut Vec<u8>,
    first: Feeding<'a>,
) -> Result<Feeding<'a>, Stop<'a>>
    requires { length_of first ≡ 0 }
    ensures { BetweenFiles F.Files files.old files.new (FeedsFile F.landed path.entry.now first.entry) result }
{
    let mut feeding = first;
    let mut from = 0;
    let mut ended = false;
    'reading: while !ended {
        part.clear();
        ended = match files.read_part(alloc, path, from, part) {
            Ok(ended) => ended,
            Err(fault) => return Err(read_stop(fault, path)),
        };
        are_bytes(part.as_slice());
        feeding = feed(alloc, feeding, part)?;
        from += MOST_PART as u64;
    }
    Ok(feeding)
}

/// Reads the file at a path, the one of this index, behind those that were read.
pub fn read_on<'a, F: Files>(
    alloc: Global,
    files: &mut F,
    path: &'a str,
    index: u32,
    part: &mut Vec<u8>,
    gathered: Gathered<'a>,
) -> Result<Gathered<'a>, Stop<'a>>
    ensures { BetweenFiles F.Files files.old files.new (ReadsFile F.landed path.entry index gathered.entry) result }
{
    let feeding = feed_file(alloc, files, path, part, begin(alloc, gathered))?;
    Ok(end(feeding, index, path))
}

/// The execution data of one file, or how it stops a command.
pub fn read_alone<'a, F: Files>(
    alloc: Global,
    files: &mut F,
    path: &'a str,
) -> Result<Gathered<'a>, Stop<'a>>
    ensures { BetweenFiles F.Files files.old files.new (ReadsAlone F.landed path.entry) result }
{
    let nothing = Gathered::Union(PackedStore::new(alloc));
    let mut part = Vec::new(alloc);
    read_on(alloc, files, path, 0, &mut part, nothing)
}
