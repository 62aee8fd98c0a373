//! The end of a command that has prepared what it writes.
ghost use Rattle.jc_command_work.specs.Handed.{OnOutside};
ghost use Rattle.jc_top.specs.Completes.{Completes, CompletesListing};

use jc_command_exec::{Listing, put_listing};
use jc_command_work::{Outside, Status, Stop, Write, report, write_all};
use jc_outside::{Files, Sink};
use std::alloc::Global;

/// Makes the writes that were prepared, or reports what had stopped the command. Answers with its status.
pub fn complete<'a, F: Files, O: Sink, E: Sink>(
    alloc: Global,
    outside: &mut Outside<'_, '_, '_, F, O, E>,
    prepared: Result<Vec<Write<'a>>, Stop<'a>>,
) -> Status
    ensures { OnOutside F.Files O.Sink E.Sink outside.old outside.new (Completes F.landed prepared.entry) result }
{
    let writes = match prepared {
        Ok(writes) => writes,
        Err(stop) => return report(alloc, outside.err, stop),
    };
    match write_all(outside, &writes) {
        Ok(()) => Status::Done,
        Err(stop) => report(alloc, outside.err, stop),
    }
}

/// Puts the lines that were prepared, or reports what had stopped the command. Answers with its status.
pub fn complete_listing<'a, F: Files, O: Sink, E: Sink>(
    alloc: Global,
    outside: &mut Outside<'_, '_, '_, F, O, E>,
    prepared: Result<Listing<'a>, Stop<'a>>,
) -> Status
    ensures { OnOutside F.Files O.Sink E.Sink outside.old outside.new (CompletesListing F.landed prepared.entry) result }
{
    let listing = match prepared {
        Ok(listing) => listing,
        Err(stop) => return report(alloc, outside.err, stop),
    };
    if let Err(stop) = put_listing(alloc, outside.out, &listing) {
        return report(alloc, outside.err, stop);
    }
    Status::Done
}
