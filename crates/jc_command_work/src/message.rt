//! The last message of a command.
ghost use Rattle.std.specs.Prelude.{◌≡◌, Some, option_map, string_bytes, IfOk};
ghost use Rattle.jc_command_work.specs.Texts.{cannot_read, cannot_write};
ghost use Rattle.jc_command_work.specs.Part.{misused};
ghost use Rattle.jc_command_work.specs.Ending.{SaysErr, ReportsErr};
ghost use Rattle.jc_command_work.specs.Seen.{stop_seen};
ghost use Rattle.jc_command_work.specs.Stopping.{message_seen, status_seen};

use crate::Status;
use crate::fault_text::fault_text;
use crate::stop::Stop;
use jc_outside::Sink;
use std::alloc::{AllocError, Global};

/// What is printed where the words are of no stated form.
const USAGE: &str =
    "usage: jcov COMMAND OPTIONS FILE..\ncommands: instrument run merge report execinfo classinfo cover refs lines check\n";

/// Writes a last message. A failure changes nothing else.
fn say<E: Sink>(err: &mut E, text: &[u8])
    ensures { SaysErr text.now (E.told err.old) (E.told err.new) (E.faults err.old) (E.faults err.new) }
{
    match err.put(text) {
        Ok(()) => {}
        Err(_) => {}
    }
}

/// Says that the words are of no stated form.
pub fn report_usage<E: Sink>(err: &mut E) -> Status
    ensures does { ReportsErr (Some misused) (E.told err.old) (E.told err.new) (E.faults err.old) (E.faults err.new) result }
    ensures usage { result ≡ Status.Usage }
{
    say(err, USAGE.as_bytes());
    Status::Usage
}

fn cannot_read(alloc: Global, path: &str) -> Result<String, AllocError>
    ensures { IfOk result (λ text. string_bytes text ≡ cannot_read path.now) }
{
    format!(in alloc; "cannot read {path}\n")
}

fn cannot_write(alloc: Global, path: &str) -> Result<String, AllocError>
    ensures { IfOk result (λ text. string_bytes text ≡ cannot_write path.now) }
{
    format!(in alloc; "cannot write {path}\n")
}

/// What is said of a command that ended early. Nothing is said of want of memory.
fn message(alloc: Global, stop: &Stop<'_>) -> Result<Option<Vec<u8>>, AllocError>
    ensures { IfOk result (λ text. option_map (λ t. t.items) text ≡ message_seen stop.now) }
{
    match stop {
        Stop::Memory => Ok(None),
        Stop::Read(path) => Ok(Some(cannot_read(alloc, path)?.into_bytes())),
        Stop::Write(path) => Ok(Some(cannot_write(alloc, path)?.into_bytes())),
        Stop::Output => Ok(Some(Vec::from_slice(alloc, b"cannot write output\n")?)),
        Stop::Refused { file, fault } => Ok(Some(fault_text(alloc, file, fault)?)),
        Stop::Clash { line, .. } => Ok(Some(Vec::from_slice(alloc, line)?)),
    }
}

/// The status of a command that ended early.
fn status_of(stop: Stop<'_>) -> Status
    ensures { result ≡ status_seen stop.entry }
{
    match stop {
        Stop::Memory => Status::Memory,
        Stop::Read(_) => Status::ReadFault,
        Stop::Write(_) | Stop::Output => Status::WriteFault,
        Stop::Refused { fault, .. } => Status::Refused(fault),
        Stop::Clash { fault, line: _line } => Status::Refused(fault),
    }
}

/// Says why a command ended early, and answers with its status.
pub fn report<E: Sink>(alloc: Global, err: &mut E, stop: Stop<'_>) -> Status
    ensures { ReportsErr (stop_seen stop.entry) (E.told err.old) (E.told err.new) (E.faults err.old) (E.faults err.new) result }
{
    match message(alloc, &stop) {
        Ok(Some(text)) => {
            say(err, &text);
            status_of(stop)
        }
        Ok(None) | Err(_) => Status::Memory,
    }
}
