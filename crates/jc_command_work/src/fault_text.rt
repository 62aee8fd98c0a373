//! Why inputs are refused, in words.
ghost use Rattle.std.specs.Prelude.{◌≡◌, string_bytes, IfOk};
ghost use Rattle.jc_command_work.specs.Texts.{bad_exec_text, version_start, version_line, other_version_text};
ghost use Rattle.jc_command_work.specs.Texts.{conflict_start, first_count_text, second_count_text, conflict_text, exec_refusal_text};
ghost use Rattle.jc_command_work.specs.Texts.{kind_text, placed_text, in_method_text, class_refusal_text, fault_text};
ghost use Rattle.jc_command_work.specs.Texts.{bad_plan_text, no_entry_text, ref_refusal_text, shared_text};

use crate::Fault;
use jc_bytes::{Refusal, RefusalKind};
use jc_exec::ExecRefusal;
use jc_refs_check::RefRefusal;
use std::alloc::{AllocError, Global};

fn bad_exec_text(alloc: Global, file: &str, place: u32) -> Result<String, AllocError>
    ensures { IfOk result (λ text. string_bytes text ≡ bad_exec_text file.now place) }
{
    format!(in alloc; "{file}: bad execution data at {place}\n")
}

fn version_start(alloc: Global, file: &str) -> Result<String, AllocError>
    ensures { IfOk result (λ text. string_bytes text ≡ version_start file.now) }
{
    format!(in alloc; "{file}: execution data version ")
}

fn version_line(alloc: Global, version: u16) -> Result<String, AllocError>
    ensures { IfOk result (λ text. string_bytes text ≡ version_line version) }
{
    format!(in alloc; "{version:04x}\n")
}

fn other_version_text(alloc: Global, file: &str, found: u16) -> Result<Vec<u8>, AllocError>
    ensures { IfOk result (λ text. text.items ≡ other_version_text file.now found) }
{
    let version = version_line(alloc, found)?;
    let mut text = version_start(alloc, file)?.into_bytes();
    text.extend_from_slice(version.as_bytes())?;
    Ok(text)
}

fn conflict_start(alloc: Global, file: &str, id: u64) -> Result<String, AllocError>
    ensures { IfOk result (λ text. string_bytes text ≡ conflict_start file.now id) }
{
    format!(in alloc; "{file}: class {id:016x}: ")
}

fn first_count_text(alloc: Global, count: u32) -> Result<String, AllocError>
    ensures { IfOk result (λ text. string_bytes text ≡ first_count_text count) }
{
    format!(in alloc; " with {count} probes, ")
}

fn second_count_text(alloc: Global, count: u32) -> Result<String, AllocError>
    ensures { IfOk result (λ text. string_bytes text ≡ second_count_text count) }
{
    format!(in alloc; " with {count} probes\n")
}

/// A record of execution data, by the name of its class and the number of its probes.
#[derive(Drop)]
struct RecordText<'r> {
    name: &'r [u8],
    count: u32,
}

/// Two records of one class id that do not agree.
fn conflict_text(
    alloc: Global,
    file: &str,
    id: u64,
    first: RecordText<'_>,
    second: RecordText<'_>,
) -> Result<Vec<u8>, AllocError>
    ensures { IfOk result (λ text. text.items ≡ conflict_text file.now id first.entry.name.now second.entry.name.now first.entry.count second.entry.count) }
{
    let behind_first = first_count_text(alloc, first.count)?;
    let behind_second = second_count_text(alloc, second.count)?;
    let mut text = conflict_start(alloc, file, id)?.into_bytes();
    text.extend_from_slice(first.name)?;
    text.extend_from_slice(behind_first.as_bytes())?;
    text.extend_from_slice(second.name)?;
    text.extend_from_slice(behind_second.as_bytes())?;
    Ok(text)
}

fn exec_refusal_text(
    alloc: Global,
    file: &str,
    refusal: &ExecRefusal,
) -> Result<Vec<u8>, AllocError>
    ensures { IfOk result (λ text. text.items ≡ exec_refusal_text file.now refusal.now) }
{
    match refusal {
        ExecRefusal::BadExec { place } => Ok(bad_exec_text(alloc, file, *place)?.into_bytes()),
        ExecRefusal::OtherVersion { found } => other_version_text(alloc, file, *found),
        ExecRefusal::Conflict {
            id,
            first,
            second,
            first_count,
            second_count,
        } => {
            let first = RecordText {
                name: first,
                count: *first_count,
            };
            let second = RecordText {
                name: second,
                count: *second_count,
            };
            conflict_text(alloc, file, *id, first, second)
        }
    }
}

fn kind_text(kind: RefusalKind) -> &'static str
    ensures { result.now ≡ kind_text kind }
{
    match kind {
        RefusalKind::NotAClass => "NotAClass",
        RefusalKind::Version => "Version",
        RefusalKind::AlreadyInstrumented => "AlreadyInstrumented",
        RefusalKind::InterfaceBody => "InterfaceBody",
        RefusalKind::Subroutine => "Subroutine",
        RefusalKind::BadCode => "BadCode",
        RefusalKind::FrameMissing => "FrameMissing",
        RefusalKind::FrameClash => "FrameClash",
        RefusalKind::StraddlingLocal => "StraddlingLocal",
        RefusalKind::TooManyProbes => "TooManyProbes",
        RefusalKind::PoolFull => "PoolFull",
        RefusalKind::MembersFull => "MembersFull",
        RefusalKind::BadBootstraps => "BadBootstraps",
        RefusalKind::LocalsFull => "LocalsFull",
        RefusalKind::StackFull => "StackFull",
        RefusalKind::CodeTooLarge => "CodeTooLarge",
    }
}

fn placed_text(alloc: Global, file: &str, kind: &str, place: u32) -> Result<String, AllocError>
    ensures { IfOk result (λ text. string_bytes text ≡ placed_text file.now kind.now place) }
{
    format!(in alloc; "{file}: {kind} at {place}\n")
}

fn in_method_text(
    alloc: Global,
    file: &str,
    kind: &str,
    method: u16,
    place: u32,
) -> Result<String, AllocError>
    ensures { IfOk result (λ text. string_bytes text ≡ in_method_text file.now kind.now method place) }
{
    format!(in alloc; "{file}: {kind} in method {method} at {place}\n")
}

/// Why a class file is refused.
pub fn class_refusal_text(alloc: Global, file: &str, refusal: Refusal) -> Result<String, AllocError>
    ensures { IfOk result (λ text. string_bytes text ≡ class_refusal_text file.now refusal) }
{
    let kind = kind_text(refusal.kind);
    match refusal.method {
        None => placed_text(alloc, file, kind, refusal.place),
        Some(method) => in_method_text(alloc, file, kind, method, refusal.place),
    }
}

/// A run plan that is refused, by its first line that doesn't fit.
fn bad_plan_text(alloc: Global, file: &str, line: u32) -> Result<String, AllocError>
    ensures { IfOk result (λ text. string_bytes text ≡ bad_plan_text file.now line) }
{
    format!(in alloc; "{file}: bad plan in line {line}\n")
}

/// A thread of a run plan that has no method to begin with, by its line.
fn no_entry_text(alloc: Global, file: &str, line: u32) -> Result<String, AllocError>
    ensures { IfOk result (λ text. string_bytes text ≡ no_entry_text file.now line) }
{
    format!(in alloc; "{file}: no entry in line {line}\n")
}

/// A class with a reference that doesn't suit what takes it, by the first instruction of this kind.
fn ref_refusal_text(alloc: Global, file: &str, refusal: RefRefusal) -> Result<String, AllocError>
    ensures { IfOk result (λ text. string_bytes text ≡ ref_refusal_text file.now refusal) }
{
    in_method_text(alloc, file, "reference", refusal.method, refusal.at)
}

/// A file that has its class name, or the id of its probes, in common with another that isn't named.
fn shared_text(alloc: Global, file: &str, what: &str) -> Result<String, AllocError>
    ensures { IfOk result (λ text. string_bytes text ≡ shared_text file.now what.now) }
{
    format!(in alloc; "{file}: one class {what}\n")
}

/// Why a file is refused. No command is stopped by `SameName` or `SameId` with a line from here, which would name one file
/// of the two: [`crate::Stop::Clash`] brings the line that names both.
pub fn fault_text(alloc: Global, file: &str, fault: &Fault) -> Result<Vec<u8>, AllocError>
    ensures { IfOk result (λ text. text.items ≡ fault_text file.now fault.now) }
{
    match fault {
        Fault::Exec { refusal, .. } => exec_refusal_text(alloc, file, refusal),
        Fault::Plan { line } => Ok(bad_plan_text(alloc, file, *line)?.into_bytes()),
        Fault::Class { refusal, .. } => Ok(class_refusal_text(alloc, file, *refusal)?.into_bytes()),
        Fault::SameName { .. } => Ok(shared_text(alloc, file, "name")?.into_bytes()),
        Fault::SameId { .. } => Ok(shared_text(alloc, file, "id")?.into_bytes()),
        Fault::NoEntry { line } => Ok(no_entry_text(alloc, file, *line)?.into_bytes()),
        Fault::Refs { refusal, .. } => Ok(ref_refusal_text(alloc, file, *refusal)?.into_bytes()),
    }
}
