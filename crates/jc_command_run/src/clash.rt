//! Class files that are no program.
ghost use Rattle.std.specs.Prelude.{◌≡◌, ◌<◌, ℕ, List as Seq, length, string_bytes, IfOk};
ghost use Rattle.jc_bytes.specs.Failing.{Said};
ghost use Rattle.jc_link_programs.specs.Linking.{HasId, HasName, IsLinkClash};
ghost use Rattle.jc_command_run.specs.PairTexts.{pair_start, same_name_text, same_id_text};
ghost use Rattle.jc_command_run.specs.Clash.{StopsAs, LinkStops, id_end};
ghost use Rattle.jc_command_work.specs.Seen.{stop_seen};

use jc_bytes::{Fail, Memory};
use jc_command_work::{Fault, InputFiles, Stop, class_stop};
use jc_link_programs::{LinkClash, LinkRefusal};
use std::alloc::{AllocError, Global};

/// Two paths in front of what their files have in common.
fn pair_start(alloc: Global, first: &str, second: &str) -> Result<String, AllocError>
    ensures { IfOk result (λ text. string_bytes text ≡ pair_start first.now second.now) }
{
    format!(in alloc; "{first}, {second}: one class ")
}

/// The line of two files of one class name.
fn same_name_text(
    alloc: Global,
    first: &str,
    second: &str,
    name: &[u8],
) -> Result<Vec<u8>, AllocError>
    ensures { IfOk result (λ text. text.items ≡ same_name_text first.now second.now name.now) }
{
    let mut text = pair_start(alloc, first, second)?.into_bytes();
    text.extend_from_slice(b"name ")?;
    text.extend_from_slice(name)?;
    text.extend_from_slice(b"\n")?;
    Ok(text)
}

/// An id at the end of a line.
fn id_end(alloc: Global, id: u64) -> Result<String, AllocError>
    ensures { IfOk result (λ text. string_bytes text ≡ id_end id) }
{
    format!(in alloc; "id {id:016x}\n")
}

/// The line of two files whose probes have one class id.
fn same_id_text(alloc: Global, first: &str, second: &str, id: u64) -> Result<Vec<u8>, AllocError>
    ensures { IfOk result (λ text. text.items ≡ same_id_text first.now second.now id) }
{
    let end = id_end(alloc, id)?;
    let mut text = pair_start(alloc, first, second)?.into_bytes();
    text.extend_from_slice(end.as_bytes())?;
    Ok(text)
}

/// How two files of one class name stop a command.
fn name_stop<'a>(
    alloc: Global,
    inputs: &InputFiles<'a>,
    first: u32,
    second: u32,
    name: &[u8],
) -> Result<Stop<'a>, Memory>
    requires first { first < length inputs.now.texts }
    requires second { second < length inputs.now.texts }
    ensures { (files : Seq (Seq ℕ)) → HasName files first name.now
        → IfOk result (λ stop. StopsAs inputs.entry.now.paths files (LinkRefusal.SameName first second) (stop_seen stop)) }
{
    let first_path = inputs.path(first as usize);
    let second_path = inputs.path(second as usize);
    let line = same_name_text(alloc, first_path, second_path, name)?;
    let fault = Fault::SameName { first, second };
    Ok(Stop::Clash { fault, line })
}

/// How two files whose probes have one class id stop a command.
fn id_stop<'a>(
    alloc: Global,
    inputs: &InputFiles<'a>,
    first: u32,
    second: u32,
    id: u64,
) -> Result<Stop<'a>, Memory>
    requires first { first < length inputs.now.texts }
    requires second { second < length inputs.now.texts }
    ensures { (files : Seq (Seq ℕ)) → HasId files first id
        → IfOk result (λ stop. StopsAs inputs.entry.now.paths files (LinkRefusal.SameId first second) (stop_seen stop)) }
{
    let first_path = inputs.path(first as usize);
    let second_path = inputs.path(second as usize);
    let line = same_id_text(alloc, first_path, second_path, id)?;
    let fault = Fault::SameId { first, second };
    Ok(Stop::Clash { fault, line })
}

/// How a reason for which class files are no program stops a command. A line that names two files has what they have in
/// common.
fn clash_stop<'a>(alloc: Global, clash: LinkClash, inputs: &InputFiles<'a>) -> Stop<'a>
    requires { IsLinkClash inputs.now.texts clash }
    ensures { LinkStops inputs.entry.now.paths inputs.entry.now.texts (stop_seen result) }
{
    match clash {
        LinkClash::Class { index, refusal } => {
            class_stop(Fail::Said(refusal), index, inputs.path(index as usize))
        }
        LinkClash::SameName {
            first,
            second,
            name,
        } => match name_stop(alloc, inputs, first, second, &name) {
            Ok(stop) => stop,
            Err(Memory) => Stop::Memory,
        },
        LinkClash::SameId { first, second, id } => {
            match id_stop(alloc, inputs, first, second, id) {
                Ok(stop) => stop,
                Err(Memory) => Stop::Memory,
            }
        }
    }
}

/// How class files that are no program stop a command: the line names the file that isn't linked, or the two files that have
/// one class name or one id of their probes.
pub fn link_stop<'a>(alloc: Global, fail: Fail<LinkClash>, inputs: &InputFiles<'a>) -> Stop<'a>
    requires { Said fail (IsLinkClash inputs.now.texts) }
    ensures { LinkStops inputs.entry.now.paths inputs.entry.now.texts (stop_seen result) }
{
    match fail {
        Fail::Memory => Stop::Memory,
        Fail::Said(clash) => clash_stop(alloc, clash, inputs),
    }
}
