//! The command `instrument`.
ghost use Rattle.std.specs.Prelude.{◌≡◌, ◌≤◌, All, length, map, IfOk, OnOk};
ghost use Rattle.std.specs.List.{AllZip};
ghost use Rattle.jc_bytes.specs.Reader.{most_read};
ghost use Rattle.jc_command_classes.specs.Instrument.{IsDecision, decided_line, file_writes, AreFileWrites, InstrumentAnswers, decision_seen};
ghost use Rattle.jc_command_work.specs.Answered.{Prepares};
ghost use Rattle.jc_command_work.specs.Handed.{BetweenFiles};
ghost use Rattle.jc_command_work.specs.Seen.{write_seen, Puts};
ghost use Rattle.jc_command_work.specs.Seen.{words_of};

use crate::each::{all_made, each_answer};
use crate::lines::{accepted_line, refused_line};
use jc_bytes::{Bytes, Fail, Memory, Refusal};
use jc_command_work::{Stop, TargetedFiles, Write, as_texts, read_listed};
use jc_instrument::{Instrumented, instrument};
use jc_outside::Files;
use std::alloc::Global;
use std::marker::Sync;
use std::thread::Threads;

/// What comes of a class file.
#[derive(Drop)]
pub enum Decided {
    /// It has probes, or its class stays as it is.
    Accepted(Instrumented),
    /// It is refused, and stays as it was read.
    Refused(Refusal),
}

/// Decides what comes of the class file with these bytes.
fn decide(alloc: Global, bytes: &Bytes) -> Result<Decided, Memory>
    requires { length bytes.now ≤ most_read }
    ensures { IfOk result (λ d. IsDecision bytes.now (decision_seen d)) }
{
    match instrument(alloc, bytes) {
        Ok(class) => Ok(Decided::Accepted(class)),
        Err(Fail::Memory) => Err(Memory),
        Err(Fail::Said(refusal)) => Ok(Decided::Refused(refusal)),
    }
}

/// Decides what comes of each class file, in order. The work is shared among as many threads as the machine has processors.
/// It fails only where memory is refused.
pub fn decide_all<R: Threads + Sync>(
    rt: &R,
    alloc: Global,
    texts: &[Bytes],
) -> Result<Vec<Decided>, Memory>
    requires { All (λ t. length t ≤ most_read) texts.now }
    ensures { IfOk result (λ all. AllZip (λ t d. IsDecision t (decision_seen d)) texts.now all.items) }
{
    let answer = |bytes: &Bytes| -> Result<Decided, Memory>
        requires { length bytes.now ≤ most_read }
        ensures { IfOk result (λ d. IsDecision bytes.now (decision_seen d)) }
    { decide(alloc, bytes) };
    let answers = each_answer(rt, alloc, texts, &answer)?;
    all_made(alloc, answers)
}

/// The line of a class file: how many probes it has, that it stays as it is, or why it is refused.
pub fn decided_line(alloc: Global, path: &str, decided: &Decided) -> Result<Vec<u8>, Memory>
    ensures { IfOk result (λ line. line.items ≡ decided_line path.now (decision_seen decided.now)) }
{
    match decided {
        Decided::Accepted(class) => { Ok(accepted_line(alloc, path, class.changed, class.probes)?) }
        Decided::Refused(refusal) => Ok(refused_line(alloc, path, *refusal)?),
    }
}

/// Puts last the write of a class file, which stays as it was read where it is refused, and behind it its line.
fn put_file<'a>(
    alloc: Global,
    writes: &mut Vec<Write<'a>>,
    target: &'a str,
    path: &str,
    bytes: Bytes,
    decided: Decided,
) -> Result<(), Memory>
    ensures { OnOk result (Puts writes.old.items (file_writes target.entry.now path.now bytes (decision_seen decided)) writes.new.items) }
{
    let text = decided_line(alloc, path, &decided)?;
    match decided {
        Decided::Accepted(class) => {
            let bytes = class.bytes.into_vec();
            writes.push(Write::File {
                path: target,
                bytes,
            })?;
            writes.push(Write::Out { text })?;
        }
        Decided::Refused(_) => {
            let bytes = bytes.into_vec();
            writes.push(Write::File {
                path: target,
                bytes,
            })?;
            writes.push(Write::Err { text })?;
        }
    }
    Ok(())
}

/// The writes of the class files, in order.
fn all_writes<'a, R: Threads + Sync>(
    rt: &R,
    alloc: Global,
    targeted: TargetedFiles<'a>,
) -> Result<Vec<Write<'a>>, Memory>
    ensures { IfOk result (λ writes. AreFileWrites targeted.entry.targets targeted.entry.inputs.paths targeted.entry.inputs.texts (map write_seen writes.items)) }
{
    let (inputs, targets) = targeted.into_parts();
    let all = decide_all(rt, alloc, inputs.texts())?;
    let (paths, texts) = inputs.into_parts();
    let mut writes = Vec::new(alloc);
    'instrumenting: for (index, (decided, bytes)) in all.into_iter().zip(texts).enumerate() {
        put_file(
            alloc,
            &mut writes,
            targets[index],
            paths[index],
            bytes,
            decided,
        )?;
    }
    Ok(writes)
}

/// The writes of `instrument --dest DIR FILE..`, where the files are written to these paths.
pub fn prepare_instrument<'a, R: Threads + Sync, F: Files>(
    rt: &R,
    alloc: Global,
    files: &mut F,
    paths: &'a [String],
    targets: &'a [String],
) -> Result<Vec<Write<'a>>, Stop<'a>>
    requires { length targets.now ≡ length paths.now }
    ensures { BetweenFiles F.Files files.old files.new (Prepares F.landed (words_of paths.entry.now)
        (InstrumentAnswers (words_of targets.entry.now) (words_of paths.entry.now))) result }
{
    let inputs = read_listed(alloc, files, paths)?;
    let file_targets = as_texts(alloc, targets)?;
    let targeted = TargetedFiles::new(inputs, file_targets);
    Ok(all_writes(rt, alloc, targeted)?)
}
