//! The command `classinfo`.
ghost use Rattle.std.specs.Prelude.{◌≡◌, ◌≤◌, ◌<◌, ◌^◌, ◌++◌, All, length, IfOk, OnOk, string_bytes};
ghost use Rattle.std.specs.List.{AllZip, flat_map};
ghost use Rattle.jc_bytes.specs.Reader.{most_read};
ghost use Rattle.jc_plan.specs.Analysed.{IsAnalysed};
ghost use Rattle.jc_command_classes.specs.ClassInfo.{class_end, class_line, class_text};
ghost use Rattle.jc_command_classes.specs.ClassInfo.{method_end, method_start, method_text, method_line, IsListing, ListAnswers};
ghost use Rattle.jc_command_work.specs.Seen.{words_of};
ghost use Rattle.jc_command_work.specs.Answered.{AnswersWith, Prepares};
ghost use Rattle.jc_command_work.specs.Handed.{BetweenFiles};

use crate::each::each_answer;
use jc_bytes::{Bytes, Fail, Memory, Refusal};
use jc_command_work::{InputFiles, Stop, Write, class_stop, keep, read_listed};
use jc_instrument::analyse;
use jc_methods::{Analysed, Body};
use jc_outside::Files;
use std::alloc::{AllocError, Global};
use std::marker::Sync;
use std::thread::Threads;

/// A class id, a major version and a number of probes, as they are printed.
fn class_end(alloc: Global, id: u64, version: u16, probes: u32) -> Result<String, AllocError>
    ensures { IfOk result (λ text. string_bytes text ≡ class_end id version probes) }
{
    format!(in alloc; " id {id:016x} version {version} probes {probes}\n")
}

fn class_line(alloc: Global, class: &Analysed) -> Result<Vec<u8>, AllocError>
    ensures { IfOk result (λ line. line.items ≡ class_line class.now) }
{
    let end = class_end(alloc, class.id, class.version, class.probes)?;
    let mut line = Vec::from_slice(alloc, b"class ")?;
    line.extend_from_slice(&class.name)?;
    line.extend_from_slice(end.as_bytes())?;
    Ok(line)
}

/// The numbers of instructions and of probes, as they are printed.
fn method_end(alloc: Global, instructions: usize, probes: u32) -> Result<String, AllocError>
    ensures { IfOk result (λ text. string_bytes text ≡ method_end instructions probes) }
{
    format!(in alloc; " instructions {instructions} probes {probes}\n")
}

/// The name of a method and its descriptor, as they are printed.
fn method_start(alloc: Global, body: &Body) -> Result<Vec<u8>, AllocError>
    ensures { IfOk result (λ line. line.items ≡ method_start body.now) }
{
    let mut line = Vec::from_slice(alloc, b"method ")?;
    line.extend_from_slice(&body.name)?;
    line.extend_from_slice(&body.desc)?;
    Ok(line)
}

/// The line of a body that has so many probes.
fn method_text(alloc: Global, body: &Body, probes: u32) -> Result<Vec<u8>, AllocError>
    ensures { IfOk result (λ line. line.items ≡ method_text body.now probes) }
{
    let end = method_end(alloc, body.code.len(), probes)?;
    let mut line = method_start(alloc, body)?;
    line.extend_from_slice(end.as_bytes())?;
    Ok(line)
}

/// Puts the lines of a class's bodies at the end.
fn put_methods(alloc: Global, text: &mut Vec<u8>, class: &Analysed) -> Result<(), AllocError>
    requires { IsAnalysed class.now }
    ensures { OnOk result (text.new.items ≡ text.old.items ++ flat_map method_line class.now.bodies) }
{
    let mut first = 0;
    'putting: for index in 0..class.bodies.len() {
        let next = class.plans[index].next;
        let line = method_text(alloc, &class.bodies[index], next - first)?;
        text.extend_from_slice(&line)?;
        first = next;
    }
    Ok(())
}

/// The lines of a class.
fn class_text(alloc: Global, class: &Analysed) -> Result<Vec<u8>, Memory>
    requires { IsAnalysed class.now }
    ensures { IfOk result (λ text. text.items ≡ class_text class.now) }
{
    let mut text = class_line(alloc, class)?;
    put_methods(alloc, &mut text, class)?;
    Ok(text)
}

/// The lines of a class file, or why it is refused.
fn listing(alloc: Global, bytes: &[u8]) -> Result<Vec<u8>, Fail<Refusal>>
    requires { length bytes.now ≤ most_read }
    ensures { IsListing bytes.now result }
{
    let class = analyse(alloc, bytes)?;
    Ok(class_text(alloc, &class)?)
}

/// The lines of each class file, or why it is refused, in order.
fn all_listings<R: Threads + Sync>(
    rt: &R,
    alloc: Global,
    texts: &[Bytes],
) -> Result<Vec<Result<Vec<u8>, Fail<Refusal>>>, Memory>
    requires { All (λ t. length t ≤ most_read) texts.now }
    ensures each { IfOk result (λ answers. AllZip IsListing texts.now answers.items) }
    ensures len { IfOk result (λ answers. length answers.items ≡ length texts.now) }
{
    let answer = |bytes: &Bytes| -> Result<Vec<u8>, Fail<Refusal>>
        requires { length bytes.now ≤ most_read }
        ensures { IsListing bytes.now result }
    { listing(alloc, bytes) };
    each_answer(rt, alloc, texts, &answer)
}

/// The lines of the class files, in order: one text for each.
fn listings<'a, R: Threads + Sync>(
    rt: &R,
    alloc: Global,
    inputs: &InputFiles<'a>,
) -> Result<Vec<Write<'a>>, Stop<'a>>
    requires { length inputs.now.paths < 2 ^ 32 }
    ensures { AnswersWith (ListAnswers inputs.entry.now.paths inputs.entry.now.texts) result }
{
    let answers = all_listings(rt, alloc, inputs.texts())?;
    let mut writes = Vec::new(alloc);
    'listing: for (index, answer) in answers.into_iter().enumerate() {
        match answer {
            Ok(text) => keep(&mut writes, text)?,
            Err(fail) => return Err(class_stop(fail, index as u32, inputs.path(index))),
        }
    }
    Ok(writes)
}

/// The writes of `classinfo FILE..`.
pub fn prepare_class_info<'a, R: Threads + Sync, F: Files>(
    rt: &R,
    alloc: Global,
    files: &mut F,
    paths: &'a [String],
) -> Result<Vec<Write<'a>>, Stop<'a>>
    requires { length paths.now < 2 ^ 32 }
    ensures { BetweenFiles F.Files files.old files.new (Prepares F.landed (words_of paths.entry.now)
        (ListAnswers (words_of paths.entry.now))) result }
{
    let inputs = read_listed(alloc, files, paths)?;
    listings(rt, alloc, &inputs)
}
