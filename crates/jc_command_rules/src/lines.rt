//! The command `lines`.
ghost use Rattle.std.specs.Prelude.{◌≡◌, ◌≤◌, ◌++◌, ℕ, List, length, map, option_to_list, All, IfOk, IfErr, OnOk};
ghost use Rattle.std.specs.List.{AllZip, flat_map};
ghost use Rattle.jc_bytes.specs.Reader.{most_read};
ghost use Rattle.jc_command_classes.specs.ReportSteps.{data_records, data_path, IsReadOf, IsLooked, LooksAs, StopsAtClash, FrontClashes, MakesWith};
ghost use Rattle.jc_command_work.specs.Answered.{AnswersWith, Prepares, writes_seen};
ghost use Rattle.jc_command_work.specs.Handed.{BetweenFiles};
ghost use Rattle.jc_command_work.specs.Seen.{words_of, Prints};
ghost use Rattle.jc_command_rules.specs.LinesAnswers.{IsLines};
ghost use Rattle.jc_command_rules.specs.Printing.{text_seen, IsListed, LinesBy};

use crate::class_text::class_text;
use jc_bytes::{Bytes, Memory};
use jc_command_classes::{Data, ExecInput, Kept, Seen, data_of, each_answer, keep_all, look_at};
use jc_command_work::{InputFiles, Stop, Write, keep, read_listed};
use jc_outside::Files;
use std::alloc::Global;
use std::marker::Sync;
use std::thread::Threads;

/// Looks at one class file, and makes what is printed of its class.
fn look<'a>(
    alloc: Global,
    exec_data: Option<&Data<'a>>,
    bytes: &[u8],
) -> Result<Seen<Option<Vec<u8>>>, Stop<'a>>
    requires { length bytes.now ≤ most_read }
    ensures { IsLooked (IsListed (data_records exec_data.entry)) (data_records exec_data.entry) (data_path exec_data.entry) bytes.now result }
{
    match look_at(alloc, exec_data, bytes)? {
        Seen::Refused(refusal) => Ok(Seen::Refused(refusal)),
        Seen::Unchanged => Ok(Seen::Unchanged),
        Seen::Changed { id, made } => {
            let made = class_text(alloc, &made)?;
            Ok(Seen::Changed { id, made })
        }
    }
}

/// Looks at each class file. The answers are in the order of the files.
fn look_at_each<'a, R: Threads + Sync>(
    rt: &R,
    alloc: Global,
    exec_data: Option<&Data<'a>>,
    texts: &[Bytes],
) -> Result<Vec<Result<Seen<Option<Vec<u8>>>, Stop<'a>>>, Memory>
    requires { All (λ t. length t ≤ most_read) texts.now }
    ensures each { IfOk result (λ answers. AllZip (IsLooked (IsListed (data_records exec_data.entry)) (data_records exec_data.entry)
        (data_path exec_data.entry)) texts.now answers.items) }
    ensures len { IfOk result (λ answers. length answers.items ≡ length texts.now) }
{
    let answer = |bytes: &Bytes| -> Result<Seen<Option<Vec<u8>>>, Stop<'_>>
        requires { length bytes.now ≤ most_read }
        ensures { IsLooked (IsListed (data_records exec_data.entry)) (data_records exec_data.entry) (data_path exec_data.entry)
            bytes.now result }
    { look(alloc, exec_data, bytes) };
    each_answer(rt, alloc, texts, &answer)
}

/// Looks at the class files, in order.
fn look_at_all<'a, R: Threads + Sync>(
    rt: &R,
    alloc: Global,
    exec_data: Option<&Data<'a>>,
    inputs: &InputFiles<'_>,
) -> Result<Kept<'a, Option<Vec<u8>>>, Stop<'a>>
    ensures all { IfOk result (LooksAs (IsListed (data_records exec_data.entry)) (data_records exec_data.entry) inputs.now.paths inputs.now.texts) }
    ensures clash { IfErr result (StopsAtClash (data_path exec_data.entry) (FrontClashes (data_records exec_data.entry) inputs.now.texts)) }
{
    let answers = look_at_each(rt, alloc, exec_data, inputs.texts())?;
    keep_all(alloc, inputs, answers)
}

/// Puts the text on `out` last, if there is one.
fn put_text<'a>(writes: &mut Vec<Write<'a>>, text: Option<Vec<u8>>) -> Result<(), Memory>
    ensures { OnOk result (Prints writes.old.items (option_to_list (text_seen text)) writes.new.items) }
{
    match text {
        Some(text) => keep(writes, text),
        None => Ok(()),
    }
}

/// The lines, and behind them the texts, each as one write on `out`.
fn with_texts<'a>(
    lines: Vec<Write<'a>>,
    texts: Vec<Option<Vec<u8>>>,
) -> Result<Vec<Write<'a>>, Memory>
    ensures { IfOk result (λ writes. Prints lines.entry.items (flat_map option_to_list (map text_seen texts.items)) writes.items) }
{
    let mut writes = lines;
    'printing: for text in texts {
        put_text(&mut writes, text)?;
    }
    Ok(writes)
}

/// The writes of the class files.
fn listed<'a, R: Threads + Sync>(
    rt: &R,
    alloc: Global,
    exec_data: Option<&Data<'a>>,
    inputs: &InputFiles<'_>,
) -> Result<Vec<Write<'a>>, Stop<'a>>
    ensures { MakesWith writes_seen (IsLines inputs.now.paths) (data_records exec_data.entry) (data_path exec_data.entry) inputs.now.texts result }
{
    let kept = look_at_all(rt, alloc, exec_data, inputs)?;
    Ok(with_texts(kept.lines, kept.made)?)
}

/// The writes of the class files, of what was read.
fn listed_of<'a, R: Threads + Sync>(
    rt: &R,
    alloc: Global,
    exec: Option<ExecInput<'a>>,
    inputs: &InputFiles<'_>,
) -> Result<Vec<Write<'a>>, Stop<'a>>
    ensures { (read : List (List ℕ)) → IsReadOf exec.entry read
        → AnswersWith (LinesBy exec.entry read inputs.now.paths inputs.now.texts) result }
{
    let exec_data = data_of(exec)?;
    listed(rt, alloc, exec_data.as_ref(), inputs)
}

/// The writes of `lines [--exec IN] FILE..`, where the execution data of IN has been read: a line on `err` for each class file
/// that is refused, and then for each changed class one text on `out`, its name and its lines with their statuses.
///
/// # Errors
///
/// Those of `report`: `Read` with the path of the first class file that can't be read, before anything is refused. Then
/// `Refused` with the path of the execution data, where it is refused, or where a record of it clashes with a class. `Memory`
/// at any time.
pub fn prepare_lines<'a, R: Threads + Sync, F: Files>(
    rt: &R,
    alloc: Global,
    files: &mut F,
    exec: Option<ExecInput<'a>>,
    paths: &'a [String],
) -> Result<Vec<Write<'a>>, Stop<'a>>
    ensures { (read : List (List ℕ)) → IsReadOf exec.entry read → BetweenFiles F.Files files.old files.new (Prepares F.landed (words_of paths.entry.now)
        (LinesBy exec.entry read (words_of paths.entry.now))) result }
{
    let inputs = read_listed(alloc, files, paths)?;
    listed_of(rt, alloc, exec, &inputs)
}
