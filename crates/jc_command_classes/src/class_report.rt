//! The class files of a report.
ghost use Rattle.std.specs.Prelude.{◌≡◌, ◌≤◌, length, All, IfOk, IfErr};
ghost use Rattle.std.specs.List.{AllZip};
ghost use Rattle.jc_bytes.specs.Reader.{most_read};
ghost use Rattle.jc_command_classes.specs.Report.{counted_with};
ghost use Rattle.jc_command_classes.specs.ReportSteps.{IsShaped, IsCountedBy, data_records, data_path, StopsAtClash, IsLooked, LooksAtAll, FrontClashes};

use crate::covered_class::{CoveredClass, look_at};
use crate::each::each_answer;
use crate::exec_data::Data;
use crate::kept::{Kept, Seen, keep_all};
use jc_bytes::{Bytes, Memory};
use jc_command_work::{InputFiles, Stop};
use jc_cover::counters;
use jc_report::Counted;
use std::alloc::Global;
use std::marker::Sync;
use std::thread::Threads;

/// The class with its counters.
fn counted(alloc: Global, covered: CoveredClass) -> Result<Counted, Memory>
    requires { IsShaped covered }
    ensures { IfOk result (λ c. c ≡ counted_with covered.class covered.coverage) }
{
    let CoveredClass { class, coverage } = covered;
    let counters = counters(alloc, &class, &coverage)?;
    Ok(Counted {
        id: class.id,
        name: class.name,
        super_name: class.super_name,
        interfaces: class.interfaces,
        counters,
    })
}

/// Looks at one class file, and counts what of its class is covered.
fn look<'a>(
    alloc: Global,
    exec_data: Option<&Data<'a>>,
    bytes: &[u8],
) -> Result<Seen<Counted>, Stop<'a>>
    requires { length bytes.now ≤ most_read }
    ensures { IsLooked (IsCountedBy (data_records exec_data.entry)) (data_records exec_data.entry) (data_path exec_data.entry) bytes.now result }
{
    match look_at(alloc, exec_data, bytes)? {
        Seen::Refused(refusal) => Ok(Seen::Refused(refusal)),
        Seen::Unchanged => Ok(Seen::Unchanged),
        Seen::Changed { id, made } => {
            let made = counted(alloc, made)?;
            Ok(Seen::Changed { id, made })
        }
    }
}

/// Looks at each class file. The answers are in the order of the files.
fn look_at_each<'a, R: Threads + Sync>(
    rt: &R,
    alloc: Global,
    exec_data: Option<&Data<'a>>,
    texts: &[Bytes],
) -> Result<Vec<Result<Seen<Counted>, Stop<'a>>>, Memory>
    requires { All (λ t. length t ≤ most_read) texts.now }
    ensures each { IfOk result (λ answers. AllZip (IsLooked (IsCountedBy (data_records exec_data.entry)) (data_records exec_data.entry)
        (data_path exec_data.entry)) texts.now answers.items) }
    ensures len { IfOk result (λ answers. length answers.items ≡ length texts.now) }
{
    let answer = |bytes: &Bytes| -> Result<Seen<Counted>, Stop<'_>>
        requires { length bytes.now ≤ most_read }
        ensures { IsLooked (IsCountedBy (data_records exec_data.entry)) (data_records exec_data.entry) (data_path exec_data.entry)
            bytes.now result }
    { look(alloc, exec_data, bytes) };
    each_answer(rt, alloc, texts, &answer)
}

/// Looks at the class files, in order.
pub fn look_at_all<'a, R: Threads + Sync>(
    rt: &R,
    alloc: Global,
    exec_data: Option<&Data<'a>>,
    inputs: &InputFiles<'_>,
) -> Result<Kept<'a, Counted>, Stop<'a>>
    ensures all { IfOk result (LooksAtAll (data_records exec_data.entry) inputs.now.paths inputs.now.texts) }
    ensures few { IfOk result (λ kept. length kept.made.items ≤ length inputs.now.paths) }
    ensures clash { IfErr result (StopsAtClash (data_path exec_data.entry) (FrontClashes (data_records exec_data.entry) inputs.now.texts)) }
{
    let answers = look_at_each(rt, alloc, exec_data, inputs.texts())?;
    keep_all(alloc, inputs, answers)
}
