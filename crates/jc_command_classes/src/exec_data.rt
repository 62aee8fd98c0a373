//! The execution data of a command on class files.
ghost use Rattle.std.specs.Prelude.{◌≡◌, ℕ, List, option_map, Some, None, IfSome, IfOk, IfErr};
ghost use Rattle.jc_exec.specs.Store.{IsWritableClass};
ghost use Rattle.jc_command_classes.specs.Report.{record_of, clash_with};
ghost use Rattle.jc_command_classes.specs.ReportSteps.{exec_path, IsReadOf, TakesData, data_records, data_path, StopsAtClash};

use jc_bytes::{List, Memory};
use jc_command_exec::Gathered;
use jc_command_work::{Stop, exec_stop};
use jc_exec::{ClassHits, PackedStore, check_fits};
use jc_methods::Analysed;
use std::alloc::Global;

/// The execution data of a report, or how it stops the command, and the file that it was read from.
#[derive(Drop)]
pub struct ExecInput<'a> {
    pub path: &'a str,
    pub gathered: Gathered<'a>,
}

/// Execution data, and the file that it was read from.
#[derive(Drop)]
pub struct Data<'a> {
    pub path: &'a str,
    pub store: PackedStore,
}

/// The execution data that was read, if a file of it is named, or how it stops the command.
pub fn data_of<'a>(exec: Option<ExecInput<'a>>) -> Result<Option<Data<'a>>, Stop<'a>>
    ensures { (read : List (List ℕ)) → IsReadOf exec.entry read → TakesData (exec_path exec.entry) read result }
{
    let Some(ExecInput { path, gathered }) = exec else {
        return Ok(None);
    };
    match gathered {
        Gathered::Union(store) => Ok(Some(Data { path, store })),
        Gathered::Refused(stop) => Err(stop),
    }
}

/// The record of a class in the execution data of a file, if there is one.
fn record_in(
    alloc: Global,
    exec_data: &Data<'_>,
    class: &Analysed,
) -> Result<Option<ClassHits>, Memory>
    ensures found { IfOk result (λ r. r ≡ record_of exec_data.now.store.classes class.now.id) }
    ensures writable { IfOk result (λ r. IfSome r IsWritableClass) }
{
    exec_data.store.get(alloc, class.id)
}

/// A record of a class, if there is one. One that doesn't fit the class stops the command.
fn fitting<'a>(
    alloc: Global,
    path: &'a str,
    class: &Analysed,
    class_hits: Option<ClassHits>,
) -> Result<Option<ClassHits>, Stop<'a>>
    requires { IfSome class_hits IsWritableClass }
    ensures same { IfOk result (λ r. r ≡ class_hits) }
    ensures fit { IfOk result (λ _. clash_with class.now class_hits ≡ None) }
    ensures clash { IfErr result (StopsAtClash (Some path.entry.now) (λ refusal. clash_with class.now class_hits ≡ Some refusal)) }
{
    match class_hits {
        None => Ok(None),
        Some(known) => match check_fits(alloc, &known, class.id, &class.name, class.probes) {
            Ok(()) => Ok(Some(known)),
            Err(fail) => Err(exec_stop(fail, 0, path)),
        },
    }
}

/// The record of a class in the execution data, if there is any. One that doesn't fit the class stops the command.
pub fn record_of<'a>(
    alloc: Global,
    exec_data: Option<&Data<'a>>,
    class: &Analysed,
) -> Result<Option<ClassHits>, Stop<'a>>
    ensures found { IfOk result (λ r. r ≡ record_of (data_records exec_data.entry) class.now.id) }
    ensures fit { IfOk result (λ _. clash_with class.now (record_of (data_records exec_data.entry) class.now.id) ≡ None) }
    ensures clash { IfErr result (StopsAtClash (data_path exec_data.entry)
        (λ refusal. clash_with class.now (record_of (data_records exec_data.entry) class.now.id) ≡ Some refusal)) }
{
    match exec_data {
        None => Ok(None),
        Some(exec_data) => {
            let class_hits = record_in(alloc, exec_data, class)?;
            fitting(alloc, exec_data.path, class, class_hits)
        }
    }
}

/// The hits of a record, each in a place of its own.
pub fn bits_of(alloc: Global, class_hits: Option<&ClassHits>) -> Result<Option<List<bool>>, Memory>
    ensures { IfOk result (λ bits. bits ≡ option_map (λ r. r.now.bits) class_hits.entry) }
{
    match class_hits {
        Some(class_hits) => Ok(Some(class_hits.bits.unpacked(alloc)?)),
        None => Ok(None),
    }
}

/// The hits, if there are any.
pub fn slice_of(hits: &Option<List<bool>>) -> Option<&[bool]>
    ensures { option_map (λ hits. hits.now) result ≡ hits.now }
{
    match hits {
        Some(hits) => Some(hits.as_slice()),
        None => None,
    }
}
