//! The counters of a class by execution data.
ghost use Rattle.std.specs.Prelude.{◌≡◌, ◌≤◌, Some, None, IfOk, IfErr, IfSome, OnOk, length, option_map};
ghost use Rattle.jc_bytes.specs.Reader.{most_read};
ghost use Rattle.jc_bytes.specs.Failing.{Said};
ghost use Rattle.jc_cover.specs.Covered.{hits_or_none, TellsCovered};
ghost use Rattle.jc_cover.specs.Counters.{counters_of};
ghost use Rattle.jc_cover.specs.declared.coverage.Coverage.{Coverage as Told};
ghost use Rattle.jc_exec.specs.Store.{IsWritableClass};
ghost use Rattle.jc_plan.specs.Analysed.{IsAnalysed};
ghost use Rattle.jc_command_classes.specs.Report.{record_of, clash_with};
ghost use Rattle.jc_instrument.specs.Analysis.{IsAnalysis};
ghost use Rattle.jc_command_work.specs.Step.{Word};
ghost use Rattle.jc_command_work.specs.Part.{deciding};
ghost use Rattle.jc_command_sample.specs.SampleWork.{AreCounters, IsClashEnd};
ghost use Rattle.jc_command_sample.specs.Seen.{Decides};

use jc_bytes::{Fail, Memory};
use jc_command_classes::{bits_of, slice_of};
use jc_command_work::{Stop, exec_stop};
use jc_cover::{Counters, counters, covered};
use jc_exec::{ClassHits, ExecRefusal, ExecStore, check_fits};
use jc_instrument::analyse;
use jc_methods::Analysed;
use std::alloc::Global;

/// The name of the class file in messages.
pub const PATH: &str = "Sample.class";

/// The record of a class, if there is one.
fn record_of<'d>(store: &'d ExecStore, class: &Analysed) -> Option<&'d ClassHits>
    ensures found { option_map (λ r. r.now) result ≡ record_of store.entry.now.classes class.now.id }
    ensures writable { IfSome result (λ r. IsWritableClass r.now) }
{
    store.get(class.id)
}

/// Checks that a record, if there is one, fits the class.
fn check_record(
    alloc: Global,
    class: &Analysed,
    known: Option<&ClassHits>,
) -> Result<(), Fail<ExecRefusal>>
    requires { IfSome known (λ r. IsWritableClass r.now) }
    ensures fits { OnOk result (clash_with class.now (option_map (λ r. r.now) known.entry) ≡ None) }
    ensures clash { IfErr result (λ e. Said e (λ why. clash_with class.now (option_map (λ r. r.now) known.entry) ≡ Some why)) }
{
    match known {
        None => Ok(()),
        Some(known) => check_fits(alloc, known, class.id, &class.name, class.probes),
    }
}

/// The counters of a class by these hits, or by none.
fn counted(alloc: Global, class: &Analysed, hits: Option<&[bool]>) -> Result<Counters, Memory>
    requires analysed { IsAnalysed class.now }
    requires hits { IfSome hits (λ hits. length hits.now ≡ class.now.probes) }
    ensures { IfOk result (λ counters. (coverage : Told)
        × TellsCovered class.now.bodies (hits_or_none (option_map (λ hits. hits.now) hits.entry)) coverage
        × (counters ≡ counters_of class.now.bodies coverage)) }
{
    let coverage = covered(alloc, class, hits)?;
    let counted = counters(alloc, class, &coverage)?;
    Ok(counted)
}

/// The counters of an analysed class by the hits of its record, if there is one. One that doesn't fit the class ends the
/// sample.
fn class_counters<'a>(
    alloc: Global,
    class: &Analysed,
    store: &ExecStore,
) -> Result<Counters, Stop<'a>>
    requires { IsAnalysed class.now }
    ensures { (bytes : Word) → IsAnalysis bytes class.now
        → Decides (deciding (AreCounters bytes store.now) (IsClashEnd bytes store.now)) (λ counters. counters) result }
{
    let known = record_of(store, class);
    match check_record(alloc, class, known) {
        Ok(()) => {
            let bits = bits_of(alloc, known)?;
            Ok(counted(alloc, class, slice_of(&bits))?)
        }
        Err(fail) => Err(exec_stop(fail, 0, PATH)),
    }
}

/// The counters of the class of a class file by the execution data. A class that is instrumented is analysed too.
pub fn file_counters<'a>(
    alloc: Global,
    bytes: &[u8],
    store: &ExecStore,
) -> Result<Counters, Stop<'a>>
    requires { length bytes.now ≤ most_read }
    ensures { Decides (deciding (AreCounters bytes.now store.now) (IsClashEnd bytes.now store.now)) (λ counters. counters) result }
{
    match analyse(alloc, bytes) {
        Ok(class) => class_counters(alloc, &class, store),
        Err(_) => Err(Stop::Memory),
    }
}
