//! Class files with the coverage of their classes.
ghost use Rattle.std.specs.Prelude.{◌≡◌, ◌≤◌, length, Some, None, IfOk, IfErr};
ghost use Rattle.jc_bytes.specs.Reader.{most_read};
ghost use Rattle.jc_plan.specs.Analysed.{IsAnalysed};
ghost use Rattle.jc_command_classes.specs.Report.{record_of, clash_with};
ghost use Rattle.jc_command_classes.specs.ReportSteps.{covered_class, IsShaped, data_records, data_path, StopsAtClash, ClassClashes};
ghost use Rattle.jc_command_classes.specs.ReportSteps.{IsCoveredClass, IsShapedSeen, IsLooked, SeesClass};

use crate::exec_data::{Data, bits_of, record_of, slice_of};
use crate::kept::Seen;
use jc_bytes::Fail;
use jc_command_work::Stop;
use jc_cover::{Coverage, covered};
use jc_instrument::analyse;
use jc_methods::Analysed;
use std::alloc::Global;

/// A class, and which of its edges are covered.
#[derive(Drop)]
pub struct CoveredClass {
    pub class: Analysed,
    pub coverage: Coverage,
}

/// A class with its coverage, by the hits of its record in the execution data, or by none. A record that doesn't fit it
/// stops the command.
fn covered_by<'a>(
    alloc: Global,
    exec_data: Option<&Data<'a>>,
    class: Analysed,
) -> Result<CoveredClass, Stop<'a>>
    requires { IsAnalysed class }
    ensures covered { IfOk result (λ c. c ≡ covered_class (data_records exec_data.entry) class) }
    ensures shaped { IfOk result IsShaped }
    ensures fit { IfOk result (λ _. clash_with class (record_of (data_records exec_data.entry) class.id) ≡ None) }
    ensures clash { IfErr result (StopsAtClash (data_path exec_data.entry)
        (λ refusal. clash_with class (record_of (data_records exec_data.entry) class.id) ≡ Some refusal)) }
{
    let class_hits = record_of(alloc, exec_data, &class)?;
    let bits = bits_of(alloc, class_hits.as_ref())?;
    let coverage = covered(alloc, &class, slice_of(&bits))?;
    Ok(CoveredClass { class, coverage })
}

/// What the class of a class file is to a command.
fn seen_class<'a>(
    alloc: Global,
    exec_data: Option<&Data<'a>>,
    class: Analysed,
) -> Result<Seen<CoveredClass>, Stop<'a>>
    requires { IsAnalysed class }
    ensures seen { IfOk result (SeesClass (data_records exec_data.entry) class class.bodies) }
    ensures shaped { IfOk result IsShapedSeen }
    ensures clash { IfErr result (StopsAtClash (data_path exec_data.entry)
        (ClassClashes (data_records exec_data.entry) class class.bodies)) }
{
    if class.bodies.len() == 0 {
        return Ok(Seen::Unchanged);
    }
    let id = class.id;
    let made = covered_by(alloc, exec_data, class)?;
    Ok(Seen::Changed { id, made })
}

/// Looks at one class file: whether it is refused, whether its class is unchanged, or which edges of its class are covered, by
/// the hits of its record in the execution data. A record that doesn't fit it stops the command.
pub fn look_at<'a>(
    alloc: Global,
    exec_data: Option<&Data<'a>>,
    bytes: &[u8],
) -> Result<Seen<CoveredClass>, Stop<'a>>
    requires { length bytes.now ≤ most_read }
    ensures looked { IsLooked (IsCoveredClass (data_records exec_data.entry)) (data_records exec_data.entry) (data_path exec_data.entry)
        bytes.now result }
    ensures shaped { IfOk result IsShapedSeen }
{
    match analyse(alloc, bytes) {
        Ok(class) => seen_class(alloc, exec_data, class),
        Err(Fail::Memory) => Err(Stop::Memory),
        Err(Fail::Said(refusal)) => Ok(Seen::Refused(refusal)),
    }
}
