//! The analysis of a class file.
ghost use Rattle.std.specs.Prelude.{◌≡◌, ◌⊎◌, ◌≤◌, ⊤, length, Some, None, IfOk, IfErr, MatchResult};
ghost use Rattle.jc_bytes.specs.Reader.{most_read};
ghost use Rattle.jc_bytes.specs.declared.refusal.Refusal.{Refusal as Reason};
ghost use Rattle.jc_bytes.specs.Failing.{Said};
ghost use Rattle.jc_instrument.specs.Analysis.{IsAnalysis};
ghost use Rattle.jc_instrument.specs.Reasons.{AnalysisReason};
ghost use Rattle.jc_instrument.specs.Steps.{IsAnswer};

use crate::bodies::bodies_of;
use crate::described::described;
use jc_bytes::{Fail, Refusal};
use jc_class::read_class;
use jc_methods::Analysed;
use std::alloc::Global;

/// The analysis, or why there is none.
fn answer(alloc: Global, bytes: &[u8]) -> Result<Analysed, Fail<Refusal>>
    requires { length bytes.now ≤ most_read }
    ensures { IsAnswer bytes.now result }
{
    let class = read_class(alloc, bytes)?;
    let bodies = bodies_of(alloc, &class)?;
    Ok(described(alloc, bytes, &class, bodies)?)
}

/// What of a class file a report is made from: its name and id, and the bodies of its methods with their probes.
///
/// A module file, a synthetic class and a class or an interface without code (JVM Specification 4.1) stay as they
/// are: they have no bodies here. Another class has the body of each method that is neither abstract nor native, in
/// the order of the methods. The ids of its probes run from 0 through the bodies (JaCoCo's documentation on control
/// flow).
///
/// # Errors
///
/// `Memory` where memory was refused. Else `Said`, the first of these that applies; where the class stays as it is,
/// only the first three are looked at. The last five name the first method to which they apply.
///
/// 1. `NotAClass`, at the offset of the first item that fails, where the bytes are no class file (JVM Specification
///    4.1, 4.4 to 4.7).
/// 2. `Version`, with the major version, where that is below 50 or above 65.
/// 3. `AlreadyInstrumented`, at 0, where a field or a method is named `$jacocoInit` or `$jacocoData`, or a Class entry
///    names `org/jacoco/agent/rt/internal/Offline`.
/// 4. `InterfaceBody`, at 0, where a method of an interface has a Code attribute.
/// 5. `Subroutine`, at its offset, where `jsr`, `jsr_w` or `ret` stands behind well formed instructions alone.
/// 6. `BadCode`, where the code of a method has a fault (4.7.3, 4.9): the first one that [`jc_body::read_body`]
///    lists, at its place.
/// 7. `FrameMissing`, at the instruction, where an instruction that needs a stack map frame has none (4.10.1).
/// 8. `FrameClash`, at the instruction, where types don't fit where control goes on (4.10.1).
pub fn analyse(alloc: Global, bytes: &[u8]) -> Result<Analysed, Fail<Refusal>>
    requires size { length bytes.now ≤ most_read }
    // What is answered is so.
    ensures analysed { IfOk result (IsAnalysis bytes.now) }
    ensures refused { IfErr result (λ e. Said e (λ r. AnalysisReason bytes.now (Some r))) }
    // What is so is answered, unless memory runs out.
    ensures accepted { AnalysisReason bytes.now None → MatchResult result (λ _. ⊤) (λ e. e ≡ Fail.Memory) }
    ensures reason { (r : Reason) → AnalysisReason bytes.now (Some r)
        → MatchResult result (λ _. ⊥) (λ e. (e ≡ Fail.Memory) ⊎ (e ≡ Fail.Said r)) }
{
    answer(alloc, bytes)
}
