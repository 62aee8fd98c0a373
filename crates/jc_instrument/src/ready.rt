//! Bodies that are ready for their instrumented code to be written.
ghost use Rattle.std.specs.Prelude.{◌≡◌, ◌≤◌, ℕ, IfOk, IfErr};
ghost use Rattle.jc_methods.specs.ProbeMembers.{most_probes};
ghost use Rattle.jc_methods.specs.WellMade.{IsWellMade};
ghost use Rattle.jc_methods.specs.declared.emitted.Emitted.{Emitted as Emission};
ghost use Rattle.jc_bytes.specs.Failing.{Said};
ghost use Rattle.jc_plan.specs.Plan.{plan_of};
ghost use Rattle.jc_emit.specs.Placing.{HasPlan, ArePlacesFor};
ghost use Rattle.jc_emit.specs.Refusing.{HasRoom, IsTaken};
ghost use Rattle.jc_emit.specs.Stages.{emitted_code};
ghost use Rattle.jc_emit.specs.Written.{integer_in};
ghost use Rattle.jc_layout.specs.LaidBody.{ready_code};
ghost use Rattle.jc_layout.specs.Layable.{IsLayable};
ghost use Rattle.jc_layout.specs.Layout.{chosen_length};
ghost use Rattle.jc_instrument_code.specs.Given.{IsLaid};
ghost use Rattle.jc_instrument.specs.Probing.{IsRefusedAsLarge, IsTooLong};
ghost use Rattle.jc_instrument.specs.Constants.{probed_code};
ghost use Rattle.jc_instrument.specs.Ready.{HasEnough, IsLaidFor, method_of};

use crate::constants::ProbeConstants;
use jc_bytes::{Fail, List, Memory, Refusal};
use jc_emit::{EmittedCode, Places, emit_code};
use jc_layout::{Laid, layout_code};
use jc_methods::{Body, Fetch, Insn, Plan, State};
use std::alloc::Global;

/// The instrumented code of a body in its layout.
#[derive(Debug, Drop)]
pub struct LaidCode {
    /// Its bytes, and the offsets of its instructions.
    pub laid: Laid,
    /// Where the instructions of the body stand in the narrow layout.
    pub insn_places: Places,
}

/// A body that is ready for its instrumented code to be written.
#[derive(Debug, Drop)]
pub struct ReadyBody {
    /// The body.
    pub body: Body,
    /// Its plan.
    pub plan: Plan,
    /// The bytes of its instrumented code, and the offsets of the instructions.
    pub laid: Laid,
    /// Where its instructions stand in its instrumented code, in the narrow layout.
    pub insn_places: Places,
    /// The states before its instructions.
    pub states: List<State>,
}

/// A body that isn't kept, and is read again when its instrumented code is written.
#[derive(Clone, Copy, Debug)]
pub struct UnreadBody {
    /// The number of its method.
    pub method: u16,
    /// The id of its first probe.
    pub first: u32,
}

/// A body whose instrumented code is to be written.
#[derive(Debug, Drop)]
pub enum PlannedBody {
    /// It was kept.
    Ready(ReadyBody),
    /// It takes too many places to be kept.
    Unread(UnreadBody),
}

/// The number of its method.
pub fn method_of(planned: &PlannedBody) -> u16
    ensures { result ≡ method_of planned.now }
{
    match planned {
        PlannedBody::Ready(ready) => ready.body.method,
        PlannedBody::Unread(unread) => unread.method,
    }
}

/// The instrumented code of a body that has room for it, and where the body's instructions stand in it.
fn emitted_code(
    alloc: Global,
    body: &Body,
    plan: &Plan,
    constants: &ProbeConstants,
) -> Result<EmittedCode, Memory>
    requires made { IsWellMade body.now }
    requires plan { HasPlan body.now plan.now }
    requires next { plan.now.next ≤ most_probes }
    requires enough { HasEnough constants.now plan.now.next }
    requires taken { IsTaken body.now }
    ensures code { (first : ℕ) → plan.now ≡ plan_of body.now first
        → IfOk result (λ emitted. emitted.code ≡ emitted_code body.now first constants.now.fetch (integer_in constants.now.integers)) }
    ensures places { IfOk result (λ emitted. ArePlacesFor body.now plan.now constants.now.fetch emitted.places) }
    ensures room { IfOk result (λ _. HasRoom body.now) }
    ensures layable { IfOk result (λ emitted. IsLayable emitted.code) }
{
    match emit_code(alloc, body, plan, constants.fetch, &constants.integers) {
        Ok(emitted) => Ok(emitted),
        Err(Fail::Memory) => Err(Memory),
        Err(Fail::Said(_)) => unreachable!(),
    }
}

/// The code, ready for its layout: where its first instruction loads the constant that gives the array of probes, this one's place
/// stands there.
fn ready_code(code: List<Insn>, constants: &ProbeConstants) -> List<Insn>
    ensures code { result ≡ ready_code constants.now.fetch constants.now.giver code }
    ensures layable { IsLayable code → IsLayable result }
{
    match constants.fetch {
        Fetch::Member => code,
        Fetch::Constant => {
            let mut insns = code.into_vec();
            if !insns.is_empty() {
                insns[0] = Insn::Constant {
                    place: constants.giver,
                };
            }
            List::from_vec(insns)
        }
    }
}

/// The chosen layout of the code of a method. Code that is too large is refused with the method's number.
fn laid(alloc: Global, method: u16, insns: &[Insn]) -> Result<Laid, Fail<Refusal>>
    requires { IsLayable insns.now }
    ensures laid { IfOk result (λ laid. (e : Emission) → e.code ≡ insns.now → IsLaid e laid) }
    ensures refused { IfErr result (λ e. Said e (IsRefusedAsLarge method (chosen_length insns.now))) }
{
    match layout_code(alloc, insns) {
        Ok(laid) => Ok(laid),
        Err(Fail::Memory) => Err(Fail::Memory),
        Err(Fail::Said(refusal)) => Err(Fail::Said(Refusal {
            kind: refusal.kind,
            method: Some(method),
            place: refusal.place,
        })),
    }
}

/// The layout of the instrumented code of a body that has room for it, for which no states are needed, and where the body's
/// instructions stand. Code that is too large is refused with the method's number.
pub fn laid_body(
    alloc: Global,
    body: &Body,
    plan: &Plan,
    constants: &ProbeConstants,
) -> Result<LaidCode, Fail<Refusal>>
    requires made { IsWellMade body.now }
    requires plan { HasPlan body.now plan.now }
    requires next { plan.now.next ≤ most_probes }
    requires enough { HasEnough constants.now plan.now.next }
    requires taken { IsTaken body.now }
    ensures laid { IfOk result (λ code. IsLaidFor constants.now body.now plan.now code.laid) }
    ensures places { IfOk result (λ code. ArePlacesFor body.now plan.now constants.now.fetch code.insn_places) }
    ensures room { IfOk result (λ _. HasRoom body.now) }
    ensures short { (first : ℕ) → plan.now ≡ plan_of body.now first
        → IfOk result (λ _. chosen_length (probed_code constants.now body.now first) ≤ 65535) }
    ensures refused { (first : ℕ) → plan.now ≡ plan_of body.now first → IfErr result (λ e. Said e (IsTooLong constants.now body.now first)) }
{
    let EmittedCode { code, places } = emitted_code(alloc, body, plan, constants)?;
    let laid = laid(alloc, body.method, &ready_code(code, constants))?;
    Ok(LaidCode {
        laid,
        insn_places: places,
    })
}
