//! Bodies that weren't kept are read again, one at a time.
ghost use Rattle.std.specs.Prelude.{◌≡◌, ◌≤◌, ℕ, length, IfOk, IfErr, IfSome};
ghost use Rattle.std.specs.List.{list_any};
ghost use Rattle.jc_bytes.specs.Reader.{most_read};
ghost use Rattle.jc_methods.specs.VerificationTypes.{AreNumberedFrames, Grows, Names as ClassNames};
ghost use Rattle.jc_methods.specs.WellMade.{IsWellMade};
ghost use Rattle.jc_methods.specs.declared.body.Body.{Body as MethodBody};
ghost use Rattle.jc_class.specs.ClassText.{ClassText};
ghost use Rattle.jc_class.specs.declared.class_file.ClassFile.{ClassFile as ClassOf};
ghost use Rattle.jc_body.specs.BodyOf.{BodyOf};
ghost use Rattle.jc_kinds.specs.Answers.{AreStates};
ghost use Rattle.jc_kinds.specs.Checked.{Checked};
ghost use Rattle.jc_emit.specs.Placing.{ArePlacesFor};
ghost use Rattle.jc_emit.specs.Refusing.{HasRoom};
ghost use Rattle.jc_plan.specs.Plan.{plan_of};
ghost use Rattle.jc_pool.specs.Adding.{Extends};
ghost use Rattle.jc_instrument.specs.BodiesWithStates.{BodyWithStates};
ghost use Rattle.jc_instrument.specs.Ready.{IsLaidFor, IsPlannedBody, IsReadAgain, IsReady, IsReadyFrom, IsSource, TakesProbes, is_unread, source_of};
ghost use Rattle.jc_instrument.specs.Writing.{IsPlannedWork, IsWrittenWork, RefusesWork};

use crate::constants::ProbeConstants;
use crate::ready::{LaidCode, PlannedBody, ReadyBody, UnreadBody, laid_body};
use crate::writing::body_text;
use jc_body::read_body;
use jc_bytes::{Bytes, Fail, List, Memory, Names};
use jc_class::{ClassFile, read_class};
use jc_instrument_code::CodePlaces;
use jc_kinds::states;
use jc_methods::{Body, Plan, State};
use jc_plan::plan;
use jc_pool::{Pool, PoolFull};
use std::alloc::Global;

/// Whether the body is to be read again.
fn is_unread(planned: &PlannedBody) -> bool
    ensures { result ≡ is_unread planned.now }
{
    matches!(planned, PlannedBody::Unread(_))
}

/// Whether one of the bodies is.
fn some_unread(bodies: &[PlannedBody]) -> bool
    ensures { result ≡ list_any is_unread bodies.now }
{
    bodies.iter().any(|body| is_unread(body))
}

/// The class file as it was given, if one of these bodies is to be read again.
pub fn source_of(
    alloc: Global,
    bytes: &[u8],
    bodies: &[PlannedBody],
) -> Result<Option<ClassFile>, Memory>
    requires size { length bytes.now ≤ most_read }
    requires text { (c : ClassOf) × ClassText bytes.now c }
    ensures { (c : ClassOf) → ClassText bytes.now c → IfOk result (λ source. source ≡ source_of bodies.now c) }
{
    if !some_unread(bodies) {
        return Ok(None);
    }
    match read_class(alloc, bytes) {
        Ok(class) => Ok(Some(class)),
        Err(Fail::Memory) => Err(Memory),
        Err(Fail::Said(_)) => unreachable!(),
    }
}

/// The layout of the instrumented code of a body that takes its probes, and where the body's instructions stand.
fn laid_again(
    alloc: Global,
    body: &Body,
    plan: &Plan,
    constants: &ProbeConstants,
) -> Result<LaidCode, Memory>
    requires { (first : ℕ) × (plan.now ≡ plan_of body.now first) × TakesProbes constants.now body.now first }
    ensures laid { IfOk result (λ code. IsLaidFor constants.now body.now plan.now code.laid) }
    ensures places { IfOk result (λ code. ArePlacesFor body.now plan.now constants.now.fetch code.insn_places) }
    ensures room { IfOk result (λ _. HasRoom body.now) }
{
    match laid_body(alloc, body, plan, constants) {
        Ok(code) => Ok(code),
        Err(Fail::Memory) => Err(Memory),
        Err(Fail::Said(_)) => unreachable!(),
    }
}

/// The states of a body that passes the kind check.
fn states_again(alloc: Global, body: &Body, names: &mut Names) -> Result<List<State>, Memory>
    requires made { IsWellMade body.now }
    requires frames { AreNumberedFrames (length names.old) body.now.frames }
    requires checked { Checked names.old body.now }
    ensures states { IfOk result (AreStates names.new body.now) }
    ensures names { Grows names.old names.new }
{
    match states(alloc, body, names) {
        Ok(found) => Ok(List::from_vec(found)),
        Err(Fail::Memory) => Err(Memory),
        Err(Fail::Said(_)) => unreachable!(),
    }
}

/// A body whose ids begin with this one, ready for its instrumented code to be written.
fn ready_again(
    alloc: Global,
    body: Body,
    first: u32,
    constants: &ProbeConstants,
    names: &mut Names,
) -> Result<ReadyBody, Memory>
    requires takes { TakesProbes constants.now body first }
    requires frames { AreNumberedFrames (length names.old) body.frames }
    requires checked { Checked names.old body }
    ensures ready { IfOk result (IsReady names.new constants.now) }
    ensures body { IfOk result (λ r. r.body ≡ body) }
    ensures plan { IfOk result (λ r. r.plan ≡ plan_of r.body first) }
    ensures names { Grows names.old names.new }
{
    let plan = plan(alloc, &body, first)?;
    let LaidCode { laid, insn_places } = laid_again(alloc, &body, &plan, constants)?;
    let states = states_again(alloc, &body, names)?;
    Ok(ReadyBody {
        body,
        plan,
        laid,
        insn_places,
        states,
    })
}

/// The body of the method with this number, read again.
pub fn body_again(
    alloc: Global,
    class: &ClassFile,
    method: u16,
    names: &mut Names,
) -> Result<Body, Memory>
    requires source { IsSource class.now }
    requires there { (b : MethodBody) × BodyOf names.old class.now method b }
    ensures body { (b : MethodBody) → BodyOf names.old class.now method b → IfOk result (λ read. read ≡ b) }
    ensures names { Grows names.old names.new }
{
    match read_body(alloc, class, u32::from(method), names) {
        Ok(Some(body)) => Ok(body),
        Ok(None) => unreachable!(),
        Err(Fail::Memory) => Err(Memory),
        Err(Fail::Said(_)) => unreachable!(),
    }
}

/// The body is read again, and made ready.
fn read_again(
    alloc: Global,
    class: &ClassFile,
    unread: UnreadBody,
    constants: &ProbeConstants,
    names: &mut Names,
) -> Result<ReadyBody, Memory>
    requires { IsReadAgain names.old constants.now class.now unread }
    ensures ready { IfOk result (IsReady names.new constants.now) }
    ensures body { (b : MethodBody) → BodyOf names.old class.now unread.method b → IfOk result (λ r. r.body ≡ b) }
    ensures plan { IfOk result (λ r. r.plan ≡ plan_of r.body unread.first) }
    ensures names { Grows names.old names.new }
{
    let body = body_again(alloc, class, unread.method, names)?;
    ready_again(alloc, body, unread.first, constants, names)
}

/// The body, ready for its instrumented code to be written. One that wasn't kept is read again from the class file as it
/// was given.
fn ready_body(
    alloc: Global,
    planned: PlannedBody,
    source: &Option<ClassFile>,
    constants: &ProbeConstants,
    names: &mut Names,
) -> Result<ReadyBody, Memory>
    requires { IsReadyFrom names.old constants.now source.now planned }
    ensures ready { IfOk result (IsReady names.new constants.now) }
    ensures body { (b : MethodBody) (first : ℕ) → IsPlannedBody names.old constants.now b first planned
        → IfSome source.now (λ c. BodyOf names.old c b.method b) → IfOk result (λ r. r.body ≡ b) }
    ensures plan { (b : MethodBody) (first : ℕ) → IsPlannedBody names.old constants.now b first planned
        → IfOk result (λ r. r.plan ≡ plan_of r.body first) }
    ensures names { Grows names.old names.new }
{
    match planned {
        PlannedBody::Ready(ready) => Ok(ready),
        PlannedBody::Unread(unread) => match source {
            Some(class) => read_again(alloc, class, unread, constants, names),
            None => unreachable!(),
        },
    }
}

/// What the Code attribute of the method of this body holds, instrumented. Before it is written the pool takes the
/// classes that the frames name; all of the body is dropped then.
///
/// # Errors
///
/// `PoolFull` where the pool can't take one of the classes, and `Memory` where memory was refused, and where a text
/// would be too long for an attribute.
pub fn planned_text(
    alloc: Global,
    planned: PlannedBody,
    source: &Option<ClassFile>,
    constants: &ProbeConstants,
    places: &CodePlaces,
    names: &mut Names,
    pool: &mut Pool,
) -> Result<Bytes, Fail<PoolFull>>
    requires { IsReadyFrom names.old constants.now source.now planned }
    ensures text { (others : ClassNames) (array : ℕ) (w : BodyWithStates) → IsPlannedWork names.old others constants.now array source.now planned w
        → IfOk result (IsWrittenWork pool.old constants.now places.now others array w pool.new) }
    ensures refused { (others : ClassNames) (array : ℕ) (w : BodyWithStates) → IsPlannedWork names.old others constants.now array source.now planned w
        → IfErr result (RefusesWork pool.old constants.now others array w) }
    ensures names { Grows names.old names.new }
    ensures extends { Extends pool.old pool.new }
{
    let ready = ready_body(alloc, planned, source, constants, names)?;
    body_text(alloc, ready, constants, places, names, pool)
}
