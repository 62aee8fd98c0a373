//! The reference check of a program.
ghost use Rattle.std.specs.Prelude.{◌≡◌, ◌⊎◌, ⊤, ℕ, true, length, slice_get, Some, IfOk, IfErr, OnOk, MatchResult};
ghost use Rattle.jc_bytes.specs.Failing.{Said};
ghost use Rattle.jc_methods.specs.declared.body.Body.{Body};
ghost use Rattle.jc_programs.specs.declared.run_end.Entry.{Entry as MethodOf};
ghost use Rattle.jc_machine_model.specs.Programs.{IsProgram};
ghost use Rattle.jc_methods.specs.VerificationTypes.{Grows};
ghost use Rattle.jc_methods.specs.WellMade.{IsWellMade};
ghost use Rattle.jc_programs.specs.Members.{class_at};
ghost use Rattle.jc_kinds.specs.StateSequence.{IsKeptEntry};
ghost use Rattle.jc_refs_check.specs.Classes.{AreKnown};
ghost use Rattle.jc_refs_check.specs.KindNeeds.{IsCheckedMethod};
ghost use Rattle.jc_refs_check.specs.SuitedWalk.{IsFirstFailing, IsSuitedWalk};
ghost use Rattle.jc_machine_model.specs.Methods.{is_enterable, most_frame_slots};
ghost use Rattle.jc_refs_check.specs.MethodAnswers.{IsMethodOk, IsMethodRefusal, IsEnteredRefusal, AreMethodsOk, IsClassRefusal};
ghost use Rattle.jc_refs_check.specs.Checking.{IsMet, IsChecking};
ghost use Rattle.jc_refs_check.specs.RefsOk.{IsSuited, RefsOk, FirstRefFault};
ghost use Rattle.jc_refs_check.specs.Answers.{IsRefRefusal, ref_refusal_of};

use crate::classes::Classes;
use crate::handlers::first_unguarded;
use crate::members::ProgramTypes;
use crate::operands::CheckedMethod;
use crate::ref_refusal::RefRefusal;
use crate::walk::{Walked, walk};
use jc_bytes::{Fail, Memory, Names};
use jc_kinds_after::Effects;
use jc_machine_code::{PreparedProgram, is_enterable, most_frame_slots};
use jc_methods::{Body, State, entry_state};
use jc_programs::{Entry, Linked, Program};
use std::alloc::Global;

/// What methods are checked with.
#[derive(Clone, Copy)]
struct Checking<'a> {
    program: &'a Program,
    operations: &'a PreparedProgram,
    types: &'a ProgramTypes,
}

/// What the check has met so far.
#[derive(Drop)]
struct Met {
    classes: Classes,
    /// Room for a number for each class, all of which are 0.
    reached: Vec<u32>,
}

/// The state in which a method begins. The arguments of a well made body fit, so that only memory may be wanting.
fn entry_of(alloc: Global, body: &Body, names: &mut Names) -> Result<State, Memory>
    requires { IsWellMade body.now }
    ensures state { IfOk result (λ state. IsKeptEntry names.new body.now state) }
    ensures names { Grows names.old names.new }
{
    match entry_state(
        alloc,
        &body.owner,
        &body.name,
        &body.desc,
        body.flags,
        body.max_locals,
        names,
    ) {
        Ok(state) => Ok(state),
        Err(_) => Err(Memory),
    }
}

/// The walk over the method up to the first instruction whose references don't suit.
fn walk_method(
    alloc: Global,
    checked: &CheckedMethod<'_>,
    keeps: bool,
    classes: &mut Classes,
) -> Result<Walked, Memory>
    requires method { IsCheckedMethod classes.old.names checked.now }
    requires known { AreKnown classes.old }
    ensures walk { IfOk result (λ walked. IsSuitedWalk checked.now.program.now checked.now.method checked.now.body.now
        classes.new.names keeps walked.count walked.states.items) }
    ensures known { OnOk result (AreKnown classes.new) }
    ensures names { OnOk result (Grows classes.old.names classes.new.names) }
{
    let body = checked.body;
    let entry = entry_of(alloc, body, &mut classes.names)?;
    let mut effects = Effects::of(alloc, body, &mut classes.names)?;
    classes.learn()?;
    walk(alloc, &mut effects, checked, entry, keeps, classes)
}

/// The first instruction of a method whose references don't suit, or the number of its instructions.
fn first_unsuited(
    alloc: Global,
    checked: &CheckedMethod<'_>,
    met: &mut Met,
) -> Result<usize, Memory>
    requires method { IsCheckedMethod met.old.classes.names checked.now }
    requires met { IsMet met.old }
    ensures first { IfOk result (IsFirstFailing (IsSuited checked.now.program.now checked.now.method checked.now.body.now)
        (length checked.now.body.now.code)) }
    ensures met { OnOk result (IsMet met.new) }
    ensures names { OnOk result (Grows met.old.classes.names met.new.classes.names) }
{
    let body = checked.body;
    let is_guarded = !body.handlers.is_empty();
    let walked = walk_method(alloc, checked, is_guarded, &mut met.classes)?;
    if !is_guarded {
        return Ok(walked.count);
    }
    let first = first_unguarded(
        alloc,
        &walked.states,
        body,
        &mut met.classes,
        &mut met.reached,
    )?;
    Ok(first)
}

/// Checks a method that threads may enter.
fn check_method(
    alloc: Global,
    checked: &CheckedMethod<'_>,
    met: &mut Met,
) -> Result<(), Fail<RefRefusal>>
    requires method { IsCheckedMethod met.old.classes.names checked.now }
    requires met { IsMet met.old }
    ensures passes { IfOk result (λ _. IsMethodOk checked.now.program.now checked.now.method checked.now.body.now) }
    ensures refused { IfErr result (λ e. Said e (IsMethodRefusal checked.now.program.now checked.now.method checked.now.body.now)) }
    ensures met { OnOk result (IsMet met.new) }
    ensures names { OnOk result (Grows met.old.classes.names met.new.classes.names) }
{
    let first = first_unsuited(alloc, checked, met)?;
    if first < checked.body.code.len() {
        return Err(Fail::Said(RefRefusal {
            class: checked.method.class,
            method: checked.body.method,
            at: first as u32,
        }));
    }
    Ok(())
}

/// Checks a method of a class, if threads may enter it. `most` is the most slots that a method of the class may have.
fn check_entered(
    alloc: Global,
    checking: Checking<'_>,
    method: Entry,
    linked: &Linked,
    body: &Body,
    most: u32,
    met: &mut Met,
) -> Result<(), Fail<RefRefusal>>
    requires checking { IsChecking met.old.classes.names checking }
    requires class { class_at checking.program.now method.class ≡ Some linked.now }
    requires body { slice_get linked.now.bodies method.method ≡ Some body.now }
    requires most { most_frame_slots linked.now ≡ most }
    requires met { IsMet met.old }
    ensures passes { IfOk result (λ _. is_enterable linked.now body.now ≡ true → IsMethodOk checking.entry.program.now method body.now) }
    ensures refused { IfErr result (λ e. Said e (IsEnteredRefusal checking.entry.program.now method linked.now body.now)) }
    ensures met { OnOk result (IsMet met.new) }
    ensures names { OnOk result (Grows met.old.classes.names met.new.classes.names) }
{
    if !is_enterable(linked, body, most) {
        return Ok(());
    }
    let checked = CheckedMethod {
        program: checking.program,
        method,
        body,
        operations: checking.operations,
        types: checking.types,
    };
    check_method(alloc, &checked, met)
}

/// Checks the methods of the class with a number that threads may enter.
fn check_class(
    alloc: Global,
    checking: Checking<'_>,
    class: u32,
    linked: &Linked,
    met: &mut Met,
) -> Result<(), Fail<RefRefusal>>
    requires checking { IsChecking met.old.classes.names checking }
    requires class { class_at checking.program.now class ≡ Some linked.now }
    requires met { IsMet met.old }
    ensures passes { IfOk result (λ _. AreMethodsOk checking.entry.program.now class linked.now (length linked.now.bodies)) }
    ensures refused { IfErr result (λ e. Said e (IsClassRefusal checking.entry.program.now class linked.now)) }
    ensures met { OnOk result (IsMet met.new) }
    ensures names { OnOk result (Grows met.old.classes.names met.new.classes.names) }
{
    let most = most_frame_slots(linked);
    'checking: for (number, body) in linked.bodies.iter().enumerate() {
        let method = Entry {
            class,
            method: number as u32,
        };
        check_entered(alloc, checking, method, linked, body, most, met)?;
    }
    Ok(())
}

/// Whether each reference suits what takes it, at each instruction of each body that threads may enter: operands at instructions
/// of the profile, what is left where a branch leads, local variables and what is caught at handlers, and arguments at the first
/// instruction.
///
/// # Errors
///
/// `Said` with the first instruction at which one doesn't; `Memory` where memory was refused.
pub fn check_refs(alloc: Global, program: &Program) -> Result<(), Fail<RefRefusal>>
    requires program { IsProgram program.now }
    // What is answered is so.
    ensures passes { IfOk result (λ _. RefsOk program.now) }
    ensures refused { IfErr result (λ e. Said e (IsRefRefusal program.now)) }
    // What is so is answered, unless memory runs out.
    ensures checked { RefsOk program.now → MatchResult result (λ _. ⊤) (λ e. e ≡ Fail.Memory) }
    ensures first { (method : MethodOf) (b : Body) (i : ℕ) → FirstRefFault program.now method b i
        → MatchResult result (λ _. ⊥) (λ e. (e ≡ Fail.Memory) ⊎ (e ≡ Fail.Said (ref_refusal_of method b i))) }
{
    let operations = PreparedProgram::of(alloc, program)?;
    let mut classes = Classes::of(alloc, &program.names)?;
    let types = ProgramTypes::of(alloc, program, &mut classes.names)?;
    classes.learn()?;
    let checking = Checking {
        program,
        operations: &operations,
        types: &types,
    };
    let mut met = Met {
        classes,
        reached: Vec::new(alloc),
    };
    'checking: for (class, linked) in program.classes.iter().enumerate() {
        check_class(alloc, checking, class as u32, linked, &mut met)?;
    }
    Ok(())
}
