//! What an instruction does to types.
ghost use Rattle.std.specs.Prelude.{◌≡◌, ◌≢◌, drop, Option, Some, option_map};
ghost use Rattle.jc_bytes.specs.Descriptor.{FieldType};
ghost use Rattle.jc_methods.specs.VerificationTypes.{Names, VerificationType, verification_type};
ghost use Rattle.jc_methods.specs.Opcode as opcode;
ghost use Rattle.jc_kinds_after.specs.Does.{does, of_class};
ghost use Rattle.jc_kinds_after.specs.Steps.{step_in, constant_by, static_by, object_by, field_by, method_by, member_by};
ghost use Rattle.jc_kinds_after.specs.Steps.{array_by, class_by, multi_by, is_picking};
ghost use Rattle.jc_kinds_after.specs.After.{local_step as local_step_of, local_want as local_want_of, return_op, simple_step as simple_step_of};

use crate::Want;
use crate::effect::Effect;
use jc_methods::{Insn, Kind, opcode};

/// What an instruction does to types.
#[derive(Clone, Copy, Debug)]
pub enum Step<'a> {
    /// What the table says of an opcode.
    Opcode(u8),
    /// Pushes a value.
    Push(Kind),
    /// Takes a value.
    Take(Want),
    /// Takes a value and the object below it, which may be `this` before the constructor of the superclass was
    /// called.
    Put(Want),
    /// A value becomes another one.
    Turn(Want, Kind),
    /// So many lengths become an array.
    Dimensions(u8, Kind),
    /// Operands become a result.
    Call(&'a [Want], Option<Kind>),
    /// Pushes a local variable.
    Load(u16, Want),
    /// Pops into a local variable.
    Store(u16, Want),
    /// Adds to a local variable.
    Count(u16),
    /// Pushes a new object.
    Make,
    /// Calls a constructor, with these operands above the object.
    Build(&'a [Want], Option<Kind>),
    /// There are no types after it.
    Fail,
}

/// What a load or a store of a local variable moves.
fn local_want(op: u8) -> Want
    ensures { result ≡ local_want_of op }
{
    if op == opcode::ILOAD || op == opcode::ISTORE {
        Want::Int
    } else if op == opcode::LLOAD || op == opcode::LSTORE {
        Want::Long
    } else if op == opcode::FLOAD || op == opcode::FSTORE {
        Want::Float
    } else if op == opcode::DLOAD || op == opcode::DSTORE {
        Want::Double
    } else {
        Want::Anything
    }
}

/// `iload` to `aload`, and `istore` to `astore`.
pub fn local_step<'a>(op: u8, slot: u16) -> Step<'a>
    ensures { (names : Names) → step_in names result ≡ local_step_of op slot }
{
    if op < opcode::ISTORE {
        Step::Load(slot, local_want(op))
    } else {
        Step::Store(slot, local_want(op))
    }
}

/// The operands of a call without the object.
fn without_object(wants: &[Want]) -> &[Want]
    ensures { result.now ≡ drop 1 wants.now }
{
    match wants {
        [_, rest @ ..] => rest,
        [] => wants,
    }
}

/// `ldc` and `ldc2_w`.
pub fn constant_step(effect: &Effect) -> Step<'_>
    ensures { (names : Names) → step_in names result ≡ constant_by (does names effect.now) }
{
    match effect {
        Effect::Value { kind, .. } => Step::Push(*kind),
        Effect::Class { constant, .. } => Step::Push(*constant),
        Effect::Call { .. } | Effect::Nothing => Step::Fail,
    }
}

/// `invokedynamic`.
pub fn static_step(effect: &Effect) -> Step<'_>
    ensures { (names : Names) → step_in names result ≡ static_by (does names effect.now) }
{
    match effect {
        Effect::Call { wants, result, .. } => Step::Call(without_object(wants), *result),
        Effect::Value { .. } | Effect::Class { .. } | Effect::Nothing => Step::Fail,
    }
}

/// `invokeinterface`.
pub fn object_step(effect: &Effect) -> Step<'_>
    ensures { (names : Names) → step_in names result ≡ object_by (does names effect.now) }
{
    match effect {
        Effect::Call { wants, result, .. } => Step::Call(wants, *result),
        Effect::Value { .. } | Effect::Class { .. } | Effect::Nothing => Step::Fail,
    }
}

/// `getstatic` to `putfield`.
fn field_step<'a>(op: u8, want: Want, kind: Kind) -> Step<'a>
    ensures { (names : Names) → step_in names result ≡ field_by op want (verification_type names kind) }
{
    if op == opcode::GETSTATIC {
        Step::Push(kind)
    } else if op == opcode::PUTSTATIC {
        Step::Take(want)
    } else if op == opcode::GETFIELD {
        Step::Turn(Want::Reference, kind)
    } else {
        Step::Put(want)
    }
}

/// `invokevirtual` to `invokestatic`.
fn method_step(op: u8, wants: &[Want], outcome: Option<Kind>, builds: bool) -> Step<'_>
    ensures { (names : Names) → step_in names result ≡ method_by op wants.now (option_map (verification_type names) outcome) builds }
{
    if op == opcode::INVOKESTATIC {
        Step::Call(without_object(wants), outcome)
    } else if op == opcode::INVOKESPECIAL && builds {
        Step::Build(without_object(wants), outcome)
    } else {
        Step::Call(wants, outcome)
    }
}

/// `getstatic` to `invokestatic`.
pub fn member_step(op: u8, effect: &Effect) -> Step<'_>
    ensures { (names : Names) → step_in names result ≡ member_by op (does names effect.now) }
{
    match effect {
        Effect::Value { want, kind } => {
            if op <= opcode::PUTFIELD {
                field_step(op, *want, *kind)
            } else {
                Step::Fail
            }
        }
        Effect::Call {
            wants,
            result,
            builds,
        } => {
            if op <= opcode::PUTFIELD {
                Step::Fail
            } else {
                method_step(op, wants, *result, *builds)
            }
        }
        Effect::Class { .. } | Effect::Nothing => Step::Fail,
    }
}

/// `anewarray`.
fn array_step<'a>(array: Option<Kind>) -> Step<'a>
    ensures { (names : Names) → step_in names result ≡ array_by (option_map (verification_type names) array) }
{
    match array {
        Some(kind) => Step::Turn(Want::Int, kind),
        None => Step::Fail,
    }
}

/// `new`, `anewarray`, `checkcast` and `instanceof`.
pub fn class_step(op: u8, effect: &Effect) -> Step<'_>
    ensures { (names : Names) → step_in names result ≡ class_by op (does names effect.now) }
{
    match effect {
        Effect::Class { itself, array, .. } => {
            if op == opcode::NEW {
                Step::Make
            } else if op == opcode::ANEWARRAY {
                array_step(*array)
            } else if op == opcode::CHECKCAST {
                Step::Turn(Want::Reference, *itself)
            } else {
                Step::Turn(Want::Reference, Kind::Int)
            }
        }
        Effect::Value { .. } | Effect::Call { .. } | Effect::Nothing => Step::Fail,
    }
}

/// `multianewarray`.
pub fn multi_step(count: u8, effect: &Effect) -> Step<'_>
    ensures { (names : Names) → step_in names result ≡ multi_by count (does names effect.now) }
{
    match effect {
        Effect::Class { itself, .. } => Step::Dimensions(count, *itself),
        Effect::Value { .. } | Effect::Call { .. } | Effect::Nothing => Step::Fail,
    }
}

/// The class itself, where it is one.
pub fn class_of(effect: &Effect) -> Option<Kind>
    ensures { (names : Names) (h constant : VerificationType) (array : Option VerificationType) → does names effect.now ≡ of_class h array constant →
        option_map (verification_type names) result ≡ Some h }
{
    match effect {
        Effect::Class { itself, .. } => Some(*itself),
        Effect::Value { .. } | Effect::Call { .. } | Effect::Nothing => None,
    }
}

/// An instruction without operands: its return has to be the one for the method's result.
pub fn simple_step<'s>(returns: u8, op: u8) -> Step<'s>
    requires { op ≢ opcode.aaload }
    ensures { (names : Names) (type : Option FieldType) → returns ≡ return_op type → step_in names result ≡ simple_step_of type op }
{
    if op < opcode::IRETURN {
        return Step::Opcode(op);
    }
    if op > opcode::RETURN {
        return Step::Opcode(op);
    }
    if op == returns {
        Step::Opcode(op)
    } else {
        Step::Fail
    }
}

/// Whether the instruction is `aaload`.
pub fn is_aaload(insn: &Insn) -> bool
    ensures { result ≡ is_picking insn.now }
{
    match insn {
        Insn::Simple(op) => *op == opcode::AALOAD,
        _ => false,
    }
}
