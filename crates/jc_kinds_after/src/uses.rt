//! What the things that a body uses do to types.
ghost use Rattle.std.specs.Prelude.{◌≡◌, ◌∷◌, ◌++◌, [], List as Seq, IfOk, OnOk};
ghost use Rattle.jc_bytes.specs.Descriptor.{IsMethodDescriptor};
ghost use Rattle.jc_methods.specs.DescriptorTypes.{method_type_in};
ghost use Rattle.jc_methods.specs.VerificationTypes.{Names, Grows};
ghost use Rattle.jc_methods.specs.ValueTypes.{held_by};
ghost use Rattle.jc_methods.specs.declared.body.Use.{Use};
ghost use Rattle.jc_kinds_after.specs.After.{return_for, return_op};
ghost use Rattle.jc_kinds_after.specs.Does.{AllSay};

use crate::effect::{Effect, effect_of};
use jc_bytes::{Memory, Names};
use jc_methods::{Use, ValueType, method_types, opcode};
use std::alloc::Global;
use std::collections::HashMap;

/// Reads what one more use does to types, unless an earlier one is for its place.
fn add_effect(
    alloc: Global,
    entry: &Use,
    effects: &mut HashMap<u16, Effect>,
    names: &mut Names,
) -> Result<(), Memory>
    ensures effects { (uses : Seq Use) → AllSay names.old uses effects.old
        → OnOk result (AllSay names.new (uses ++ entry.now ∷ []) effects.new) }
    ensures names { Grows names.old names.new }
{
    if effects.contains_key(&entry.place) {
        return Ok(());
    }
    let effect = effect_of(alloc, &entry.what, names)?;
    effects.insert(entry.place, effect)?;
    Ok(())
}

/// What each of the uses does to types, by its place in the pool. They may stand in any order.
pub fn all_effects(
    alloc: Global,
    uses: &[Use],
    names: &mut Names,
) -> Result<HashMap<u16, Effect>, Memory>
    ensures effects { IfOk result (λ effects. AllSay names.new uses.now effects) }
    ensures names { Grows names.old names.new }
{
    let mut effects = HashMap::new(alloc);
    'reading: for entry in uses {
        add_effect(alloc, entry, &mut effects, names)?;
    }
    Ok(effects)
}

/// The opcode of the return of a value.
fn return_of(value: ValueType<'_>) -> u8
    ensures { result ≡ return_for (held_by value.entry) }
{
    match value {
        ValueType::Byte | ValueType::Char | ValueType::Int => opcode::IRETURN,
        ValueType::Short | ValueType::Boolean => opcode::IRETURN,
        ValueType::Float => opcode::FRETURN,
        ValueType::Long => opcode::LRETURN,
        ValueType::Double => opcode::DRETURN,
        ValueType::Object(_) | ValueType::Array(_) => opcode::ARETURN,
    }
}

/// The opcode of the returns of a method.
pub fn return_opcode(alloc: Global, desc: &[u8]) -> Result<u8, Memory>
    requires { IsMethodDescriptor desc.now }
    ensures { IfOk result (λ op. op ≡ return_op (method_type_in desc.now).returns) }
{
    let types = method_types(alloc, desc)?;
    match types.returns {
        Some(value) => Ok(return_of(value)),
        None => Ok(opcode::RETURN),
    }
}
