//! What one thing that a body uses does to types.
ghost use Rattle.std.specs.Prelude.{◌≡◌, ◌∷◌, ◌++◌, map, IfOk, option_map, codes, bytes_eq};
ghost use Rattle.jc_bytes.specs.Descriptor.{IsFieldDescriptor, IsMethodDescriptor};
ghost use Rattle.jc_methods.specs.DescriptorTypes.{field_type_in, method_type_in};
ghost use Rattle.jc_methods.specs.VerificationTypes.{Names, verification_type, object, Grows};
ghost use Rattle.jc_methods.specs.ValueTypes.{held_by};
ghost use Rattle.jc_kinds_after.specs.After.{array_of as array_name_of, want_for as want_held};
ghost use Rattle.jc_kinds_after.specs.Does.{arrays_of, call_of, does, value, value_of, Says};
ghost use Rattle.jc_methods.specs.declared.body.What.TheVariants as whats;
ghost use Rattle.jc_kinds_after.specs.declared.want.Want.TheVariants as wants;

use crate::Want;
use crate::arrays::object_of;
use jc_bytes::{List, Memory, Names, is_field_descriptor, is_method_descriptor};
use jc_methods::{Kind, ValueType, What, field_type, method_types};
use std::alloc::Global;

/// What a use does to types: its descriptor is read, and its classes are numbered.
#[derive(Debug, Drop)]
pub enum Effect {
    /// Nothing that an instruction asks for.
    Nothing,
    /// A value of this type, with the operand for it: a field or a constant.
    Value {
        want: Want,
        kind: Kind,
    },
    /// A call on an object: the object and the arguments, and the result.
    Call {
        wants: List<Want>,
        result: Option<Kind>,
        /// Whether the method is a constructor.
        builds: bool,
    },
    /// A class, the arrays of it where their class can have a name, and the class of its constant.
    Class {
        itself: Kind,
        array: Option<Kind>,
        constant: Kind,
    },
}

/// The operand for a value of a type.
fn want_for(value: ValueType<'_>) -> Want
    ensures { result ≡ want_held (held_by value.entry) }
{
    match value {
        ValueType::Byte | ValueType::Char | ValueType::Int => Want::Int,
        ValueType::Short | ValueType::Boolean => Want::Int,
        ValueType::Float => Want::Float,
        ValueType::Long => Want::Long,
        ValueType::Double => Want::Double,
        ValueType::Object(_) | ValueType::Array(_) => Want::Reference,
    }
}

/// A field of a type, or a constant of it.
fn value_effect(alloc: Global, desc: &[u8], names: &mut Names) -> Result<Effect, Memory>
    ensures value { IfOk result (λ effect. (more : Names) → IsFieldDescriptor desc.now →
        does (names.new ++ more) effect ≡ value_of (field_type_in desc.now)) }
    ensures names { Grows names.old names.new }
{
    if !is_field_descriptor(desc) {
        return Ok(Effect::Nothing);
    }
    let value = field_type(desc);
    Ok(Effect::Value {
        want: want_for(value),
        kind: value.kind(alloc, names)?,
    })
}

/// The operands of a call on an object.
fn wants_of(alloc: Global, parameters: &[ValueType<'_>]) -> Result<List<Want>, Memory>
    ensures { IfOk result (λ list. list ≡ wants.Reference ∷ map (λ value. want_held (held_by value)) parameters.now) }
{
    let mut wants = Vec::new(alloc);
    wants.push(Want::Reference)?;
    'parameters: for value in parameters {
        wants.push(want_for(*value))?;
    }
    Ok(List::from_vec(wants))
}

/// The result of a call.
fn result_of(
    alloc: Global,
    returns: Option<ValueType<'_>>,
    names: &mut Names,
) -> Result<Option<Kind>, Memory>
    ensures result { IfOk result (λ o. (more : Names) → option_map (verification_type (names.new ++ more)) o ≡ option_map held_by returns.entry) }
    ensures names { Grows names.old names.new }
{
    match returns {
        Some(value) => Ok(Some(value.kind(alloc, names)?)),
        None => Ok(None),
    }
}

/// A call of a method.
fn call_effect(
    alloc: Global,
    desc: &[u8],
    builds: bool,
    names: &mut Names,
) -> Result<Effect, Memory>
    ensures call { IfOk result (λ effect. (more : Names) → IsMethodDescriptor desc.now →
        does (names.new ++ more) effect ≡ call_of builds (method_type_in desc.now)) }
    ensures names { Grows names.old names.new }
{
    if !is_method_descriptor(desc) {
        return Ok(Effect::Nothing);
    }
    let types = method_types(alloc, desc)?;
    let wants = wants_of(alloc, &types.parameters)?;
    let result = result_of(alloc, types.returns, names)?;
    Ok(Effect::Call {
        wants,
        result,
        builds,
    })
}

/// The name of an array of objects of a class, or of arrays with this name.
fn array_name(alloc: Global, name: &[u8]) -> Result<Vec<u8>, Memory>
    ensures { IfOk result (λ array. array.items ≡ array_name_of name.now) }
{
    let mut array = Vec::with_capacity(alloc, name.len().saturating_add(3))?;
    array.push(b'[')?;
    match name {
        [b'[', ..] => {
            array.extend_from_slice(name)?;
            Ok(array)
        }
        _ => {
            array.push(b'L')?;
            array.extend_from_slice(name)?;
            array.push(b';')?;
            Ok(array)
        }
    }
}

/// The arrays of a class, where their class can have a name.
fn array_of(alloc: Global, name: &[u8], names: &mut Names) -> Result<Option<Kind>, Memory>
    ensures array { IfOk result (λ o. (more : Names) → option_map (verification_type (names.new ++ more)) o ≡ arrays_of name.now) }
    ensures names { Grows names.old names.new }
{
    let array = array_name(alloc, name)?;
    if array.len() > 65_535 {
        return Ok(None);
    }
    Ok(Some(object_of(alloc, array.as_slice(), names)?))
}

/// A class.
fn class_effect(alloc: Global, name: &[u8], names: &mut Names) -> Result<Effect, Memory>
    ensures class { IfOk result (λ effect. Says names.new (whats.Class name.now) effect) }
    ensures names { Grows names.old names.new }
{
    let itself = object_of(alloc, name, names)?;
    let array = array_of(alloc, name, names)?;
    let constant = object_of(alloc, b"java/lang/Class", names)?;
    Ok(Effect::Class {
        itself,
        array,
        constant,
    })
}

/// A constant that is an object of this class.
fn constant_effect(alloc: Global, class: &[u8], names: &mut Names) -> Result<Effect, Memory>
    ensures constant { IfOk result (λ effect. (more : Names) → does (names.new ++ more) effect ≡ value wants.Reference (object class.now)) }
    ensures names { Grows names.old names.new }
{
    Ok(Effect::Value {
        want: Want::Reference,
        kind: object_of(alloc, class, names)?,
    })
}

/// Whether a method with this name is a constructor.
fn is_constructor(name: &[u8]) -> bool
    ensures { result ≡ bytes_eq name.now (codes "<init>") }
{
    name == b"<init>".as_slice()
}

/// What a use does to types.
pub fn effect_of(alloc: Global, what: &What, names: &mut Names) -> Result<Effect, Memory>
    ensures says { IfOk result (λ effect. Says names.new what.now effect) }
    ensures names { Grows names.old names.new }
{
    match what {
        What::Field { desc, .. } | What::Computed { desc, .. } => value_effect(alloc, desc, names),
        What::Method { name, desc, .. } => call_effect(alloc, desc, is_constructor(name), names),
        What::Call { desc, .. } => call_effect(alloc, desc, false, names),
        What::Class(name) => class_effect(alloc, name, names),
        What::Int(_) => Ok(Effect::Value {
            want: Want::Int,
            kind: Kind::Int,
        }),
        What::Long(_) => Ok(Effect::Value {
            want: Want::Long,
            kind: Kind::Long,
        }),
        What::Float => Ok(Effect::Value {
            want: Want::Float,
            kind: Kind::Float,
        }),
        What::Double => Ok(Effect::Value {
            want: Want::Double,
            kind: Kind::Double,
        }),
        What::Text => constant_effect(alloc, b"java/lang/String", names),
        What::Handle => constant_effect(alloc, b"java/lang/invoke/MethodHandle", names),
        What::MethodKind => constant_effect(alloc, b"java/lang/invoke/MethodType", names),
    }
}
