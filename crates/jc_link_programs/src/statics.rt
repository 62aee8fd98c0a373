//! The static fields of a class, and the numbers with which they begin.
ghost use Rattle.std.specs.Prelude.{◌≡◌, ◌≤◌, [], ◌∷◌, All, FitsSigned, IfOk, Some, length};
ghost use Rattle.std.specs.Int.{w32, w64};
ghost use Rattle.std.specs.Option.{option_copied};
ghost use Rattle.jc_bytes.specs.Descriptor.{FieldType, IsFieldDescriptor};
ghost use Rattle.jc_methods.specs.DescriptorTypes.{field_type_in};
ghost use Rattle.jc_methods.specs.ValueTypes.{Says};
ghost use Rattle.jc_machine_model.specs.Programs.{IsFirstOf, IsStatic};
ghost use Rattle.jc_machine_numbers.specs.Narrowings.{narrowing_of};
ghost use Rattle.jc_programs.specs.Narrowing.{narrowed};
ghost use Rattle.jc_body.specs.Attributes.{bodies_of};
ghost use Rattle.jc_class.specs.ClassFormat.{HasText, HasFieldDescriptor};
ghost use Rattle.jc_class.specs.Writable.{IsClassFile, IsMember};
ghost use Rattle.jc_link_programs.specs.Statics.{as_static, constant_place, first_number, has_clinit, int_at, int_narrowing, is_clinit, long_at, number_at, place_in, single, statics_of};

use jc_body::has_name;
use jc_bytes::{Bytes, List, Memory};
use jc_class::{Attribute, ClassFile, Member};
use jc_machine_numbers::Narrowing;
use jc_methods::{ValueType, field_type};
use jc_pool::{ConstText, Pool};
use jc_programs::StaticField;
use std::alloc::Global;

/// The flag of a static field (JVM Specification 4.5, ACC_STATIC).
const STATIC: u16 = 0x0008;

/// The number of two bytes that the bytes are, if they are one.
fn place_in(bytes: &[u8]) -> Option<u16>
    ensures { result ≡ place_in bytes.now }
{
    match bytes {
        [high, low] => Some(u16::from(*high) * 256 + u16::from(*low)),
        _ => None,
    }
}

/// What the one attribute of a name holds, if there is no other of this name.
pub fn single_named<'a>(pool: &Pool, name: &[u8], attributes: &'a [Attribute]) -> Option<&'a [u8]>
    ensures { option_copied result ≡ single (bodies_of pool.now name.now attributes.now) }
{
    let mut found = None;
    let mut rest = attributes;
    'naming: while let [attribute, after @ ..] = rest {
        if has_name(pool, name, attribute) {
            if found.is_some() {
                return None;
            }
            found = Some(attribute.body.as_slice());
        }
        rest = after;
    }
    found
}

/// The place in the pool that the one ConstantValue attribute names (JVM Specification 4.7.2).
fn constant_place(pool: &Pool, attributes: &[Attribute]) -> Option<u16>
    ensures { result ≡ constant_place pool.now attributes.now }
{
    place_in(single_named(pool, b"ConstantValue", attributes)?)
}

/// The Integer at a place, or 0 where none stands there.
fn int_at(pool: &Pool, place: u16) -> i32
    ensures number { result ≡ int_at pool.now place }
    ensures fits { FitsSigned w32 (int_at pool.now place) }
{
    match pool.const_at(place) {
        Ok(ConstText::Int(value)) => value,
        _ => 0,
    }
}

/// The Long at a place, or 0 where none stands there.
fn long_at(pool: &Pool, place: u16) -> i64
    ensures number { result ≡ long_at pool.now place }
    ensures fits { FitsSigned w64 (long_at pool.now place) }
{
    match pool.const_at(place) {
        Ok(ConstText::Long(value)) => value,
        _ => 0,
    }
}

/// The Integer at a place, as it is stored where values of a type are kept.
fn stored_int(pool: &Pool, narrowing: Narrowing, place: u16) -> i64
    ensures number { (type : FieldType) → narrowing_of type ≡ narrowing → result ≡ narrowed type (int_at pool.now place) }
    ensures fits { FitsSigned w32 (int_at pool.now place) }
{
    i64::from(narrowing.narrowed(int_at(pool, place)))
}

/// How an Integer is stored with which a field of a type begins, where it begins with one (JVM Specification 4.7.2, table
/// 4.7.2-A).
fn int_narrowing(kind: ValueType<'_>) -> Option<Narrowing>
    ensures { (type : FieldType) → Says kind.entry type → result ≡ int_narrowing type }
{
    match kind {
        ValueType::Boolean => Some(Narrowing::ToBoolean),
        ValueType::Byte => Some(Narrowing::ToByte),
        ValueType::Char => Some(Narrowing::ToChar),
        ValueType::Short => Some(Narrowing::ToShort),
        ValueType::Int => Some(Narrowing::Unchanged),
        _ => None,
    }
}

/// The number at a place with which a field of a type begins.
fn number_at(pool: &Pool, kind: ValueType<'_>, place: u16) -> i64
    ensures number { (type : FieldType) → Says kind.entry type → result ≡ number_at pool.now type place }
    ensures fits { (type : FieldType) → Says kind.entry type → IsFirstOf (Some type) result }
{
    match (kind, int_narrowing(kind)) {
        (_, Some(narrowing)) => stored_int(pool, narrowing, place),
        (ValueType::Long, None) => long_at(pool, place),
        (_, None) => 0,
    }
}

/// The number with which a field with this descriptor and these attributes begins.
fn first_number(pool: &Pool, desc: &[u8], attributes: &[Attribute]) -> i64
    requires { IsFieldDescriptor desc.now }
    ensures number { result ≡ first_number pool.now desc.now attributes.now }
    ensures fits { IsFirstOf (field_type_in desc.now) result }
{
    match constant_place(pool, attributes) {
        Some(place) => number_at(pool, field_type(desc), place),
        None => 0,
    }
}

/// A static field.
fn static_field(alloc: Global, pool: &Pool, field: &Member) -> Result<StaticField, Memory>
    requires { IsMember (HasText pool.now) (HasFieldDescriptor pool.now) field.now }
    ensures fits { IfOk result IsStatic }
    ensures field { IfOk result (λ f. as_static pool.now field.now ≡ f ∷ []) }
{
    let name = pool.utf8_at(field.name).unwrap_or(&[]);
    let desc = pool.utf8_at(field.desc).unwrap_or(&[]);
    Ok(StaticField {
        first: first_number(pool, desc, &field.attributes),
        name: Bytes::copy_of(alloc, name)?,
        desc: Bytes::copy_of(alloc, desc)?,
    })
}

/// The static fields of a class, in their order.
pub fn statics_of(alloc: Global, class: &ClassFile) -> Result<List<StaticField>, Memory>
    requires { IsClassFile class.now }
    ensures fields { IfOk result (λ statics. statics ≡ statics_of class.now) }
    ensures fit { IfOk result (All IsStatic) }
    ensures few { IfOk result (λ statics. length statics ≤ 65535) }
{
    let mut statics = List::new(alloc);
    'fields: for field in &class.fields {
        if field.flags & STATIC != 0 {
            statics.push(static_field(alloc, &class.pool, field)?)?;
        }
    }
    Ok(statics)
}

/// Whether the method is an initialization method.
fn is_clinit(pool: &Pool, method: &Member) -> bool
    ensures { result ≡ is_clinit pool.now method.now }
{
    match pool.utf8_at(method.name) {
        Ok(text) => text == b"<clinit>".as_slice(),
        Err(_) => false,
    }
}

/// Whether the class declares an initialization method.
pub fn has_clinit(class: &ClassFile) -> bool
    ensures { result ≡ has_clinit class.now }
{
    let pool = &class.pool;
    class.methods.iter().any(|method| is_clinit(pool, method))
}
