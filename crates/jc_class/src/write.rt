//! Writing a class file.
ghost use Rattle.std.specs.Prelude.{◌≡◌, ◌≤◌, ℕ, List, length, OnOk, IfOk};
ghost use Rattle.jc_bytes.specs.Appending.{Appends, Appended};
ghost use Rattle.jc_bytes.specs.ByteLists.{AreBytes};
ghost use Rattle.jc_bytes.specs.Counted.{counted};
ghost use Rattle.jc_bytes.specs.Grammar.{times};
ghost use Rattle.jc_bytes.specs.ItemForms.{number_where};
ghost use Rattle.jc_class.specs.ClassFormat.{attribute as attribute_form, member as member_form};
ghost use Rattle.jc_class.specs.Writable.{Anything, AreCounted, IsAttribute, IsMember, IsClassFile};
ghost use Rattle.jc_class.specs.ClassText.{ClassText};
ghost use Rattle.std.specs.List.{AllByRecursion};

use crate::item::MAGIC;
use crate::{Attribute, ClassFile, Member};
use jc_bytes::{Memory, put_bytes, put_u16, put_u32};
use std::alloc::Global;

/// Puts an attribute at the end (JVM Specification 4.7).
fn put_attribute(into: &mut Vec<u8>, attribute: &Attribute) -> Result<(), Memory>
    requires { IsAttribute Anything attribute.now }
    ensures { OnOk result (Appended (attribute_form Anything) attribute.now into.old.items into.new.items) }
{
    put_u16(into, attribute.name)?;
    put_u32(into, attribute.body.len() as u32)?;
    put_bytes(into, &attribute.body)
}

/// Puts attributes at the end, one behind the other.
fn put_listed_attributes(into: &mut Vec<u8>, attributes: &[Attribute]) -> Result<(), Memory>
    requires { AllByRecursion (IsAttribute Anything) attributes.now }
    ensures { OnOk result (Appended (times (length attributes.now) (attribute_form Anything))
        attributes.now into.old.items into.new.items) }
{
    'writing: for attribute in attributes {
        put_attribute(into, attribute)?;
    }
    Ok(())
}

/// Puts the count of attributes at the end, and the attributes.
fn put_attributes(into: &mut Vec<u8>, attributes: &[Attribute]) -> Result<(), Memory>
    requires { AreCounted (IsAttribute Anything) attributes.now }
    ensures { OnOk result (Appended (counted (attribute_form Anything)) attributes.now into.old.items into.new.items) }
{
    put_u16(into, attributes.len() as u16)?;
    put_listed_attributes(into, attributes)
}

/// Puts a field or a method at the end (JVM Specification 4.5, 4.6).
fn put_member(into: &mut Vec<u8>, member: &Member) -> Result<(), Memory>
    requires { IsMember Anything Anything member.now }
    ensures { OnOk result (Appended (member_form Anything Anything) member.now into.old.items into.new.items) }
{
    put_u16(into, member.flags)?;
    put_u16(into, member.name)?;
    put_u16(into, member.desc)?;
    put_attributes(into, &member.attributes)
}

/// Puts fields or methods at the end, one behind the other.
fn put_listed_members(into: &mut Vec<u8>, members: &[Member]) -> Result<(), Memory>
    requires { AllByRecursion (IsMember Anything Anything) members.now }
    ensures { OnOk result (Appended (times (length members.now) (member_form Anything Anything))
        members.now into.old.items into.new.items) }
{
    'writing: for member in members {
        put_member(into, member)?;
    }
    Ok(())
}

/// Puts the count of fields or methods at the end, and those.
fn put_members(into: &mut Vec<u8>, members: &[Member]) -> Result<(), Memory>
    requires { AreCounted (IsMember Anything Anything) members.now }
    ensures { OnOk result (Appended (counted (member_form Anything Anything)) members.now into.old.items into.new.items) }
{
    put_u16(into, members.len() as u16)?;
    put_listed_members(into, members)
}

/// Puts the places of interfaces at the end, one behind the other.
fn put_listed_interfaces(into: &mut Vec<u8>, interfaces: &[u16]) -> Result<(), Memory>
    ensures { OnOk result (Appended (times (length interfaces.now) (number_where Anything)) interfaces.now into.old.items into.new.items) }
{
    'writing: for interface in interfaces {
        put_u16(into, *interface)?;
    }
    Ok(())
}

/// Puts the count of interfaces at the end, and their places.
fn put_interfaces(into: &mut Vec<u8>, interfaces: &[u16]) -> Result<(), Memory>
    requires { length interfaces.now ≤ 65535 }
    ensures { OnOk result (Appended (counted (number_where Anything)) interfaces.now into.old.items into.new.items) }
{
    put_u16(into, interfaces.len() as u16)?;
    put_listed_interfaces(into, interfaces)
}

/// Puts a class file at the end.
fn put_class(alloc: Global, into: &mut Vec<u8>, class: &ClassFile) -> Result<(), Memory>
    requires { IsClassFile class.now }
    ensures text { OnOk result (Appends (λ text. ClassText text class.now) into.old.items into.new.items) }
    ensures bytes { OnOk result (AreBytes into.new.items) }
{
    put_u32(into, MAGIC)?;
    put_u16(into, class.minor)?;
    put_u16(into, class.major)?;
    class.pool.write(alloc, into)?;
    put_u16(into, class.flags)?;
    put_u16(into, class.this_class)?;
    put_u16(into, class.super_class)?;
    put_interfaces(into, &class.interfaces)?;
    put_members(into, &class.fields)?;
    put_members(into, &class.methods)?;
    put_attributes(into, &class.attributes)
}

/// Writes a class file (JVM Specification 4.1).
///
/// The class has to be one that can be written: each count fits into two bytes, the length of each
/// attribute into four, and no item would fail where `read_class` reads it. `read_class` gives such
/// a class. What was read is written back byte for byte.
///
/// # Errors
///
/// `Memory` where memory was refused.
pub fn write_class(alloc: Global, class: &ClassFile) -> Result<Vec<u8>, Memory>
    requires { IsClassFile class.now }
    ensures text { IfOk result (λ bytes. ClassText bytes.items class.now) }
    // Bytes that are the text of the class are written back.
    ensures back { (text : List ℕ) → AreBytes text → ClassText text class.now → IfOk result (λ bytes. bytes.items ≡ text) }
{
    let mut bytes = Vec::new(alloc);
    put_class(alloc, &mut bytes, class)?;
    Ok(bytes)
}
