//! Reading the interfaces, the members and the attributes of a class file.
ghost use Rattle.std.specs.Prelude.{◌≤◌};
ghost use Rattle.jc_bytes.specs.Counted.{counted_at};
ghost use Rattle.jc_bytes.specs.Decoder.{SameEnd};
ghost use Rattle.jc_bytes.specs.Parsing.{Parses};
ghost use Rattle.jc_class.specs.ClassReading.{named_at, attribute_at, attributes_at, field_attribute_at, field_at, method_at};
ghost use Rattle.jc_class.specs.declared.item.Named.TheVariants as kinds;

use crate::constant::field_piece_item;
use crate::item::{Named, place_item};
use crate::{Attribute, Member};
use jc_bytes::{
    Bytes, Fail, ItemReader, List, Reader, Refusal, counted, piece_item, u16_item, u32_item,
};
use jc_pool::Pool;
use std::alloc::Global;

/// The interfaces of a class (JVM Specification 4.1), over its pool.
#[derive(Drop)]
struct Interfaces<'a> {
    pool: &'a Pool,
}

impl ItemReader for Interfaces<'_> {
    type Item = u16;

    ghost read_at = { λ items. named_at items.pool.now kinds.Class };

    fn read_item(&self, _alloc: Global, reader: &mut Reader<'_>) -> Result<u16, Fail<Refusal>> {
        place_item(reader, self.pool, Named::Class)
    }
}

/// The places of the interfaces, behind their count (JVM Specification 4.1).
pub fn read_interfaces(
    alloc: Global,
    reader: &mut Reader<'_>,
    pool: &Pool,
) -> Result<List<u16>, Fail<Refusal>>
    ensures gives { Parses (λ x. x) result reader.old reader.new (counted_at (named_at pool.now Named.Class) reader.old.left) }
    ensures end { SameEnd reader.old reader.new }
    ensures later { reader.old.place ≤ reader.new.place }
{
    counted(alloc, reader, &Interfaces { pool })
}

/// Attributes (JVM Specification 4.7), over the pool of their class.
#[derive(Drop)]
struct Attributes<'a> {
    pool: &'a Pool,
}

impl ItemReader for Attributes<'_> {
    type Item = Attribute;

    ghost read_at = { λ items. attribute_at items.pool.now };

    #[tactic(auto, unfolding(crate::specs::ClassReading::attribute_at))]
    fn read_item(
        &self,
        alloc: Global,
        reader: &mut Reader<'_>,
    ) -> Result<Attribute, Fail<Refusal>> {
        let name = place_item(reader, self.pool, Named::Text)?;
        let size = u32_item(reader)?;
        let piece = piece_item(reader, size)?;
        let body = Bytes::copy_of(alloc, piece)?;
        Ok(Attribute { name, body })
    }
}

/// A count and so many attributes (JVM Specification 4.7), as they stand in a class, a field, a method
/// and a Code attribute. The names have to be Utf8 entries of the pool.
///
/// # Errors
///
/// `Memory` where memory was refused. `NotAClass`, with the offset of the item, at the first item
/// that fails.
pub fn read_attributes(
    alloc: Global,
    reader: &mut Reader<'_>,
    pool: &Pool,
) -> Result<List<Attribute>, Fail<Refusal>>
    ensures gives { Parses (λ x. x) result reader.old reader.new (attributes_at pool.now reader.old.left) }
    ensures end { SameEnd reader.old reader.new }
    ensures later { reader.old.place ≤ reader.new.place }
{
    counted(alloc, reader, &Attributes { pool })
}

/// Attributes of a field (JVM Specification 4.5), over the pool of its class.
#[derive(Drop)]
struct FieldAttributes<'a> {
    pool: &'a Pool,
    /// The access flags of the field.
    flags: u16,
}

impl ItemReader for FieldAttributes<'_> {
    type Item = Attribute;

    ghost read_at = { λ items. field_attribute_at items.pool.now items.flags };

    #[tactic(auto, unfolding(crate::specs::ClassReading::field_attribute_at))]
    fn read_item(
        &self,
        alloc: Global,
        reader: &mut Reader<'_>,
    ) -> Result<Attribute, Fail<Refusal>> {
        let name = place_item(reader, self.pool, Named::Text)?;
        let size = u32_item(reader)?;
        let piece = field_piece_item(reader, self.pool, self.flags, name, size)?;
        let body = Bytes::copy_of(alloc, piece)?;
        Ok(Attribute { name, body })
    }
}

/// Fields (JVM Specification 4.5), over the pool of their class.
#[derive(Drop)]
struct Fields<'a> {
    pool: &'a Pool,
}

impl ItemReader for Fields<'_> {
    type Item = Member;

    ghost read_at = { λ items. field_at items.pool.now };

    #[tactic(auto, unfolding(crate::specs::ClassReading::field_at))]
    fn read_item(&self, alloc: Global, reader: &mut Reader<'_>) -> Result<Member, Fail<Refusal>> {
        let pool = self.pool;
        let flags = u16_item(reader)?;
        let name = place_item(reader, pool, Named::Text)?;
        let desc = place_item(reader, pool, Named::FieldDescriptor)?;
        let attributes = counted(alloc, reader, &FieldAttributes { pool, flags })?;
        Ok(Member {
            flags,
            name,
            desc,
            attributes,
        })
    }
}

/// The fields of a class, behind their count (JVM Specification 4.5).
pub fn read_fields(
    alloc: Global,
    reader: &mut Reader<'_>,
    pool: &Pool,
) -> Result<List<Member>, Fail<Refusal>>
    ensures gives { Parses (λ x. x) result reader.old reader.new (counted_at (field_at pool.now) reader.old.left) }
    ensures end { SameEnd reader.old reader.new }
    ensures later { reader.old.place ≤ reader.new.place }
{
    counted(alloc, reader, &Fields { pool })
}

/// Methods (JVM Specification 4.6), over the pool of their class.
#[derive(Drop)]
struct Methods<'a> {
    pool: &'a Pool,
}

impl ItemReader for Methods<'_> {
    type Item = Member;

    ghost read_at = { λ items. method_at items.pool.now };

    #[tactic(auto, unfolding(crate::specs::ClassReading::method_at))]
    fn read_item(&self, alloc: Global, reader: &mut Reader<'_>) -> Result<Member, Fail<Refusal>> {
        let flags = u16_item(reader)?;
        let name = place_item(reader, self.pool, Named::Text)?;
        let desc = place_item(reader, self.pool, Named::MethodDescriptor)?;
        let attributes = read_attributes(alloc, reader, self.pool)?;
        Ok(Member {
            flags,
            name,
            desc,
            attributes,
        })
    }
}

/// The methods of a class, behind their count (JVM Specification 4.6).
pub fn read_methods(
    alloc: Global,
    reader: &mut Reader<'_>,
    pool: &Pool,
) -> Result<List<Member>, Fail<Refusal>>
    ensures gives { Parses (λ x. x) result reader.old reader.new (counted_at (method_at pool.now) reader.old.left) }
    ensures end { SameEnd reader.old reader.new }
    ensures later { reader.old.place ≤ reader.new.place }
{
    counted(alloc, reader, &Methods { pool })
}
