//! Reading single items of a class file.
ghost use Rattle.std.specs.Prelude.{◌≡◌, ◌≤◌};
ghost use Rattle.jc_bytes.specs.Decoder.{SameEnd};
ghost use Rattle.jc_bytes.specs.Parsing.{Parses, item};
ghost use Rattle.jc_class.specs.ItemReading.{has_class, names, number_if, magic_at};

use jc_bytes::{Fail, Reader, Refusal, not_a_class, u16_item, u32_item};
use jc_pool::Pool;

/// What stands in front of every class file.
pub const MAGIC: u32 = 0xcafe_babe;

/// What a place in the pool has to name.
#[derive(Clone, Copy, Debug, PartialEq, Eq)]
pub enum Named {
    /// A text.
    Text,
    /// A class by a name that is modified UTF-8.
    Class,
    /// A class, or nothing by place 0.
    ClassOrNone,
    /// The descriptor of a field.
    FieldDescriptor,
    /// The descriptor of a method.
    MethodDescriptor,
}

/// Whether a class stands at the place, by a name that is modified UTF-8.
fn has_class(pool: &Pool, place: u16) -> bool
    ensures { result ≡ has_class pool.now place }
{
    pool.is_class_name_modified(place)
}

/// Whether the place names what it has to name. The pool knows what its texts are, so that this
/// looks at no text.
#[tactic(auto, unfolding(crate::specs::ItemReading::names))]
fn names(pool: &Pool, what: Named, place: u16) -> bool
    ensures { result ≡ names pool.now what place }
{
    match what {
        Named::Text => pool.utf8_at(place).is_ok(),
        Named::Class => has_class(pool, place),
        Named::ClassOrNone => place == 0 || has_class(pool, place),
        Named::FieldDescriptor => pool.is_field_descriptor_at(place),
        Named::MethodDescriptor => pool.is_method_descriptor_at(place),
    }
}

/// A place in the pool. The item fails where the place doesn't name what it has to name.
#[tactic(auto, unfolding(crate::specs::ItemReading::number_if))]
pub fn place_item(reader: &mut Reader<'_>, pool: &Pool, what: Named) -> Result<u16, Fail<Refusal>>
    ensures gives { Parses (λ x. x) result reader.old reader.new (item (number_if (names pool.now what)) reader.old.left) }
    ensures end { SameEnd reader.old reader.new }
    ensures later { reader.old.place ≤ reader.new.place }
{
    let start = reader.place();
    let place = u16_item(reader)?;
    if !names(pool, what, place) {
        return Err(Fail::Said(not_a_class(start)));
    }
    Ok(place)
}

/// The four bytes in front of every class file.
#[tactic(auto, unfolding(crate::specs::ItemReading::magic_at))]
pub fn magic_item(reader: &mut Reader<'_>) -> Result<(), Fail<Refusal>>
    ensures gives { Parses (λ x. x) result reader.old reader.new (item magic_at reader.old.left) }
    ensures end { SameEnd reader.old reader.new }
    ensures later { reader.old.place ≤ reader.new.place }
{
    let front = reader.place();
    let number = u32_item(reader)?;
    if number != MAGIC {
        return Err(Fail::Said(not_a_class(front)));
    }
    Ok(())
}
