//! The constant of a static field (JVM Specification 4.7.2).
ghost use Rattle.std.specs.Prelude.{◌≡◌, ◌≤◌};
ghost use Rattle.jc_bytes.specs.Decoder.{SameEnd};
ghost use Rattle.jc_bytes.specs.Parsing.{Parses, item};
ghost use Rattle.jc_class.specs.ItemReading.{field_piece_at, is_constant, names_place};

use jc_bytes::{Fail, Reader, Refusal, not_a_class, piece_item};
use jc_pool::Pool;

/// The flag of a static field (JVM Specification 4.5).
const ACC_STATIC: u16 = 0x0008;

/// Whether the attribute of a field with these flags holds the place of the constant with which it
/// begins.
#[tactic(auto, unfolding(crate::specs::ItemReading::is_constant))]
fn is_constant(pool: &Pool, flags: u16, name: u16) -> bool
    ensures { result ≡ is_constant pool.now flags name }
{
    if flags & ACC_STATIC == 0 {
        return false;
    }
    match pool.utf8_at(name) {
        Ok(text) => text == b"ConstantValue".as_slice(),
        Err(_) => false,
    }
}

/// Whether the bytes are a place of the pool, where they are two.
#[tactic(auto, unfolding(crate::specs::ItemReading::names_place))]
fn names_place(pool: &Pool, bytes: &[u8]) -> bool
    ensures { result ≡ names_place pool.now bytes.now }
{
    match bytes {
        [high, low] => u16::from(*high) * 256 + u16::from(*low) < pool.count(),
        _ => true,
    }
}

/// The bytes of an attribute of a field with these flags. The item fails where fewer are left, and
/// where they are two, with which a static field would begin, and no place of the pool.
#[tactic(auto, unfolding(crate::specs::ItemReading::field_piece_at))]
pub fn field_piece_item<'a>(
    reader: &mut Reader<'a>,
    pool: &Pool,
    flags: u16,
    name: u16,
    size: u32,
) -> Result<&'a [u8], Fail<Refusal>>
    ensures gives { Parses (λ piece. piece.now) result reader.old reader.new
        (item (field_piece_at pool.now flags name size) reader.old.left) }
    ensures end { SameEnd reader.old reader.new }
    ensures later { reader.old.place ≤ reader.new.place }
{
    let start = reader.place();
    let piece = piece_item(reader, size)?;
    if !names_place(pool, piece) && is_constant(pool, flags, name) {
        return Err(Fail::Said(not_a_class(start)));
    }
    Ok(piece)
}
