//! Reading a Code attribute (JVM Specification 4.7.3).
ghost use Rattle.std.specs.Prelude.{◌≤◌, length, IfOk, MatchOption};
ghost use Rattle.jc_bytes.specs.Decoder.{SameEnd};
ghost use Rattle.jc_bytes.specs.Parsing.{Parses};
ghost use Rattle.jc_bytes.specs.Reader.{most_read};
ghost use Rattle.jc_body.specs.CodeReading.{row_at, code_at};
ghost use Rattle.jc_body.specs.CodeForm.{IsCodeText};
ghost use Rattle.jc_body.specs.declared.items.CodeItems.{CodeItems as Items};

use crate::items::{CodeItems, Row};
use jc_bytes::{
    Bytes, Fail, ItemReader, Memory, Reader, Refusal, counted, piece_item, u16_item, u32_item,
};
use jc_class::read_attributes;
use jc_pool::Pool;
use std::alloc::Global;

/// The rows of an exception table.
#[derive(Drop)]
struct Rows;

impl ItemReader for Rows {
    type Item = Row;

    ghost read_at = { λ _. row_at };

    #[tactic(auto, unfolding(crate::specs::CodeReading::row_at))]
    fn read_item(&self, _alloc: Global, reader: &mut Reader<'_>) -> Result<Row, Fail<Refusal>> {
        let start = u16_item(reader)?;
        let end = u16_item(reader)?;
        let target = u16_item(reader)?;
        let class = u16_item(reader)?;
        Ok(Row {
            start,
            end,
            target,
            class,
        })
    }
}

/// What stands behind the name and the length of a Code attribute.
#[tactic(auto, unfolding(crate::specs::CodeReading::code_at))]
fn code_items(
    alloc: Global,
    reader: &mut Reader<'_>,
    pool: &Pool,
) -> Result<CodeItems, Fail<Refusal>>
    ensures gives { Parses (λ x. x) result reader.old reader.new (code_at pool.now reader.old.left) }
    ensures end { SameEnd reader.old reader.new }
    ensures later { reader.old.place ≤ reader.new.place }
{
    let max_stack = u16_item(reader)?;
    let max_locals = u16_item(reader)?;
    let size = u32_item(reader)?;
    let piece = piece_item(reader, size)?;
    let code = Bytes::copy_of(alloc, piece)?;
    let rows = counted(alloc, reader, &Rows)?;
    let attributes = read_attributes(alloc, reader, pool)?;
    Ok(CodeItems {
        max_stack,
        max_locals,
        code,
        rows,
        attributes,
    })
}

/// What a Code attribute holds, where the bytes are of its form and its code has 1 to 65,535 bytes.
///
/// # Errors
///
/// `Memory` where memory was refused.
pub fn read_code(alloc: Global, pool: &Pool, bytes: &[u8]) -> Result<Option<CodeItems>, Memory>
    requires { length bytes.now ≤ most_read }
    ensures { IfOk result (λ found. MatchOption found
        ((items : Items) → IsCodeText pool.now bytes.now items → ⊥) (IsCodeText pool.now bytes.now)) }
{
    let mut reader = Reader::new(bytes);
    match code_items(alloc, &mut reader, pool) {
        Err(Fail::Memory) => Err(Memory),
        Err(Fail::Said(_)) => Ok(None),
        Ok(items) => {
            let whole = reader.place() as usize == bytes.len();
            let size = items.code.len();
            let fits = 1 <= size && size <= 65_535;
            Ok(if whole && fits { Some(items) } else { None })
        }
    }
}
