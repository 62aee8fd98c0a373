//! Tables of counted items in a Code attribute (JVM Specification 4.7.12 to 4.7.14).
ghost use Rattle.std.specs.Prelude.{◌≤◌, List as Seq, length, map, IfOk, MatchOption, All};
ghost use Rattle.jc_bytes.specs.Counted.{counted as counted_form};
ghost use Rattle.jc_bytes.specs.Grammar.{Grammar, Agrees};
ghost use Rattle.jc_bytes.specs.Reader.{most_read};
ghost use Rattle.jc_body.specs.Attributes.{AreEntries};

use jc_bytes::{Fail, ItemReader, List, Memory, Reader, counted};
use std::alloc::Global;

/// An item of a table.
pub trait TableItem: Copy {
    /// The form of an item.
    ghost form: { Grammar Self };
}

/// The items of a table, where the bytes are of its form.
fn whole_table<I: ItemReader>(
    alloc: Global,
    items: &I,
    bytes: &[u8],
) -> Result<Option<List<I::Item>>, Memory>
where
    I::Item: TableItem,
    requires short { length bytes.now ≤ most_read }
    requires agrees { Agrees I.Item.form (I.read_at items.now) }
    ensures { IfOk result (λ found. MatchOption found
        ((items : Seq I.Item) → (counted_form I.Item.form).Text bytes.now items → ⊥) ((counted_form I.Item.form).Text bytes.now)) }
{
    let mut reader = Reader::new(bytes);
    match counted(alloc, &mut reader, items) {
        Err(Fail::Memory) => Err(Memory),
        Err(Fail::Said(_)) => Ok(None),
        Ok(items) => {
            let whole = reader.place() as usize == bytes.len();
            Ok(if whole { Some(items) } else { None })
        }
    }
}

/// The items of some tables, one table behind the other, where each is of its form.
pub fn joined_tables<I: ItemReader>(
    alloc: Global,
    items: &I,
    bodies: &[&[u8]],
) -> Result<Option<List<I::Item>>, Memory>
where
    I::Item: TableItem,
    requires short { All (λ body. length body.now ≤ most_read) bodies.now }
    requires agrees { Agrees I.Item.form (I.read_at items.now) }
    ensures { IfOk result (λ found. MatchOption found
        ((items : Seq I.Item) → AreEntries (counted_form I.Item.form) (map (λ body. body.now) bodies.now) items → ⊥)
        (AreEntries (counted_form I.Item.form) (map (λ body. body.now) bodies.now))) }
{
    let mut joined = Vec::new(alloc);
    'joining: for body in bodies {
        match whole_table(alloc, items, body)? {
            Some(table) => joined.extend_from_slice(&table)?,
            None => return Ok(None),
        }
    }
    Ok(Some(List::from_vec(joined)))
}
