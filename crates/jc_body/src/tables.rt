//! Reading the line and variable tables of a Code attribute (JVM Specification 4.7.12 to 4.7.14).
ghost use Rattle.std.specs.Prelude.{◌≤◌, length, IfOk, MatchOption, All};
ghost use Rattle.jc_bytes.specs.Reader.{most_read};
ghost use Rattle.jc_body.specs.CodeReading.{line_at, var_at};
ghost use Rattle.jc_body.specs.CodeForm.{line_entry, var_entry};
ghost use Rattle.jc_body.specs.Attributes.{AreTables};
ghost use Rattle.jc_body.specs.declared.items.Tables.{Tables as AllTables};

use crate::attributes::bodies_of;
use crate::items::{LineEntry, Tables, VarEntry};
use crate::table_item::{TableItem, joined_tables};
use jc_bytes::{Fail, ItemReader, Memory, Reader, Refusal, u16_item};
use jc_class::Attribute;
use jc_pool::Pool;
use std::alloc::Global;

impl TableItem for LineEntry {
    ghost form = { line_entry };
}

/// The entries of a line table.
#[derive(Drop)]
struct LineEntries;

impl ItemReader for LineEntries {
    type Item = LineEntry;

    ghost read_at = { λ _. line_at };

    #[tactic(auto, unfolding(crate::specs::CodeReading::line_at))]
    fn read_item(
        &self,
        _alloc: Global,
        reader: &mut Reader<'_>,
    ) -> Result<LineEntry, Fail<Refusal>> {
        let start = u16_item(reader)?;
        let line = u16_item(reader)?;
        Ok(LineEntry { start, line })
    }
}

impl TableItem for VarEntry {
    ghost form = { var_entry };
}

/// The entries of a variable table.
#[derive(Drop)]
struct VarEntries;

impl ItemReader for VarEntries {
    type Item = VarEntry;

    ghost read_at = { λ _. var_at };

    #[tactic(auto, unfolding(crate::specs::CodeReading::var_at))]
    fn read_item(
        &self,
        _alloc: Global,
        reader: &mut Reader<'_>,
    ) -> Result<VarEntry, Fail<Refusal>> {
        let start = u16_item(reader)?;
        let length = u16_item(reader)?;
        let name = u16_item(reader)?;
        let desc = u16_item(reader)?;
        let slot = u16_item(reader)?;
        Ok(VarEntry {
            start,
            length,
            name,
            desc,
            slot,
        })
    }
}

/// The entries of all line and variable tables among the attributes, where each is of its form.
///
/// # Errors
///
/// `Memory` where memory was refused.
#[tactic(auto, unfolding(crate::specs::CodeForm::line_table, crate::specs::CodeForm::var_table))]
pub fn read_tables(
    alloc: Global,
    pool: &Pool,
    attributes: &[Attribute],
) -> Result<Option<Tables>, Memory>
    requires { All (λ a. length a.body ≤ most_read) attributes.now }
    ensures { IfOk result (λ found. MatchOption found
        ((tables : AllTables) → AreTables pool.now attributes.now tables → ⊥) (AreTables pool.now attributes.now)) }
{
    let line_bodies = bodies_of(alloc, pool, b"LineNumberTable", attributes)?;
    let var_bodies = bodies_of(alloc, pool, b"LocalVariableTable", attributes)?;
    let kind_bodies = bodies_of(alloc, pool, b"LocalVariableTypeTable", attributes)?;
    let lines = joined_tables(alloc, &LineEntries, &line_bodies)?;
    let vars = joined_tables(alloc, &VarEntries, &var_bodies)?;
    let kind_vars = joined_tables(alloc, &VarEntries, &kind_bodies)?;
    match (lines, vars, kind_vars) {
        (Some(lines), Some(vars), Some(kind_vars)) => Ok(Some(Tables {
            lines,
            vars,
            kind_vars,
        })),
        _ => Ok(None),
    }
}
