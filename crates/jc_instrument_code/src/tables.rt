//! Tables of a Code attribute, by the offsets of instructions.
ghost use Rattle.std.specs.Prelude.{◌≡◌, ◌≤◌, ◌++◌, OnOk, length, slice_index};
ghost use Rattle.jc_frames.specs.FullTable.{AreShort};
ghost use Rattle.jc_instrument_code.specs.CodeText.{counted_text, line_text, row_text, var_text};

use jc_bytes::{Memory, put_short};
use jc_methods::{Handler, LineAt, VarAt};

/// The offset of an instruction, or of the end of the code; 0 where there is none.
fn offset_of(starts: &[u32], place: u32) -> u16
    requires { AreShort starts.now }
    ensures { result ≡ slice_index starts.now place }
{
    match starts.get(place as usize) {
        Some(start) => *start as u16,
        None => 0,
    }
}

/// Puts a row of the exception table at the end (JVM Specification 4.7.3).
fn put_row(into: &mut Vec<u8>, row: &Handler, starts: &[u32]) -> Result<(), Memory>
    requires { AreShort starts.now }
    ensures { OnOk result (into.new.items ≡ into.old.items ++ row_text (slice_index starts.now) row.now) }
{
    put_short(into, offset_of(starts, row.start))?;
    put_short(into, offset_of(starts, row.end))?;
    put_short(into, offset_of(starts, row.target))?;
    put_short(into, row.class)?;
    Ok(())
}

/// Puts the number of rows of the exception table at the end, and the rows.
pub fn put_rows(into: &mut Vec<u8>, rows: &[Handler], starts: &[u32]) -> Result<(), Memory>
    requires few { length rows.now ≤ 65535 }
    requires short { AreShort starts.now }
    ensures { OnOk result (into.new.items ≡ into.old.items ++ counted_text (row_text (slice_index starts.now)) rows.now) }
{
    put_short(into, rows.len() as u16)?;
    'writing: for row in rows {
        put_row(into, row, starts)?;
    }
    Ok(())
}

/// Puts an entry of a LineNumberTable at the end (JVM Specification 4.7.12).
fn put_line(into: &mut Vec<u8>, line: &LineAt, starts: &[u32]) -> Result<(), Memory>
    requires { AreShort starts.now }
    ensures { OnOk result (into.new.items ≡ into.old.items ++ line_text (slice_index starts.now) line.now) }
{
    put_short(into, offset_of(starts, line.at))?;
    put_short(into, line.line)?;
    Ok(())
}

/// Puts the number of entries of a LineNumberTable at the end, and the entries.
pub fn put_lines(into: &mut Vec<u8>, lines: &[LineAt], starts: &[u32]) -> Result<(), Memory>
    requires few { length lines.now ≤ 65535 }
    requires short { AreShort starts.now }
    ensures { OnOk result (into.new.items ≡ into.old.items ++ counted_text (line_text (slice_index starts.now)) lines.now) }
{
    put_short(into, lines.len() as u16)?;
    'writing: for line in lines {
        put_line(into, line, starts)?;
    }
    Ok(())
}

/// Puts an entry of a LocalVariableTable or a LocalVariableTypeTable at the end (JVM Specification
/// 4.7.13, 4.7.14).
fn put_var(into: &mut Vec<u8>, var: &VarAt, starts: &[u32]) -> Result<(), Memory>
    requires { AreShort starts.now }
    ensures { OnOk result (into.new.items ≡ into.old.items ++ var_text (slice_index starts.now) var.now) }
{
    let start = offset_of(starts, var.start);
    let end = offset_of(starts, var.end);
    put_short(into, start)?;
    put_short(into, end.saturating_sub(start))?;
    put_short(into, var.name)?;
    put_short(into, var.desc)?;
    put_short(into, var.slot)?;
    Ok(())
}

/// Puts the number of entries of such a table at the end, and the entries.
pub fn put_vars(into: &mut Vec<u8>, vars: &[VarAt], starts: &[u32]) -> Result<(), Memory>
    requires few { length vars.now ≤ 65535 }
    requires short { AreShort starts.now }
    ensures { OnOk result (into.new.items ≡ into.old.items ++ counted_text (var_text (slice_index starts.now)) vars.now) }
{
    put_short(into, vars.len() as u16)?;
    'writing: for var in vars {
        put_var(into, var, starts)?;
    }
    Ok(())
}
