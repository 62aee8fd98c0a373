//! Tables that are written in parts, an attribute for each (JVM Specification 4.7.12 to 4.7.14).
ghost use Rattle.std.specs.Prelude.{◌≡◌, ◌≤◌, ◌<◌, ◌+◌, ◌*◌, ◌++◌, OnOk, length, slice_index};
ghost use Rattle.std.specs.List.{flat_map};
ghost use Rattle.jc_frames.specs.FullTable.{AreShort};
ghost use Rattle.jc_instrument_code.specs.CodeText.{attribute, attribute_text, counted_text, line_text, table_attributes, var_text};

use crate::numbers::put_header;
use crate::tables::{put_lines, put_vars};
use jc_bytes::Memory;
use jc_methods::{LineAt, VarAt};

/// The most entries that a table has.
const MOST_ENTRIES: usize = 65_535;

/// How many attributes a table with so many entries is written as.
pub fn part_count(entries: usize) -> usize
    ensures enough { entries ≤ 65535 * result }
    ensures needed { 65535 * result < entries + 65535 }
{
    let whole = entries / MOST_ENTRIES;
    if entries % MOST_ENTRIES == 0 {
        return whole;
    }
    whole + 1
}

/// Where the part ends that begins at an entry: behind as many entries as a table has, or at the end of all.
fn part_end(from: usize, entries: usize) -> usize
    requires { from < entries }
    ensures some { from < result }
    ensures within { result ≤ entries }
    ensures few { result ≤ from + 65535 }
    ensures full { result < entries → result ≡ from + 65535 }
{
    if entries - from <= MOST_ENTRIES {
        return entries;
    }
    from + MOST_ENTRIES
}

/// Puts an attribute with so many entries of lines at the end.
fn put_line_part(
    into: &mut Vec<u8>,
    name: u16,
    lines: &[LineAt],
    starts: &[u32],
) -> Result<(), Memory>
    requires few { length lines.now ≤ 65535 }
    requires short { AreShort starts.now }
    ensures { OnOk result (into.new.items
        ≡ into.old.items ++ attribute_text (attribute name (counted_text (line_text (slice_index starts.now)) lines.now))) }
{
    put_header(into, name, 2 + 4 * lines.len() as u32)?;
    put_lines(into, lines, starts)?;
    Ok(())
}

/// Puts LineNumberTable attributes with these entries at the end, none where there are no entries.
pub fn put_line_tables(
    into: &mut Vec<u8>,
    name: u16,
    lines: &[LineAt],
    starts: &[u32],
) -> Result<(), Memory>
    requires { AreShort starts.now }
    ensures { OnOk result (into.new.items
        ≡ into.old.items ++ flat_map attribute_text (table_attributes name (line_text (slice_index starts.now)) lines.now)) }
{
    let mut from = 0;
    'parting: while from < lines.len() {
        let end = part_end(from, lines.len());
        put_line_part(into, name, &lines[from..end], starts)?;
        from = end;
    }
    Ok(())
}

/// Puts an attribute with so many entries of variables at the end.
fn put_var_part(into: &mut Vec<u8>, name: u16, vars: &[VarAt], starts: &[u32]) -> Result<(), Memory>
    requires few { length vars.now ≤ 65535 }
    requires short { AreShort starts.now }
    ensures { OnOk result (into.new.items
        ≡ into.old.items ++ attribute_text (attribute name (counted_text (var_text (slice_index starts.now)) vars.now))) }
{
    put_header(into, name, 2 + 10 * vars.len() as u32)?;
    put_vars(into, vars, starts)?;
    Ok(())
}

/// Puts LocalVariableTable or LocalVariableTypeTable attributes with these entries at the end, none where there are no entries.
pub fn put_var_tables(
    into: &mut Vec<u8>,
    name: u16,
    vars: &[VarAt],
    starts: &[u32],
) -> Result<(), Memory>
    requires { AreShort starts.now }
    ensures { OnOk result (into.new.items
        ≡ into.old.items ++ flat_map attribute_text (table_attributes name (var_text (slice_index starts.now)) vars.now)) }
{
    let mut from = 0;
    'parting: while from < vars.len() {
        let end = part_end(from, vars.len());
        put_var_part(into, name, &vars[from..end], starts)?;
        from = end;
    }
    Ok(())
}
