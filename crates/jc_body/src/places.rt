//! Rows and entries by instruction numbers, in place of offsets.
ghost use Rattle.std.specs.Prelude.{◌≡◌, ◌↔◌, ◌<◌, ◌≤◌, ◌+◌, length, map, slice_index_or, IfOk, IsTrue, All};
ghost use Rattle.jc_body.specs.First.{FirstItem};
ghost use Rattle.jc_body.specs.Faults.{IsClassOrNone, IsRow};
ghost use Rattle.jc_methods.specs.Starts.{AreStarts};
ghost use Rattle.jc_body.specs.Numbering.{numbering, IsTable, Numbers};
ghost use Rattle.jc_body.specs.BodyOf.{is_start, handler_of, var_of, keeps_var, lines_of, vars_of};

use crate::coded::Coded;
use crate::items::{LineEntry, Row, VarEntry};
use jc_bytes::{List, Memory};
use jc_methods::{Handler, LineAt, VarAt, insn_numbers};
use jc_pool::Pool;
use std::alloc::Global;

/// A table over the offsets of a method's code: the number of the instruction that begins at each, or
/// the number of instructions where none does.
#[derive(Clone, Copy)]
pub struct Offsets<'a> {
    /// The number for each offset up to the code's length.
    pub numbers: &'a [u32],
    /// The number of instructions.
    pub count: u32,
    /// The length of the code.
    pub size: u32,
}

/// The numbers of the instructions at the offsets of a method's code.
pub fn numbers_of(alloc: Global, coded: &Coded) -> Result<Vec<u32>, Memory>
    requires starts { AreStarts (length coded.now.insns) (length coded.now.items.code) coded.now.starts }
    requires within { All (λ start. start < length coded.now.items.code + 1) coded.now.starts }
    requires few { length coded.now.insns ≤ 65535 }
    requires short { length coded.now.items.code ≤ 65535 }
    ensures { IfOk result (λ numbers. IsTable coded.now numbers.items) }
{
    Ok(insn_numbers(alloc, &coded.starts, coded.items.code.len() + 1)?)
}

/// The table of these numbers.
pub fn offsets_of<'a>(numbers: &'a [u32], coded: &Coded) -> Offsets<'a>
    requires table { IsTable coded.now numbers.now }
    requires few { length coded.now.insns ≤ 65535 }
    requires short { length coded.now.items.code ≤ 65535 }
    ensures { Numbers coded.now result }
{
    Offsets {
        numbers,
        count: coded.insns.len() as u32,
        size: coded.items.code.len() as u32,
    }
}

/// The number of the instruction that begins at the offset.
fn number(offsets: &Offsets<'_>, offset: u32) -> u32
    ensures { result ≡ slice_index_or offsets.now.numbers.now offset offsets.now.count }
{
    offsets
        .numbers
        .get(offset as usize)
        .copied()
        .unwrap_or(offsets.count)
}

/// Whether an instruction begins at the offset.
fn is_start(offsets: &Offsets<'_>, offset: u32) -> bool
    ensures { result ≡ is_start (numbering offsets.now) offsets.now.count offset }
{
    number(offsets, offset) < offsets.count
}

/// Whether 0 or a class with a name stands at the place.
fn is_class_or_none(pool: &Pool, place: u16) -> bool
    ensures { IsTrue result ↔ IsClassOrNone pool.now place }
{
    place == 0 || pool.class_at(place).is_ok()
}

/// Whether the row is of its form (JVM Specification 4.7.3).
fn is_row(pool: &Pool, offsets: &Offsets<'_>, row: &Row) -> bool
    ensures { IsTrue result ↔ IsRow pool.now (numbering offsets.now) offsets.now.count offsets.now.size row.now }
{
    let end = u32::from(row.end);
    let ordered = row.start < row.end;
    let start = is_start(offsets, u32::from(row.start));
    let ends = is_start(offsets, end) || end == offsets.size;
    let target = is_start(offsets, u32::from(row.target));
    let class = is_class_or_none(pool, row.class);
    ordered & start & ends & target & class
}

/// The number of the first row that isn't of its form.
pub fn first_bad_row(pool: &Pool, offsets: &Offsets<'_>, rows: &[Row]) -> Option<usize>
    ensures { FirstItem (λ place row. IsRow pool.now (numbering offsets.now) offsets.now.count offsets.now.size row → ⊥) rows.now result }
{
    rows.iter().position(|row| !is_row(pool, offsets, row))
}

/// The row by instruction numbers.
fn handler_of(offsets: &Offsets<'_>, row: &Row) -> Handler
    ensures { result ≡ handler_of (numbering offsets.now) row.now }
{
    Handler {
        start: number(offsets, u32::from(row.start)),
        end: number(offsets, u32::from(row.end)),
        target: number(offsets, u32::from(row.target)),
        class: row.class,
    }
}

/// The rows by instruction numbers.
pub fn handlers_of(
    alloc: Global,
    offsets: &Offsets<'_>,
    rows: &[Row],
) -> Result<List<Handler>, Memory>
    ensures { IfOk result (λ handlers. handlers ≡ map (handler_of (numbering offsets.now)) rows.now) }
{
    let mut handlers = Vec::new(alloc);
    'numbering: for row in rows {
        handlers.push(handler_of(offsets, row))?;
    }
    Ok(List::from_vec(handlers))
}

/// The entries by instruction numbers, but for those that name no instruction.
pub fn lines_of(
    alloc: Global,
    offsets: &Offsets<'_>,
    entries: &[LineEntry],
) -> Result<List<LineAt>, Memory>
    ensures { IfOk result (λ lines. lines ≡ lines_of (numbering offsets.now) offsets.now.count entries.now) }
{
    let mut lines = Vec::new(alloc);
    'keeping: for entry in entries {
        let at = number(offsets, u32::from(entry.start));
        if at < offsets.count {
            lines.push(LineAt {
                at,
                line: entry.line,
            })?;
        }
    }
    Ok(List::from_vec(lines))
}

/// Whether the entry's places are instructions, or the code's length for its end, and its local variable is one
/// of so many.
fn keeps_var(offsets: &Offsets<'_>, max_locals: u16, entry: &VarEntry) -> bool
    ensures { result ≡ keeps_var (numbering offsets.now) offsets.now.count offsets.now.size max_locals entry.now }
{
    let end = u32::from(entry.start) + u32::from(entry.length);
    let start = is_start(offsets, u32::from(entry.start));
    let ends = is_start(offsets, end) || end == offsets.size;
    start && (ends && entry.slot < max_locals)
}

/// The entry by instruction numbers.
fn var_of(offsets: &Offsets<'_>, entry: &VarEntry) -> VarAt
    ensures { result ≡ var_of (numbering offsets.now) entry.now }
{
    VarAt {
        start: number(offsets, u32::from(entry.start)),
        end: number(offsets, u32::from(entry.start) + u32::from(entry.length)),
        name: entry.name,
        desc: entry.desc,
        slot: entry.slot,
    }
}

/// The entries by instruction numbers, but for those that name no instruction or no local variable.
pub fn vars_of(
    alloc: Global,
    offsets: &Offsets<'_>,
    max_locals: u16,
    entries: &[VarEntry],
) -> Result<List<VarAt>, Memory>
    ensures { IfOk result (λ vars. vars ≡ vars_of (numbering offsets.now) offsets.now.count offsets.now.size max_locals entries.now) }
{
    let mut vars = Vec::new(alloc);
    'keeping: for entry in entries {
        if keeps_var(offsets, max_locals, entry) {
            vars.push(var_of(offsets, entry))?;
        }
    }
    Ok(List::from_vec(vars))
}
