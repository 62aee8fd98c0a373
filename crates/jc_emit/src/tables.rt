//! The tables of instrumented code (JVM Specification 4.7.3, 4.7.12 to 4.7.14).
ghost use Rattle.std.specs.Prelude.{◌≡◌, ◌<◌, ℕ, length, map, All, IfOk, slice_index};
ghost use Rattle.jc_methods.specs.WellMade.{IsWellMadeOfAnySize};
ghost use Rattle.jc_methods.specs.declared.probe_members.Fetch.{Fetch as Fetching};
ghost use Rattle.jc_emit.specs.Placing.{ArePlaces};
ghost use Rattle.jc_emit.specs.Refusing.{HasRoom};
ghost use Rattle.jc_emit.specs.Stages.{moved_tables};
ghost use Rattle.jc_emit.specs.TwinTables.{moved_row, moved_line, moved_var};
ghost use Rattle.jc_emit.specs.Tables.{RowWithin, VarWithin};

use crate::image::moved_slot;
use crate::places::Places;
use jc_bytes::{List, Memory};
use jc_methods::{Body, Handler, LineAt, VarAt};
use std::alloc::Global;

/// The tables of instrumented code, and its sizes.
#[derive(Debug, Drop)]
pub struct MovedTables {
    /// The exception table.
    pub handlers: List<Handler>,
    /// The entries of the line tables.
    pub lines: List<LineAt>,
    /// The entries of the tables of local variables.
    pub vars: List<VarAt>,
    /// The entries of the tables of the types of local variables.
    pub kind_vars: List<VarAt>,
    /// The size of the operand stack.
    pub max_stack: u16,
    /// The number of local variables.
    pub max_locals: u16,
}

/// An exception row, from where fall-throughs lead to where they do, with its handler where jumps land.
fn moved_row(row: &Handler, leads: &[u32], lands: &[u32]) -> Handler
    requires { RowWithin (length leads.now) (length lands.now) row.now }
    ensures { result ≡ moved_row (slice_index leads.now) (slice_index lands.now) row.now }
{
    Handler {
        start: leads[row.start as usize],
        end: leads[row.end as usize],
        target: lands[row.target as usize],
        class: row.class,
    }
}

/// The exception rows, in their order.
fn moved_rows(
    alloc: Global,
    rows: &[Handler],
    leads: &[u32],
    lands: &[u32],
) -> Result<List<Handler>, Memory>
    requires { All (RowWithin (length leads.now) (length lands.now)) rows.now }
    ensures { IfOk result (λ moved. moved ≡ map (moved_row (slice_index leads.now) (slice_index lands.now)) rows.now) }
{
    let mut moved = List::new(alloc);
    'moving: for row in rows {
        moved.push(moved_row(row, leads, lands))?;
    }
    Ok(moved)
}

/// The entries of line tables, where jumps land, in their order.
fn moved_lines(alloc: Global, lines: &[LineAt], lands: &[u32]) -> Result<List<LineAt>, Memory>
    requires { All (λ l. l.at < length lands.now) lines.now }
    ensures { IfOk result (λ moved. moved ≡ map (moved_line (slice_index lands.now)) lines.now) }
{
    let mut moved = List::new(alloc);
    'moving: for line in lines {
        moved.push(LineAt {
            at: lands[line.at as usize],
            line: line.line,
        })?;
    }
    Ok(moved)
}

/// A variable, from where jumps land to where they do.
fn moved_var(var: &VarAt, arg_slots: u16, lands: &[u32]) -> VarAt
    requires { VarWithin (length lands.now) var.now }
    ensures { result ≡ moved_var arg_slots (slice_index lands.now) var.now }
{
    VarAt {
        start: lands[var.start as usize],
        end: lands[var.end as usize],
        name: var.name,
        desc: var.desc,
        slot: moved_slot(var.slot, arg_slots),
    }
}

/// The variables, in their order.
fn moved_vars(
    alloc: Global,
    vars: &[VarAt],
    arg_slots: u16,
    lands: &[u32],
) -> Result<List<VarAt>, Memory>
    requires { All (VarWithin (length lands.now)) vars.now }
    ensures { IfOk result (λ moved. moved ≡ map (moved_var arg_slots (slice_index lands.now)) vars.now) }
{
    let mut moved = List::new(alloc);
    'moving: for var in vars {
        moved.push(moved_var(var, arg_slots, lands))?;
    }
    Ok(moved)
}

/// The tables of a method that has room for instrumented code, with its sizes.
pub(crate) fn moved_tables(
    alloc: Global,
    body: &Body,
    places: &Places,
) -> Result<MovedTables, Memory>
    requires body { IsWellMadeOfAnySize body.now }
    requires places { (first : ℕ) × (fetch : Fetching) × ArePlaces body.now first fetch places.now }
    requires room { HasRoom body.now }
    ensures { (first : ℕ) (fetch : Fetching) → ArePlaces body.now first fetch places.now
        → IfOk result (λ tables. tables ≡ moved_tables body.now first fetch) }
{
    let leads = places.leads.as_slice();
    let lands = places.lands.as_slice();
    let handlers = moved_rows(alloc, &body.handlers, leads, lands)?;
    let lines = moved_lines(alloc, &body.lines, lands)?;
    let vars = moved_vars(alloc, &body.vars, body.arg_slots, lands)?;
    let kind_vars = moved_vars(alloc, &body.kind_vars, body.arg_slots, lands)?;
    Ok(MovedTables {
        handlers,
        lines,
        vars,
        kind_vars,
        max_stack: body.max_stack + 3,
        max_locals: body.max_locals + 1,
    })
}
