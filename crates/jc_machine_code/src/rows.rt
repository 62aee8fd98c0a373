//! Exception tables (JVM Specification 4.7.3), with the classes that their rows catch.
ghost use Rattle.std.specs.Prelude.{◌≡◌, ℕ, Some, IfOk};
ghost use Rattle.std.specs.Option.{option_map};
ghost use Rattle.jc_methods.specs.declared.body.Body.{Body};
ghost use Rattle.jc_programs.specs.declared.run_end.Thrown.{Thrown};
ghost use Rattle.jc_programs.specs.Throwables.{is_named_in};
ghost use Rattle.jc_kinds_after.specs.After.{class_in};
ghost use Rattle.jc_machine_model.specs.Step.{catches};
ghost use Rattle.jc_machine_code.specs.Places.{AreWhats};
ghost use Rattle.jc_machine_code.specs.Prepared.{catches_class, Correspond, IsRow};

use crate::places::{Whats, what_at};
use crate::throwables::thrown_named;
use crate::{Catches, PreparedRow};
use jc_bytes::{List, Memory};
use jc_methods::{Handler, What};
use std::alloc::Global;

/// What a row catches that names a class.
fn caught_by_name(name: &[u8]) -> Catches
    ensures { (c : Thrown) → catches_class result c ≡ is_named_in c name.now }
{
    match thrown_named(name) {
        Some(class) => Catches::Class(class),
        None => Catches::Nothing,
    }
}

/// What a row catches, by what stands at its place in the constant pool.
fn caught_by(what: &What) -> Catches
    ensures { (c : Thrown) → catches_class result c ≡ is_named_in c (class_in (Some what.now)) }
{
    match what {
        What::Class(name) => caught_by_name(name.as_slice()),
        _ => Catches::Nothing,
    }
}

/// The same, if anything stands there.
fn caught(what: Option<&What>) -> Catches
    ensures { (c : Thrown) → catches_class result c ≡ is_named_in c (class_in (option_map (λ w. w.now) what.entry)) }
{
    match what {
        Some(what) => caught_by(what),
        None => Catches::Nothing,
    }
}

/// What a row of a body catches.
fn catches(whats: &Whats<'_>, row: &Handler) -> Catches
    ensures { (b : Body) (c : Thrown) → AreWhats b.uses whats.now.entries → catches_class result c ≡ catches b row.now c }
{
    if row.class == 0 {
        return Catches::All;
    }
    caught(what_at(whats, row.class))
}

/// A row of a body.
fn prepared_row(whats: &Whats<'_>, row: &Handler) -> PreparedRow
    ensures { (b : Body) (i : ℕ) → AreWhats b.uses whats.now.entries → IsRow b i row.now result }
{
    PreparedRow {
        start: row.start,
        end: row.end,
        target: row.target,
        catches: catches(whats, row),
    }
}

/// The rows of a body.
pub fn prepared_rows(
    alloc: Global,
    whats: &Whats<'_>,
    handlers: &[Handler],
) -> Result<List<PreparedRow>, Memory>
    ensures { (b : Body) → AreWhats b.uses whats.now.entries → IfOk result (λ rows. Correspond (IsRow b) handlers.now rows) }
{
    let mut rows = List::new(alloc);
    'preparing: for row in handlers {
        rows.push(prepared_row(whats, row))?;
    }
    Ok(rows)
}
