//! The rows of a report.
ghost use Rattle.std.specs.Prelude.{◌≡◌, IfOk};
ghost use Rattle.jc_report.specs.Rows.{has_counted_insn, row_of, row_cmp, rows_of};

use crate::names::{class_of, package_of, shown};
use crate::{Counted, Row};
use jc_bytes::{Bytes, List, Memory};
use std::alloc::Global;
use std::cmp::Ordering;

/// Whether an instruction of the class counts.
fn has_counted_insn(class: &Counted) -> bool
    ensures { result ≡ has_counted_insn class.now }
{
    let counted = class.counters.instruction;
    counted.missed > 0 || counted.covered > 0
}

/// The row of a class in the report of this name.
#[tactic(auto, unfolding(crate::specs::Rows::row_of))]
fn row_of(alloc: Global, name: &[u8], class: &Counted) -> Result<Row, Memory>
    ensures { IfOk result (λ row. row ≡ row_of name.now class.now) }
{
    let text = shown(alloc, class.name.as_slice())?;
    let parent = match class.interfaces.as_slice() {
        [first, ..] => Some(first.as_slice()),
        [] => class.super_name.as_ref().map(|name| name.as_slice()),
    };
    Ok(Row {
        group: Bytes::copy_of(alloc, name)?,
        package: List::from_vec(package_of(alloc, &text)?),
        class: List::from_vec(class_of(alloc, &text, parent)?),
        id: class.id,
        counters: class.counters,
    })
}

/// The order of two rows: by package, class and class id, the texts by their bytes.
fn row_cmp(row: &Row, other: &Row) -> Ordering
    ensures { result ≡ row_cmp row.now other.now }
{
    row.package
        .as_slice()
        .cmp(&other.package.as_slice())
        .then_with(|| row.class.as_slice().cmp(&other.class.as_slice()))
        .then_with(|| row.id.cmp(&other.id))
}

/// The rows of a report: one for each class that has an instruction that counts, by package, class
/// and class id, texts by their bytes. Rows of one order stand as their classes do.
///
/// The package is the name in front of the last `/`, with dots, or `default`. The class is the part
/// behind it, with `$` as `.`. Where an ASCII digit follows the last `$` of the name, and the class
/// has an interface or a superclass, the class is that form of the name before the `$`, `.new `,
/// that form of the first interface or else of the superclass, and `() {...}`.
///
/// # Errors
///
/// `Memory` where memory was refused.
pub fn rows(alloc: Global, name: &[u8], classes: &[Counted]) -> Result<Vec<Row>, Memory>
    ensures { IfOk result (λ rows. rows.items ≡ rows_of name.now classes.now) }
{
    let mut rows = Vec::new(alloc);
    'making: for class in classes {
        if has_counted_insn(class) {
            rows.push(row_of(alloc, name, class)?)?;
        }
    }
    rows.sort_by(row_cmp)?;
    Ok(rows)
}
