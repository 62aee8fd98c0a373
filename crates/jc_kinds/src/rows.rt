//! The rows of the exception table by their handlers, without rows that guard nothing more.
ghost use Rattle.std.specs.Prelude.{◌≡◌, ◌≤◌, length, IfOk};
ghost use Rattle.std.specs.List.{AllWithin};
ghost use Rattle.std.specs.List.Sorted.{IsNonDecreasingBy, IsPermutation};
ghost use Rattle.jc_methods.specs.declared.body.Handler.{Handler as Row};
ghost use Rattle.jc_kinds.specs.Rows.{AreRising, AreRisingRowsOf, AreGroups, rows_of};

use jc_bytes::Memory;
use jc_methods::Handler;
use std::alloc::Global;

/// The rows by where they begin.
fn by_start(alloc: Global, rows: &[Handler]) -> Result<Vec<Handler>, Memory>
    ensures permutation { IfOk result (λ sorted. IsPermutation rows.now sorted.items) }
    ensures starts { IfOk result (λ sorted. IsNonDecreasingBy (λ h. h.start) sorted.items) }
{
    let mut sorted = Vec::from_slice(alloc, rows)?;
    sorted.sort_unstable_by_key(|row| row.start);
    Ok(sorted)
}

/// The rows without those that end no later than one in front of them.
fn further_rows(alloc: Global, rows: &[Handler]) -> Result<Vec<Handler>, Memory>
    requires { IsNonDecreasingBy (λ (h : Row). h.start) rows.now }
    ensures { IfOk result (λ kept. AreRisingRowsOf rows.now kept.items) }
{
    let mut kept = Vec::new(alloc);
    let mut reached = 0;
    'keeping: for row in rows {
        if row.end > reached {
            kept.push(*row)?;
            reached = row.end;
        }
    }
    Ok(kept)
}

/// The rows of one handler by where they begin, without those that end no later than one that begins no later.
fn rising(alloc: Global, rows: &[Handler]) -> Result<Vec<Handler>, Memory>
    ensures { IfOk result (λ kept. AreRisingRowsOf rows.now kept.items) }
{
    let sorted = by_start(alloc, rows)?;
    Ok(further_rows(alloc, &sorted)?)
}

/// The rows by their handlers.
fn by_target(alloc: Global, rows: &[Handler]) -> Result<Vec<Handler>, Memory>
    ensures { IfOk result (λ sorted. IsPermutation rows.now sorted.items) }
{
    let mut sorted = Vec::from_slice(alloc, rows)?;
    sorted.sort_unstable_by_key(|row| row.target);
    Ok(sorted)
}

/// Where the rows of one handler end that begin at a place.
fn group_end(rows: &[Handler], at: usize, target: u32) -> usize
    requires { at ≤ length rows.now }
    ensures from { at ≤ result }
    ensures within { result ≤ length rows.now }
    ensures alike { AllWithin (λ h. h.target ≡ target) rows.now at result }
{
    'comparing: for end in at..rows.len() {
        if rows[end].target != target {
            return end;
        }
    }
    rows.len()
}

/// Groups of rows, each of which have one handler and stand one behind the other.
fn groups_of(alloc: Global, rows: &[Handler]) -> Result<Vec<Vec<Handler>>, Memory>
    ensures { IfOk result (λ groups. AreGroups rows.now (rows_of groups.items)) }
{
    let mut groups = Vec::new(alloc);
    let mut at = 0;
    'grouping: while at < rows.len() {
        let end = group_end(rows, at + 1, rows[at].target);
        groups.push(rising(alloc, &rows[at..end])?)?;
        at = end;
    }
    Ok(groups)
}

/// The rows in groups, one handler a group.
///
/// # Errors
///
/// `Memory` where memory was refused.
pub fn row_groups(alloc: Global, handlers: &[Handler]) -> Result<Vec<Vec<Handler>>, Memory>
    ensures { IfOk result (λ groups. AreGroups handlers.now (rows_of groups.items)) }
{
    let sorted = by_target(alloc, handlers)?;
    Ok(groups_of(alloc, &sorted)?)
}

/// The first row from a place on that ends behind an instruction, or the number of rows.
pub fn first_ending_behind(rows: &[Handler], from: usize, at: usize) -> usize
    requires from { from ≤ length rows.now }
    requires rising { AreRising rows.now }
    ensures from { from ≤ result }
    ensures within { result ≤ length rows.now }
    ensures ended { AllWithin (λ h. h.end ≤ at) rows.now from result }
{
    from + rows[from..].partition_point(|row| row.end as usize <= at)
}
