//! Marking covered instructions, backward from those of which a probe is hit.
ghost use Rattle.std.specs.Prelude.{◌≡◌, ◌<◌, ◌≤◌, ◌^◌, ℕ, All, List, Option, None, Some, false, length, replicate, slice_get, IfOk};
ghost use Rattle.std.specs.List.{list_any};
ghost use Rattle.jc_cover.specs.Marking.{with_source, mark_if, mark_back};
ghost use Rattle.jc_cover.specs.Planned.{IsWithin, LeadsInside, with_branches, with_insns, is_hit_probe, is_hit_branch, mark_insns};

use crate::planned::PlannedBranch;
use jc_bytes::{List, Memory};
use std::alloc::Global;

/// Puts the instruction at `at` down as the source of a place.
fn put_source(sources: &mut Vec<Option<u32>>, at: u32, place: Option<u32>)
    requires { IsWithin (length sources.old.items) place }
    ensures { sources.new.items ≡ with_source place at sources.old.items }
{
    if let Some(to) = place {
        sources[to as usize] = Some(at);
    }
}

/// Puts the instruction at `at` down as the source of each place to which one of its branches
/// without a probe leads.
fn put_sources(sources: &mut Vec<Option<u32>>, at: u32, branches: &[PlannedBranch])
    requires { All (LeadsInside (length sources.old.items)) branches.now }
    ensures { sources.new.items ≡ with_branches at branches.now sources.old.items }
{
    'putting: for branch in branches {
        put_source(sources, at, branch.free_place());
    }
}

/// For each instruction, the one from which a branch without a probe leads there. There is at most
/// one: where two lead, each has a probe.
pub fn sources(alloc: Global, branches: &[List<PlannedBranch>]) -> Result<Vec<Option<u32>>, Memory>
    requires few { length branches.now ≤ 65535 }
    requires inside { All (All (LeadsInside (length branches.now))) branches.now }
    ensures { IfOk result (λ sources. sources.items ≡ with_insns 0 branches.now (replicate (length branches.now) None)) }
{
    let mut sources = vec![in alloc; None; branches.len()]?;
    'putting: for (at, branches) in branches.iter().enumerate() {
        put_sources(&mut sources, at as u32, branches);
    }
    Ok(sources)
}

/// Marks an instruction, its source, the source of that, and so on, up to one that is marked.
fn mark_back(sources: &[Option<u32>], start: u32, marks: &mut Vec<bool>)
    requires size { length marks.old.items ≡ length sources.now }
    requires start { start < length sources.now }
    requires sources { (i at : ℕ) → slice_get sources.now i ≡ Some (Some at) → at < length sources.now }
    ensures { marks.new.items ≡ mark_back sources.now (length sources.now) start marks.old.items }
{
    let mut next = Some(start);
    'marking: while let Some(at) = next {
        if marks[at as usize] {
            next = None;
        } else {
            marks[at as usize] = true;
            next = sources[at as usize];
        }
    }
}

/// Whether a probe is hit.
pub fn is_hit(probe: Option<u32>, hits: &[bool]) -> bool
    ensures { result ≡ is_hit_probe hits.now probe }
{
    match probe {
        Some(id) => hits.get(id as usize).copied().unwrap_or(false),
        None => false,
    }
}

/// Whether a probe of one of the branches is hit.
fn has_hit(branches: &[PlannedBranch], hits: &[bool]) -> bool
    ensures { result ≡ list_any (is_hit_branch hits.now) branches.now }
{
    'looking: for branch in branches {
        if is_hit(branch.probe, hits) {
            return true;
        }
    }
    false
}

/// Marks back from an instruction if one of its probes is hit.
fn mark_from(sources: &[Option<u32>], at: u32, hit: bool, marks: &mut Vec<bool>)
    requires size { length marks.old.items ≡ length sources.now }
    requires at { at < length sources.now }
    requires sources { (i at : ℕ) → slice_get sources.now i ≡ Some (Some at) → at < length sources.now }
    ensures { marks.new.items ≡ mark_if hit (mark_back sources.now (length sources.now) at) marks.old.items }
{
    if hit {
        mark_back(sources, at, marks);
    }
}

/// For each instruction, whether it is covered. Each is marked once, so that takes time in proportion
/// to the branches.
pub fn marks(
    alloc: Global,
    branches: &[List<PlannedBranch>],
    sources: &[Option<u32>],
    hits: &[bool],
) -> Result<Vec<bool>, Memory>
    requires few { length branches.now ≤ 65535 }
    requires size { length sources.now ≡ length branches.now }
    requires sources { (i at : ℕ) → slice_get sources.now i ≡ Some (Some at) → at < length sources.now }
    ensures { IfOk result (λ marks. marks.items
        ≡ mark_insns hits.now sources.now (length sources.now) 0 branches.now (replicate (length sources.now) false)) }
{
    let mut marks = vec![in alloc; false; branches.len()]?;
    'marking: for (at, branches) in branches.iter().enumerate() {
        mark_from(sources, at as u32, has_hit(branches, hits), &mut marks);
    }
    Ok(marks)
}
