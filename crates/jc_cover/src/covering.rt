//! Which edges of a class are covered.
ghost use Rattle.std.specs.Prelude.{◌≡◌, ℕ, map, length, option_map, IfSome, IfOk};
ghost use Rattle.jc_methods.specs.WellMade.{IsCode};
ghost use Rattle.jc_plan.specs.Analysed.{IsAnalysed};
ghost use Rattle.jc_plan.specs.Plan.{plan_of};
ghost use Rattle.jc_cover.specs.Covered.{hits_or_none, TellsCovered};
ghost use Rattle.jc_cover.specs.Marking.{is_marked, body_values, coverage_of};
ghost use Rattle.jc_cover.specs.Planned.{told};

use crate::coverage::Coverage;
use crate::marking::{is_hit, marks, sources};
use crate::planned::{PlannedBranch, body_branches};
use jc_bytes::{List, Memory};
use jc_methods::{Analysed, Body, Plan};
use std::alloc::Global;

/// Whether the instruction at a place is marked.
fn is_marked(marks: &[bool], place: Option<u32>) -> bool
    ensures { result ≡ is_marked marks.now place }
{
    match place {
        Some(at) => marks.get(at as usize).copied().unwrap_or(false),
        None => false,
    }
}

/// Whether a branch is covered: by its probe, or where it has none by the instruction to which it
/// leads.
fn is_covered(branch: PlannedBranch, hits: &[bool], marks: &[bool]) -> bool
    ensures { result ≡ told hits.now marks.now branch }
{
    match branch.probe {
        Some(_) => is_hit(branch.probe, hits),
        None => is_marked(marks, branch.to),
    }
}

/// For each branch, whether it is covered.
fn insn_values(
    alloc: Global,
    branches: &[PlannedBranch],
    hits: &[bool],
    marks: &[bool],
) -> Result<List<bool>, Memory>
    ensures { IfOk result (λ values. values ≡ map (told hits.now marks.now) branches.now) }
{
    let mut values = List::new(alloc);
    'telling: for branch in branches {
        values.push(is_covered(*branch, hits, marks))?;
    }
    Ok(values)
}

/// For each instruction and each of its branches, whether it is covered.
fn told_values(
    alloc: Global,
    branches: &[List<PlannedBranch>],
    hits: &[bool],
    marks: &[bool],
) -> Result<List<List<bool>>, Memory>
    ensures { IfOk result (λ values. values ≡ map (map (told hits.now marks.now)) branches.now) }
{
    let mut values = List::new(alloc);
    'telling: for branches in branches {
        values.push(insn_values(alloc, branches, hits, marks)?)?;
    }
    Ok(values)
}

/// The values of a body whose first id is `first`.
pub fn body_values(
    alloc: Global,
    body: &Body,
    plan: &Plan,
    hits: &[bool],
) -> Result<List<List<bool>>, Memory>
    ghost first: { ℕ }
    requires made { IsCode body.now.code }
    requires plan { plan.now ≡ plan_of body.now first }
    ensures { IfOk result (λ values. values ≡ body_values body.now first hits.now) }
{
    let branches = body_branches(alloc, body, plan)?;
    let sources = sources(alloc, &branches)?;
    let marks = marks(alloc, &branches, &sources, hits)?;
    let values = told_values(alloc, &branches, hits, &marks)?;
    Ok(values)
}

/// The hits, or none.
fn hits_or_none(hits: Option<&[bool]>) -> &[bool]
    ensures { result.now ≡ hits_or_none (option_map (λ hits. hits.now) hits.entry) }
{
    match hits {
        Some(hits) => hits,
        None => &[],
    }
}

/// Which edges of a class are covered by hits of its probes. `None` stands for no hit.
///
/// An edge with a probe is covered where its probe is hit. An edge without a probe leads to an
/// instruction, and is covered where an edge of that instruction is (JaCoCo's documentation on
/// control flow). That takes time in proportion to the edges.
///
/// # Errors
///
/// `Memory` where memory was refused.
pub fn covered(alloc: Global, class: &Analysed, hits: Option<&[bool]>) -> Result<Coverage, Memory>
    requires analysed { IsAnalysed class.now }
    requires hits { IfSome hits (λ hits. length hits.now ≡ class.now.probes) }
    ensures value { IfOk result (λ coverage. coverage
        ≡ coverage_of class.now.bodies (hits_or_none (option_map (λ hits. hits.now) hits.entry))) }
    ensures told { IfOk result (λ coverage. TellsCovered class.now.bodies
        (hits_or_none (option_map (λ hits. hits.now) hits.entry)) coverage) }
{
    let hits = hits_or_none(hits);
    let mut edges = List::new(alloc);
    'covering: for (number, body) in class.bodies.iter().enumerate() {
        edges.push(body_values(alloc, body, &class.plans[number], hits)?)?;
    }
    Ok(Coverage { edges })
}
