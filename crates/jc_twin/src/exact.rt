//! What covered edges say of runs.
ghost use Rattle.jc_twin_exact.specs.Exact.{ExactEdges};
ghost use Rattle.jc_twin_exact.specs.Reported.{ReportedEdges};

use jc_programs::{Program, RunPlan};

/// Sparse probes are exact. Where `after` is the twin of `before`, the threads of each case of the run plan have entries, and the
/// hits are those of the twin's runs under any list of turns for each case: in classes with probes each covered edge was taken by
/// the original under the kept turns of some case, or is the one edge of a `goto`, a return or `athrow` at which a thread stands at
/// the end. Where each thread of each case returned and no turn raised, exactly the edges that were taken are covered.
pub fn exact_edges(before: &Program, after: &Program, plan: &RunPlan)
    ensures { ExactEdges before.now after.now plan.now }
{}

/// The same of instructions and branches that counters count as covered, with the hits of the run plan under its own schedules.
pub fn reported_edges(before: &Program, after: &Program, plan: &RunPlan)
    ensures { ReportedEdges before.now after.now plan.now }
{}
