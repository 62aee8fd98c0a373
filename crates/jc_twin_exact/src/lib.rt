//! What a report may say of programs that ran.
//!
//! Sparse probes tell which edges were taken: each covered edge was reached, and where every thread returned and nothing was
//! raised, the covered edges are exactly those that were taken. [`covered_edges_ran`] is the promise of this crate.
#![tactic(auto)]

ghost use Rattle.jc_programs.specs.declared.program.Program.{Program};
ghost use Rattle.jc_programs.specs.declared.run_plan.RunPlan.{RunPlan};
ghost use Rattle.jc_twin_exact.specs.Exact.{ExactEdges};
ghost use Rattle.jc_twin_exact.specs.Reported.{ReportedEdges};

/// Of every program and its twin, every run plan whose threads have entries, and every list of turns for each case, with the hits
/// of the twin's runs: in classes with probes each covered edge was taken by the original under the kept turns of some case, or is
/// the one edge of a `goto`, a return or `athrow` at which a thread of it stands at the end. Where each thread of each case
/// returned and no turn raised, whether it was caught or not, exactly the edges that were taken are covered.
pub fn covered_edges_ran()
    ensures { (before after : Program) (plan : RunPlan) → ExactEdges before after plan }
{}

/// The same of what counters count, with the hits of the run plan under its own schedules. Each instruction that is counted as
/// covered was executed, or is the `goto`, return or `athrow` that is next in a stopped thread; and each branch of an instruction
/// with two or more was taken. Where each thread returned and nothing was raised, exactly these are covered, each instruction that
/// had a turn was executed, and the counters are those of the taken edges.
pub fn counted_edges_ran()
    ensures { (before after : Program) (plan : RunPlan) → ReportedEdges before after plan }
{}
