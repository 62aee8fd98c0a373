//! Edges and plans of bodies that were worked by hand from the JVM Specification and JaCoCo's documentation on control
//! flow. Each holds by computation.
ghost use Rattle.std.specs.Prelude.{◌≡◌, ◌∷◌, [], map};
ghost use Rattle.jc_plan.specs.Edges.{edges};
ghost use Rattle.jc_plan.specs.Plan.{plan_of};
ghost use Rattle.jc_plan.specs.Probed.{probe_count, first_id};
ghost use Rattle.examples_methods.specs.BodyExamples.{abs, abs_edges, abs_plan, calc, calls, calls_plan, catches, catches_plan};
ghost use Rattle.examples_methods.specs.BodyExamples.{counts_down, counts_down_edges, counts_down_plan, jumps_to_next};
ghost use Rattle.examples_methods.specs.BodyExamples.{jumps_to_next_edges, jumps_to_next_plan, switches, switches_edges, switches_plan};

/// The edges, by instruction and then by branch.
pub fn worked_edges()
    ensures abs { edges (abs []) ≡ abs_edges }
    ensures counts_down { edges counts_down ≡ counts_down_edges }
    ensures jumps_to_next { edges jumps_to_next ≡ jumps_to_next_edges }
    ensures switches { edges switches ≡ switches_edges }
{}

/// The ids of the probes, by instruction and branch.
pub fn worked_plans()
    ensures abs { plan_of (abs []) 0 ≡ abs_plan }
    ensures counts_down { plan_of counts_down 0 ≡ counts_down_plan }
    ensures jumps_to_next { plan_of jumps_to_next 7 ≡ jumps_to_next_plan }
    ensures switches { plan_of switches 0 ≡ switches_plan }
    ensures catches { plan_of catches 0 ≡ catches_plan }
    ensures calls { plan_of calls 0 ≡ calls_plan }
{}

/// How many probes each method of a class of ordinary use has, and the first id behind them.
pub fn worked_counts()
    ensures counts { map probe_count calc ≡ 1 ∷ 2 ∷ 1 ∷ 1 ∷ 1 ∷ [] }
    ensures all { first_id calc 5 ≡ 6 }
{}
