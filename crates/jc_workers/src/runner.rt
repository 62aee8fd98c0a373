//! Cases that workers run, one at a time.
ghost use Rattle.std.specs.Prelude.{ℕ};

use crate::Gate;
use jc_bytes::Memory;
use jc_programs::ProbeSink;
use std::alloc::Global;

/// Runs the cases of a run plan, each of which has passed a gate before.
pub trait CaseRunner {
    ghost use Rattle.std.specs.Prelude.{◌≡◌, ℕ, ◌+◌, ◌<◌, ◌⊎◌, List, IfOk};

    /// What a worker keeps from one case to the next.
    type World;

    /// What a case leaves.
    type End;

    /// How many cases there are.
    ghost cases: { Self → ℕ };

    /// How many probes each class has.
    ghost counts: { Self → List ℕ };

    /// What a case leaves.
    ghost end_of: { Self → ℕ → Self.End };

    /// Which probes a case hits: case, class and id.
    ghost hits: { Self → ℕ → ℕ → ℕ → Type 0 };

    /// The world fits the program.
    ghost fits: { Self → Self.World → Type 0 };

    /// The cases can be run.
    ghost runnable: { Self → Type 0 };

    fn case_count(&self) -> usize
        ensures { result ≡ cases self.now };

    fn begin(&self, alloc: Global) -> Result<Self::World, Memory>
        requires { runnable self.now }
        ensures { IfOk result (λ w. fits self.now w) };

    fn run<S: ProbeSink, G: Gate>(
        &self,
        alloc: Global,
        world: &mut Self::World,
        gate: &G,
        case: usize,
        sink: &mut S,
    ) -> Result<Self::End, Memory>
        requires runner { runnable self.now }
        requires case { case < cases self.now }
        requires gate { G.passed gate.now (case + 1) }
        requires world { fits self.now world.old }
        requires sink { S.counts sink.old ≡ counts self.now }
        ensures world { fits self.now world.new }
        ensures end { IfOk result (λ e. e ≡ end_of self.now case) }
        ensures counts { S.counts sink.new ≡ S.counts sink.old }
        ensures gained { IfOk result (λ _. (c i : ℕ) → hits self.now case c i → S.hits sink.new c i) }
        ensures kept { (c i : ℕ) → S.hits sink.old c i → S.hits sink.new c i }
        ensures others { (c i : ℕ) → S.hits sink.new c i → S.hits sink.old c i ⊎ hits self.now case c i };
}
