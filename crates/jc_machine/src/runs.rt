//! Runs: turns one after another.
ghost use Rattle.std.specs.Prelude.{◌≡◌, ◌<◌, ◌≤◌, length, All};
ghost use Rattle.jc_programs.specs.Turns.{AreThreads, turns_around, turns_drawn, turns_of, next_drawn, drawn_thread};
ghost use Rattle.jc_machine_model.specs.Programs.{IsProgram};
ghost use Rattle.jc_machine_model.specs.Run.{run_from};
ghost use Rattle.jc_machine.specs.Hits.{Gained, probe_counts};
ghost use Rattle.jc_machine.specs.Machines.{world_of, Fits, KeepsMemory};
ghost use Rattle.jc_machine.specs.Turned.{without_hits};

use crate::world::World;
use jc_programs::{ProbeSink, Program, Schedule};

/// The number that follows in a series of numbers.
pub fn next_drawn(x: u64) -> u64
    ensures { result ≡ next_drawn x }
{
    x.wrapping_mul(6_364_136_223_846_793_005)
        .wrapping_add(1_442_695_040_888_963_407)
}

/// The thread that a number draws.
pub fn drawn_thread(threads: u32, x: u64) -> u32
    requires { 0 < threads }
    ensures { (result ≡ drawn_thread threads x) × (result < threads) }
{
    ((x >> 33) % u64::from(threads)) as u32
}

impl World {
    // The turns that are listed.
    fn run_listed<S: ProbeSink>(&mut self, program: &Program, turns: &[u8], sink: &mut S)
        requires program { IsProgram program.now }
        requires fits { Fits program.now self.old }
        requires threads { All (λ t. t < length self.old.threads) turns.now }
        requires counts { S.counts sink.old ≡ probe_counts program.now }
        ensures world { world_of self.new ≡ without_hits (run_from program.now (world_of self.old) turns.now) }
        ensures hits { Gained (S.hits sink.old) (run_from program.now (world_of self.old) turns.now).hits (S.hits sink.new) }
        ensures counts { S.counts sink.new ≡ S.counts sink.old }
        ensures threads { length self.new.threads ≡ length self.old.threads }
        ensures fits { Fits program.now self.new }
        ensures memory { KeepsMemory self.old self.new }
    {
        'turning: for t in turns {
            self.turn(program, u32::from(*t), sink);
        }
    }

    // So many turns, each of the next thread.
    fn run_around<S: ProbeSink>(&mut self, program: &Program, turns: u32, sink: &mut S)
        requires program { IsProgram program.now }
        requires fits { Fits program.now self.old }
        requires counts { S.counts sink.old ≡ probe_counts program.now }
        ensures world { world_of self.new ≡ without_hits (run_from program.now (world_of self.old) (turns_around (length self.old.threads) 0 turns)) }
        ensures hits { Gained (S.hits sink.old) (run_from program.now (world_of self.old) (turns_around (length self.old.threads) 0 turns)).hits
            (S.hits sink.new) }
        ensures counts { S.counts sink.new ≡ S.counts sink.old }
        ensures threads { length self.new.threads ≡ length self.old.threads }
        ensures fits { Fits program.now self.new }
        ensures memory { KeepsMemory self.old self.new }
    {
        let threads = self.thread_count();
        'turning: for k in 0..turns {
            self.turn(program, k % threads, sink);
        }
    }

    // So many turns, each of a thread that is drawn.
    fn run_drawn<S: ProbeSink>(&mut self, program: &Program, seed: u64, turns: u32, sink: &mut S)
        requires program { IsProgram program.now }
        requires fits { Fits program.now self.old }
        requires counts { S.counts sink.old ≡ probe_counts program.now }
        ensures world { world_of self.new ≡ without_hits (run_from program.now (world_of self.old) (turns_drawn (length self.old.threads) seed turns)) }
        ensures hits { Gained (S.hits sink.old) (run_from program.now (world_of self.old) (turns_drawn (length self.old.threads) seed turns)).hits
            (S.hits sink.new) }
        ensures counts { S.counts sink.new ≡ S.counts sink.old }
        ensures threads { length self.new.threads ≡ length self.old.threads }
        ensures fits { Fits program.now self.new }
        ensures memory { KeepsMemory self.old self.new }
    {
        let threads = self.thread_count();
        let mut x = seed;
        'turning: for k in 0..turns {
            x = next_drawn(x);
            self.turn(program, drawn_thread(threads, x), sink);
        }
    }

    /// All turns of a schedule, one after another. Takes no memory.
    pub fn run<S: ProbeSink>(&mut self, program: &Program, schedule: &Schedule, sink: &mut S)
        requires program { IsProgram program.now }
        requires fits { Fits program.now self.old }
        requires threads { AreThreads (length self.old.threads) schedule.now }
        requires counts { S.counts sink.old ≡ probe_counts program.now }
        ensures world { world_of self.new ≡ without_hits (run_from program.now (world_of self.old) (turns_of (length self.old.threads) schedule.now)) }
        ensures hits { Gained (S.hits sink.old) (run_from program.now (world_of self.old) (turns_of (length self.old.threads) schedule.now)).hits
            (S.hits sink.new) }
        ensures counts { S.counts sink.new ≡ S.counts sink.old }
        ensures threads { length self.new.threads ≡ length self.old.threads }
        ensures fits { Fits program.now self.new }
        ensures memory { KeepsMemory self.old self.new }
    {
        match schedule {
            Schedule::Listed(turns) => self.run_listed(program, turns.as_slice(), sink),
            Schedule::Robin(turns) => self.run_around(program, *turns, sink),
            Schedule::Seeded { seed, turns } => self.run_drawn(program, *seed, *turns, sink),
        }
    }
}
