//! Runs with locks: turns one after another.
ghost use Rattle.std.specs.Prelude.{◌≡◌, ◌<◌, length, All};
ghost use Rattle.jc_programs.specs.Turns.{AreThreads, turns_around, turns_drawn, turns_of};
ghost use Rattle.jc_machine_model.specs.Programs.{IsProgram};
ghost use Rattle.jc_machine.specs.Hits.{Gained, probe_counts};
ghost use Rattle.jc_monitor_model.specs.MonitorRun.{monitor_run_from};
ghost use Rattle.jc_monitor_world.specs.Monitored.{monitor_world_of, without_hits, FitsMonitored, KeepsMemory};

use crate::monitor_world::MonitorWorld;
use jc_machine::{drawn_thread, next_drawn};
use jc_programs::{ProbeSink, Program, Schedule};

impl MonitorWorld {
    // The turns that are listed.
    fn run_listed<S: ProbeSink>(&mut self, program: &Program, turns: &[u8], sink: &mut S)
        requires program { IsProgram program.now }
        requires fits { FitsMonitored program.now self.old }
        requires threads { All (λ t. t < length self.old.machine.threads) turns.now }
        requires counts { S.counts sink.old ≡ probe_counts program.now }
        ensures world { monitor_world_of self.new ≡ without_hits (monitor_run_from program.now (monitor_world_of self.old) turns.now) }
        ensures hits { Gained (S.hits sink.old) (monitor_run_from program.now (monitor_world_of self.old) turns.now).world.hits (S.hits sink.new) }
        ensures counts { S.counts sink.new ≡ S.counts sink.old }
        ensures threads { length self.new.machine.threads ≡ length self.old.machine.threads }
        ensures fits { FitsMonitored program.now self.new }
        ensures memory { KeepsMemory self.old self.new }
    {
        'turning: for t in turns {
            self.turn(program, u32::from(*t), sink);
        }
    }

    // So many turns, each of the next thread.
    fn run_around<S: ProbeSink>(&mut self, program: &Program, turns: u32, sink: &mut S)
        requires program { IsProgram program.now }
        requires fits { FitsMonitored program.now self.old }
        requires counts { S.counts sink.old ≡ probe_counts program.now }
        ensures world { monitor_world_of self.new
            ≡ without_hits (monitor_run_from program.now (monitor_world_of self.old) (turns_around (length self.old.machine.threads) 0 turns)) }
        ensures hits { Gained (S.hits sink.old)
            (monitor_run_from program.now (monitor_world_of self.old) (turns_around (length self.old.machine.threads) 0 turns)).world.hits (S.hits sink.new) }
        ensures counts { S.counts sink.new ≡ S.counts sink.old }
        ensures threads { length self.new.machine.threads ≡ length self.old.machine.threads }
        ensures fits { FitsMonitored program.now self.new }
        ensures memory { KeepsMemory self.old self.new }
    {
        let threads = self.world.thread_count();
        'turning: for k in 0..turns {
            self.turn(program, k % threads, sink);
        }
    }

    // So many turns, each of a thread that is drawn.
    fn run_drawn<S: ProbeSink>(&mut self, program: &Program, seed: u64, turns: u32, sink: &mut S)
        requires program { IsProgram program.now }
        requires fits { FitsMonitored program.now self.old }
        requires counts { S.counts sink.old ≡ probe_counts program.now }
        ensures world { monitor_world_of self.new
            ≡ without_hits (monitor_run_from program.now (monitor_world_of self.old) (turns_drawn (length self.old.machine.threads) seed turns)) }
        ensures hits { Gained (S.hits sink.old)
            (monitor_run_from program.now (monitor_world_of self.old) (turns_drawn (length self.old.machine.threads) seed turns)).world.hits (S.hits sink.new) }
        ensures counts { S.counts sink.new ≡ S.counts sink.old }
        ensures threads { length self.new.machine.threads ≡ length self.old.machine.threads }
        ensures fits { FitsMonitored program.now self.new }
        ensures memory { KeepsMemory self.old self.new }
    {
        let threads = self.world.thread_count();
        let mut x = seed;
        'turning: for k in 0..turns {
            x = next_drawn(x);
            self.turn(program, drawn_thread(threads, x), sink);
        }
    }

    /// All turns of a schedule, one after another. Takes no memory.
    pub fn run<S: ProbeSink>(&mut self, program: &Program, schedule: &Schedule, sink: &mut S)
        requires program { IsProgram program.now }
        requires fits { FitsMonitored program.now self.old }
        requires threads { AreThreads (length self.old.machine.threads) schedule.now }
        requires counts { S.counts sink.old ≡ probe_counts program.now }
        ensures world { monitor_world_of self.new
            ≡ without_hits (monitor_run_from program.now (monitor_world_of self.old) (turns_of (length self.old.machine.threads) schedule.now)) }
        ensures hits { Gained (S.hits sink.old)
            (monitor_run_from program.now (monitor_world_of self.old) (turns_of (length self.old.machine.threads) schedule.now)).world.hits (S.hits sink.new) }
        ensures counts { S.counts sink.new ≡ S.counts sink.old }
        ensures threads { length self.new.machine.threads ≡ length self.old.machine.threads }
        ensures fits { FitsMonitored program.now self.new }
        ensures memory { KeepsMemory self.old self.new }
    {
        match schedule {
            Schedule::Listed(turns) => self.run_listed(program, turns.as_slice(), sink),
            Schedule::Robin(turns) => self.run_around(program, *turns, sink),
            Schedule::Seeded { seed, turns } => self.run_drawn(program, *seed, *turns, sink),
        }
    }
}
