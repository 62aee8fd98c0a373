//! Turns of a world's threads.
ghost use Rattle.std.specs.Prelude.{◌≡◌, ◌<◌, length};
ghost use Rattle.jc_machine_model.specs.Programs.{IsProgram};
ghost use Rattle.jc_machine_model.specs.Step.{step};
ghost use Rattle.jc_machine.specs.Hits.{Gained, probe_counts};
ghost use Rattle.jc_machine.specs.Machines.{world_of, Fits, KeepsMemory};
ghost use Rattle.jc_machine.specs.Turned.{without_hits, hits_in};

use crate::running::turn_thread;
use crate::thread_turn::ProbeHit;
use crate::world::World;
use jc_programs::{End, ProbeSink, Program};

impl World {
    // One turn of a thread, and the probe that it hits.
    fn step(&mut self, program: &Program, thread: u32) -> Option<ProbeHit>
        requires program { IsProgram program.now }
        requires fits { Fits program.now self.old }
        requires thread { thread < length self.old.threads }
        ensures world { world_of self.new ≡ without_hits (step program.now (world_of self.old) thread) }
        ensures hits { hits_in result ≡ (step program.now (world_of self.old) thread).hits }
        ensures prepared { self.new.prepared ≡ self.old.prepared }
        ensures fields { self.new.fields ≡ self.old.fields }
        ensures memory { self.new.memory ≡ self.old.memory }
    {
        let t = thread as usize;
        if let End::Running = self.ends[t] {
            let frames = &mut self.stacks[t];
            let turn = turn_thread(&self.prepared, program, &mut self.shared, frames);
            self.ends[t] = turn.end;
            return turn.hit;
        }
        None
    }

    /// One turn of a thread: it executes the instruction at which the thread stands, if it runs. The hits go to the sink, which
    /// has as many probes of each class as the program. Takes no memory.
    pub fn turn<S: ProbeSink>(&mut self, program: &Program, thread: u32, sink: &mut S)
        requires program { IsProgram program.now }
        requires fits { Fits program.now self.old }
        requires thread { thread < length self.old.threads }
        requires counts { S.counts sink.old ≡ probe_counts program.now }
        ensures world { world_of self.new ≡ without_hits (step program.now (world_of self.old) thread) }
        ensures hits { Gained (S.hits sink.old) (step program.now (world_of self.old) thread).hits (S.hits sink.new) }
        ensures counts { S.counts sink.new ≡ S.counts sink.old }
        ensures threads { length self.new.threads ≡ length self.old.threads }
        ensures fits { Fits program.now self.new }
        ensures memory { KeepsMemory self.old self.new }
    {
        if let Some(hit) = self.step(program, thread) {
            sink.hit(hit.class, hit.id);
        }
    }
}
