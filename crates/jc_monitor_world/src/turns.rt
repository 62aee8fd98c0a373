//! Turns of the threads of a world with locks.
ghost use Rattle.std.specs.Prelude.{◌≡◌, ◌<◌, Some, length};
ghost use Rattle.jc_programs.specs.declared.program.Program.{Program as ProgramSeen};
ghost use Rattle.jc_machine_model.specs.Programs.{IsProgram};
ghost use Rattle.jc_machine.specs.Hits.{Gained, probe_counts};
ghost use Rattle.jc_machine.specs.Standings.{standing_in, callee_in};
ghost use Rattle.jc_machine_model.specs.Standings.{stands};
ghost use Rattle.jc_machine.specs.Machines.{world_of, Fits};
ghost use Rattle.jc_monitor_model.specs.Locks.{access};
ghost use Rattle.jc_monitor_model.specs.MonitorTurns.{calls_locked, turn_of};
ghost use Rattle.jc_monitor_model.specs.MonitorStep.{depth, is_one_too_many, turned, after_release, monitor_step};
ghost use Rattle.jc_monitor_world.specs.Seen.{lock_of, turn_seen};
ghost use Rattle.jc_monitor_world.specs.Monitored.{monitor_world_of, without_hits, FitsMonitored, IsAfterTurn, KeepsMemory};

use crate::frames::SynchronizedFrame;
use crate::lock::{Access, Lock};
use crate::monitor_world::MonitorWorld;
use crate::next_turn::{MonitorTurn, monitor_at, turn_on_call, turn_on_top};
use jc_machine::{Callee, Standing};
use jc_programs::{End, ProbeSink, Program, Thrown};

/// How many frames a thread has at most, those of `$jacocoInit` not counted.
const MOST_FRAMES: u32 = 128;

impl MonitorWorld {
    // What the next turn of a thread is that runs.
    fn next_turn(&self, program: &Program, thread: u32, standing: Standing) -> MonitorTurn
        requires program { IsProgram program.now }
        requires fits { FitsMonitored program.now self.now }
        requires thread { thread < length self.now.machine.threads }
        requires standing { stands program.now (world_of self.now.machine) thread ≡ Some (standing_in standing) }
        ensures { turn_seen result ≡ turn_of program.now (monitor_world_of self.now) thread }
    {
        match monitor_at(program, standing) {
            Some(insn) => turn_on_top(&self.locks, thread, insn, self.world.top(thread)),
            None => turn_on_call(&self.locks, thread, self.world.callee(program, thread)),
        }
    }

    // How many frames a thread has, those of `$jacocoInit` not counted; one that doesn't run has none.
    fn depth(&self, thread: u32) -> u32
        requires { thread < length self.now.machine.threads }
        ensures { (program : ProgramSeen) → IsProgram program → Fits program self.now.machine
            → result ≡ depth program (world_of self.now.machine) thread }
    {
        match self.world.stands(thread) {
            Some(standing) => standing.depth,
            None => 0,
        }
    }

    // A thread calls a synchronized method whose class no other thread holds. The lock is taken for the frame that is made.
    fn call<S: ProbeSink>(
        &mut self,
        program: &Program,
        thread: u32,
        frame_count: u32,
        callee: Callee,
        sink: &mut S,
    )
        requires program { IsProgram program.now }
        requires fits { FitsMonitored program.now self.old }
        requires thread { thread < length self.old.machine.threads }
        requires counts { S.counts sink.old ≡ probe_counts program.now }
        requires frame_count { frame_count ≡ depth program.now (world_of self.old.machine) thread }
        requires turn { turn_of program.now (monitor_world_of self.old) thread ≡ calls_locked (callee_in callee) }
        ensures world { monitor_world_of self.new
            ≡ without_hits (turned program.now thread (monitor_world_of self.old) (calls_locked (callee_in callee))) }
        ensures hits { Gained (S.hits sink.old) (turned program.now thread (monitor_world_of self.old) (calls_locked (callee_in callee))).world.hits
            (S.hits sink.new) }
        ensures counts { S.counts sink.new ≡ S.counts sink.old }
        ensures fits { IsAfterTurn program.now thread self.new }
        ensures memory { KeepsMemory self.old self.new }
    {
        let lock = Lock::Class(callee.class);
        if frame_count < MOST_FRAMES && self.is_one_too_many(thread, lock) {
            self.world.turn(program, thread, sink);
            return;
        }
        self.world.call_locked(program, thread);
        let deeper = self.depth(thread);
        if frame_count < deeper {
            self.locks.take(thread, lock);
            self.frames[thread as usize].enter(SynchronizedFrame {
                depth: deeper,
                class: callee.class,
            });
        }
    }

    // Whether the lock would be one more than can be held.
    fn is_one_too_many(&self, thread: u32, lock: Lock) -> bool
        ensures { result ≡ is_one_too_many self.now.held (access thread (lock_of lock) self.now.held) }
    {
        match self.locks.access(thread, lock) {
            Access::Free => self.locks.is_full(),
            Access::Own(_) | Access::Others => false,
        }
    }

    // A turn that isn't idle, but for the locks of the frames that are left.
    fn take_turn<S: ProbeSink>(
        &mut self,
        program: &Program,
        thread: u32,
        frame_count: u32,
        turn: MonitorTurn,
        sink: &mut S,
    )
        requires program { IsProgram program.now }
        requires fits { FitsMonitored program.now self.old }
        requires thread { thread < length self.old.machine.threads }
        requires counts { S.counts sink.old ≡ probe_counts program.now }
        requires frame_count { frame_count ≡ depth program.now (world_of self.old.machine) thread }
        requires turn { turn_of program.now (monitor_world_of self.old) thread ≡ turn_seen turn }
        ensures world { monitor_world_of self.new ≡ without_hits (turned program.now thread (monitor_world_of self.old) (turn_seen turn)) }
        ensures hits { Gained (S.hits sink.old) (turned program.now thread (monitor_world_of self.old) (turn_seen turn)).world.hits (S.hits sink.new) }
        ensures counts { S.counts sink.new ≡ S.counts sink.old }
        ensures fits { IsAfterTurn program.now thread self.new }
        ensures memory { KeepsMemory self.old self.new }
    {
        match turn {
            MonitorTurn::Idle => {}
            MonitorTurn::Plain => self.world.turn(program, thread, sink),
            MonitorTurn::RaisesNull => {
                self.world
                    .raise(program, thread, Thrown::NullPointerException);
            }
            MonitorTurn::Takes(lock) => {
                self.world.drop_top(program, thread);
                self.locks.take(thread, lock);
            }
            MonitorTurn::Gives(lock) => {
                self.world.drop_top(program, thread);
                self.locks.give(thread, lock);
            }
            MonitorTurn::CallsLocked(callee) => self.call(
                program,
                thread,
                frame_count,
                callee,
                sink,
            ),
        }
    }

    // Gives back the locks of the frames that are left. A stuck thread keeps its frames.
    fn release(&mut self, thread: u32)
        requires thread { thread < length self.old.machine.threads }
        requires fits { (program : ProgramSeen) × IsProgram program × IsAfterTurn program thread self.old }
        ensures world { (program : ProgramSeen) → IsProgram program → IsAfterTurn program thread self.old
            → monitor_world_of self.new ≡ after_release program thread (monitor_world_of self.old) }
        ensures fits { (program : ProgramSeen) → IsProgram program → IsAfterTurn program thread self.old → FitsMonitored program self.new }
        ensures memory { KeepsMemory self.old self.new }
    {
        let t = thread as usize;
        if let None = self.frames[t].deepest() {
            return;
        }
        if let End::Stuck = self.world.ends()[t] {
            return;
        }
        let depth = self.depth(thread);
        'leaving: while let Some(frame) = self.frames[t].deepest() {
            if frame.depth <= depth {
                return;
            }
            self.locks.give(thread, Lock::Class(frame.class));
            self.frames[t].leave();
        }
    }

    /// One turn of a thread. A turn in which it waits for a lock changes nothing. The hits go to the sink, which has as many probes of
    /// each class as the program. Takes no memory.
    pub fn turn<S: ProbeSink>(&mut self, program: &Program, thread: u32, sink: &mut S)
        requires program { IsProgram program.now }
        requires fits { FitsMonitored program.now self.old }
        requires thread { thread < length self.old.machine.threads }
        requires counts { S.counts sink.old ≡ probe_counts program.now }
        ensures world { monitor_world_of self.new ≡ without_hits (monitor_step program.now (monitor_world_of self.old) thread) }
        ensures hits { Gained (S.hits sink.old) (monitor_step program.now (monitor_world_of self.old) thread).world.hits (S.hits sink.new) }
        ensures counts { S.counts sink.new ≡ S.counts sink.old }
        ensures threads { length self.new.machine.threads ≡ length self.old.machine.threads }
        ensures fits { FitsMonitored program.now self.new }
        ensures memory { KeepsMemory self.old self.new }
    {
        let Some(standing) = self.world.stands(thread) else {
            return;
        };
        let turn = self.next_turn(program, thread, standing);
        if let MonitorTurn::Idle = turn {
            return;
        }
        self.take_turn(program, thread, standing.depth, turn, sink);
        self.release(thread);
    }
}
