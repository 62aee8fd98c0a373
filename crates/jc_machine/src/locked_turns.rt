//! Turns that those give a thread who keep locks, in the place of its own (JVM Specification 2.11.10). None takes memory.
ghost use Rattle.std.specs.Prelude.{◌≡◌, ◌≢◌, ◌<◌, None, length};
ghost use Rattle.jc_machine_model.specs.Programs.{IsProgram};
ghost use Rattle.jc_machine_model.specs.Standings.{stands, no_value, top_in};
ghost use Rattle.jc_machine_model.specs.Locked.{turn_by, monitor_at, dropping, raising, callee, calling};
ghost use Rattle.jc_machine.specs.Machines.{world_of, Fits, KeepsMemory};

use crate::calling::call;
use crate::throwing::raise;
use crate::world::World;
use jc_programs::{Program, Thrown};

impl World {
    /// Takes the operand on top of a thread that stands at a monitor instruction, and goes on at the next instruction.
    pub fn drop_top(&mut self, program: &Program, thread: u32)
        requires program { IsProgram program.now }
        requires fits { Fits program.now self.old }
        requires thread { thread < length self.old.threads }
        requires monitor { monitor_at program.now (world_of self.old) thread ≢ None }
        requires operand { top_in (world_of self.old) thread ≢ no_value }
        ensures world { world_of self.new ≡ turn_by program.now dropping (world_of self.old) thread }
        ensures threads { length self.new.threads ≡ length self.old.threads }
        ensures fits { Fits program.now self.new }
        ensures memory { KeepsMemory self.old self.new }
    {
        self.stacks[thread as usize].drop_top();
    }

    /// Raises a throwable in a thread that runs, as an instruction would at which it stands.
    pub fn raise(&mut self, program: &Program, thread: u32, what: Thrown)
        requires program { IsProgram program.now }
        requires fits { Fits program.now self.old }
        requires thread { thread < length self.old.threads }
        requires runs { stands program.now (world_of self.old) thread ≢ None }
        ensures world { world_of self.new ≡ turn_by program.now (raising what) (world_of self.old) thread }
        ensures threads { length self.new.threads ≡ length self.old.threads }
        ensures fits { Fits program.now self.new }
        ensures memory { KeepsMemory self.old self.new }
    {
        let t = thread as usize;
        let frames = &mut self.stacks[t];
        let turn = raise(&self.prepared, &mut self.shared, frames, what);
        self.ends[t] = turn.end;
    }

    /// Makes the call of the method that a thread is about to call, as if the method weren't synchronized.
    pub fn call_locked(&mut self, program: &Program, thread: u32)
        requires program { IsProgram program.now }
        requires fits { Fits program.now self.old }
        requires thread { thread < length self.old.threads }
        requires callee { callee program.now (world_of self.old) thread ≢ None }
        ensures world { world_of self.new ≡ turn_by program.now (calling program.now) (world_of self.old) thread }
        ensures threads { length self.new.threads ≡ length self.old.threads }
        ensures fits { Fits program.now self.new }
        ensures memory { KeepsMemory self.old self.new }
    {
        let t = thread as usize;
        let frames = &mut self.stacks[t];
        match frames.locked_callee(&self.prepared) {
            Some(callee) => {
                let turn = call(&self.prepared, program, &mut self.shared, frames, callee);
                self.ends[t] = turn.end;
            }
            None => {}
        }
    }
}
