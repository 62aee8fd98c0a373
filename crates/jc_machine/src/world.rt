//! The world of a case.
ghost use Rattle.std.specs.Prelude.{◌≡◌, ◌≤◌, length, IfOk};
ghost use Rattle.jc_programs.specs.Turns.{IsCase};
ghost use Rattle.jc_programs.specs.Entries.{AreEntries};
ghost use Rattle.jc_machine_model.specs.Programs.{IsProgram};
ghost use Rattle.jc_machine_code.specs.Prepared.{IsPrepared};
ghost use Rattle.jc_machine_model.specs.Begin.{begin, first_threads};

use crate::first_threads::begin_thread;
use crate::integral_fields::{IntegralField, integral_fields};
use crate::thread_stack::ThreadStack;
use jc_bytes::Memory;
use jc_machine_code::PreparedProgram;
use jc_machine_turn::Shared;
use jc_programs::{Case, End, Entry, Program, ThreadLine};
use std::alloc::Global;
use std::marker::Model;

/// How many threads a case has at most.
const MOST_THREADS: usize = 8;

/// The world of a case: its threads, and what they share (JVM Specification 2.5). What its turns hit goes to a sink. All
/// memory of a case is taken when the world begins.
#[derive(Drop)]
pub struct World {
    pub(crate) prepared: PreparedProgram,
    pub(crate) fields: Vec<IntegralField>,
    pub(crate) shared: Shared,
    pub(crate) stacks: Vec<ThreadStack>,
    pub(crate) ends: [End; 8],
    // How many threads there are.
    pub(crate) count: usize,
}

impl Model for World {
    ghost use Rattle.std.specs.Coded.{codes};
    ghost use Rattle.jc_machine_memory.specs.Codes.{field_type_code};
    ghost use Rattle.jc_machine.specs.Machines.{Machine};

    ghost Value = { Machine };

    ghost coded = { Prim.hlevel (codes, field_type_code) };

    ghost use Rattle.jc_machine.specs.Kept.{machine_of, IsMachine};

    ghost view = { machine_of };

    ghost invariant = { IsMachine };
}

/// The frames of eight threads.
fn stacks(alloc: Global) -> Result<Vec<ThreadStack>, Memory>
    ensures { IfOk result (λ stacks. length stacks.items ≡ 8) }
{
    let mut stacks = Vec::with_capacity(alloc, MOST_THREADS)?;
    'making: for k in 0..MOST_THREADS {
        stacks.push(ThreadStack::new(alloc)?)?;
    }
    Ok(stacks)
}

impl World {
    ghost use Rattle.jc_machine.specs.Machines.{world_of, Fits, KeepsMemory};

    /// The world in which a case begins, whose threads begin with these methods. No later call but `end` takes memory.
    ///
    /// # Errors
    ///
    /// `Memory` where memory was refused.
    pub fn begin(
        alloc: Global,
        program: &Program,
        case: &Case,
        entries: &[Entry],
    ) -> Result<World, Memory>
        requires program { IsProgram program.now }
        requires case { IsCase case.now }
        requires entries { AreEntries program.now case.now.threads entries.now }
        ensures world { IfOk result (λ world. world_of world ≡ begin program.now case.now.threads entries.now) }
        ensures threads { IfOk result (λ world. length world.threads ≡ length case.now.threads) }
        ensures fits { IfOk result (λ world. Fits program.now world) }
    {
        let prepared = PreparedProgram::of(alloc, program)?;
        let shared = Shared::new(alloc, prepared.classes.as_slice())?;
        let mut world = World {
            prepared,
            fields: integral_fields(alloc, program)?,
            shared,
            stacks: stacks(alloc)?,
            ends: [End::Stuck; 8],
            count: 1,
        };
        world.begin_threads(program, case.threads.as_slice(), entries);
        Ok(world)
    }

    // Begins the threads of a case.
    fn begin_threads(&mut self, program: &Program, threads: &[ThreadLine], entries: &[Entry])
        requires program { IsProgram program.now }
        requires prepared { IsPrepared program.now self.old.prepared }
        requires few { (1 ≤ length threads.now) × (length threads.now ≤ 8) }
        requires entries { AreEntries program.now threads.now entries.now }
        ensures { self.new ≡ record self.old { threads = first_threads program.now threads.now entries.now } }
    {
        'beginning: for k in 0..threads.len() {
            let numbers = threads[k].args.as_slice();
            self.ends[k] = begin_thread(&self.prepared, &mut self.stacks[k], entries[k], numbers);
        }
        self.count = threads.len();
    }

    /// The world in which another case of the program begins, in the memory of this one. Takes no memory.
    pub fn next(&mut self, program: &Program, case: &Case, entries: &[Entry])
        requires program { IsProgram program.now }
        requires case { IsCase case.now }
        requires entries { AreEntries program.now case.now.threads entries.now }
        requires fits { Fits program.now self.old }
        ensures world { world_of self.new ≡ begin program.now case.now.threads entries.now }
        ensures threads { length self.new.threads ≡ length case.now.threads }
        ensures fits { Fits program.now self.new }
        ensures memory { KeepsMemory self.old self.new }
    {
        self.shared.reset(self.prepared.classes.as_slice());
        self.begin_threads(program, case.threads.as_slice(), entries);
    }
}
