//! The world of a case with its locks.
ghost use Rattle.std.specs.Prelude.{◌≡◌, [], length, All, IfOk};
ghost use Rattle.jc_programs.specs.declared.program.Program.{Program as ProgramSeen};
ghost use Rattle.jc_programs.specs.Turns.{IsCase};
ghost use Rattle.jc_programs.specs.Entries.{AreEntries};
ghost use Rattle.jc_machine_model.specs.Programs.{IsProgram};
ghost use Rattle.jc_machine_model.specs.CaseEnds.{case_end_in};
ghost use Rattle.jc_monitor_model.specs.MonitorRun.{monitor_begin};
ghost use Rattle.jc_monitor_world.specs.Kept.{FramesSeen};

use crate::frames::SynchronizedFrames;
use crate::locks::Locks;
use jc_bytes::Memory;
use jc_machine::World;
use jc_programs::{Case, CaseEnd, Entry, Program};
use std::alloc::Global;
use std::marker::Model;

/// How many threads a case has at most.
const MOST_THREADS: usize = 8;

/// The world of a case whose threads take locks and give them back. What its turns hit goes to a sink. All memory of a case is taken
/// when the world begins: that of a world without locks, and room for 4,096 locks and for 128 frames of synchronized methods of each
/// thread.
#[derive(Drop)]
pub struct MonitorWorld {
    pub(crate) world: World,
    pub(crate) locks: Locks,
    // For each thread, and behind them room for others.
    pub(crate) frames: Vec<SynchronizedFrames>,
}

impl Model for MonitorWorld {
    ghost use Rattle.std.specs.Coded.{codes};
    ghost use Rattle.jc_machine_memory.specs.Codes.{field_type_code};
    ghost use Rattle.jc_monitor_world.specs.Monitored.{Monitored};

    ghost Value = { Monitored };

    ghost coded = { Prim.hlevel (codes, field_type_code) };

    ghost use Rattle.jc_monitor_world.specs.Monitored.{monitored_of, IsMonitored};

    ghost view = { monitored_of };

    ghost invariant = { IsMonitored };
}

/// Room for the frames of synchronized methods of eight threads.
fn no_frames(alloc: Global) -> Result<Vec<SynchronizedFrames>, Memory>
    ensures count { IfOk result (λ frames. length frames.items ≡ 8) }
    ensures none { IfOk result (λ frames. All (λ (f : FramesSeen). f.frames ≡ []) frames.items) }
{
    let mut frames = Vec::with_capacity(alloc, MOST_THREADS)?;
    'making: for k in 0..MOST_THREADS {
        frames.push(SynchronizedFrames::new(alloc)?)?;
    }
    Ok(frames)
}

impl MonitorWorld {
    ghost use Rattle.jc_monitor_world.specs.Monitored.{monitor_world_of, FitsMonitored};

    /// The world in which a case begins, whose threads begin with these methods. No lock is held. No later call but `end` takes
    /// memory.
    ///
    /// # Errors
    ///
    /// `Memory` where memory was refused.
    pub fn begin(
        alloc: Global,
        program: &Program,
        case: &Case,
        entries: &[Entry],
    ) -> Result<MonitorWorld, Memory>
        requires program { IsProgram program.now }
        requires case { IsCase case.now }
        requires entries { AreEntries program.now case.now.threads entries.now }
        ensures world { IfOk result (λ world. monitor_world_of world ≡ monitor_begin program.now case.now.threads entries.now) }
        ensures threads { IfOk result (λ world. length world.machine.threads ≡ length case.now.threads) }
        ensures fits { IfOk result (λ world. FitsMonitored program.now world) }
    {
        Ok(MonitorWorld {
            world: World::begin(alloc, program, case, entries)?,
            locks: Locks::new(alloc)?,
            frames: no_frames(alloc)?,
        })
    }

    /// What the case leaves: the output, how the threads stand, what the static fields of integral types hold, in the order of
    /// classes and fields, and whether a turn raised a throwable.
    ///
    /// # Errors
    ///
    /// `Memory` where memory was refused.
    pub fn end(&self, alloc: Global) -> Result<CaseEnd, Memory>
        ensures { (program : ProgramSeen) → FitsMonitored program self.now
            → IfOk result (λ end. end ≡ case_end_in program (monitor_world_of self.now).world) }
    {
        self.world.end(alloc)
    }
}
