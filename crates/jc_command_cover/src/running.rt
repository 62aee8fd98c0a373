//! The accepted files as they are read back.
ghost use Rattle.std.specs.Prelude.{◌≤◌, ◌<◌, ◌^◌, List, length};
ghost use Rattle.jc_paths.specs.Paths.{FileText};
ghost use Rattle.jc_programs.specs.Turns.{IsRunPlan};
ghost use Rattle.jc_command_cover.specs.CoverSeen.{cover_seen};
ghost use Rattle.jc_command_cover.specs.Runs.{RunsAccepted};
ghost use Rattle.jc_command_work.specs.Handed.{OnOutside};

use crate::accepted::Accepted;
use crate::entries::check_entries;
use crate::linking::program_of;
use crate::options::CoverOptions;
use crate::results::write_results;
use jc_command_run::run_program;
use jc_command_work::{Outside, Resources, Stop, read_again};
use jc_outside::{Files, Sink};
use jc_programs::RunPlan;
use jc_workers::Gate;
use std::marker::Sync;
use std::thread::Threads;

/// Reads back the accepted files, runs their program, and writes what comes of it.
pub fn run_accepted<'a, R: Threads + Sync, F: Files, O: Sink, E: Sink, G: Gate + Sync>(
    resources: &Resources<'_, '_, R, G>,
    outside: &mut Outside<'_, '_, '_, F, O, E>,
    options: &CoverOptions<'a>,
    plan: &RunPlan,
    accepted: Accepted<'a>,
) -> Result<(), Stop<'a>>
    requires workers { (1 ≤ options.now.workers) × (options.now.workers ≤ 16) }
    requires plan { IsRunPlan plan.now }
    requires few { length accepted.files.inputs.paths < 2 ^ 32 }
    ensures { (named : List FileText) → OnOutside F.Files O.Sink E.Sink outside.old outside.new (RunsAccepted F.landed (cover_seen options.entry.now named) plan.now accepted.entry) result }
{
    let alloc = resources.alloc;
    let written = read_again(alloc, outside.files, &accepted.files)?;
    let program = program_of(alloc, &accepted.places, &written)?;
    check_entries(options.plan, &program, plan)?;
    let ran = run_program(resources, &program, plan, options.workers)?;
    let originals = accepted.files.inputs();
    write_results(resources.rt, alloc, outside, options, originals, ran)
}
