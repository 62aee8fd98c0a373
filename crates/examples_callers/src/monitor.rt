//! A caller of jc_monitor_world and jc_machine_text.
ghost use Rattle.std.specs.Prelude.{◌≡◌, IfOk};
ghost use Rattle.jc_programs.specs.Entries.{AreEntries};
ghost use Rattle.jc_programs.specs.Turns.{IsCase, turns_in};
ghost use Rattle.jc_machine_model.specs.CaseEnds.{case_end_in};
ghost use Rattle.jc_machine_model.specs.CaseText.{case_text};
ghost use Rattle.jc_machine_model.specs.Programs.{IsProgram};
ghost use Rattle.jc_monitor_model.specs.MonitorRun.{monitor_run};

use crate::machine::counts;
use jc_bytes::Memory;
use jc_machine::BitSink;
use jc_machine_text::case_text;
use jc_monitor_world::MonitorWorld;
use jc_programs::{Case, Entry, Program};
use std::alloc::Global;

/// The text of a case of a program whose threads take locks, as that of the first case of a run plan. Its threads begin with the
/// entries.
///
/// # Errors
///
/// `Memory` where memory was refused.
pub fn text_of_monitored_case(
    alloc: Global,
    program: &Program,
    case: &Case,
    entries: &[Entry],
) -> Result<Vec<u8>, Memory>
    requires program { IsProgram program.now }
    requires case { IsCase case.now }
    requires entries { AreEntries program.now case.now.threads entries.now }
    ensures { IfOk result (λ text. text.items
        ≡ case_text program.now 1 (case_end_in program.now (monitor_run program.now case.now (turns_in case.now)).world)) }
{
    let counts = counts(alloc, program)?;
    let mut sink = BitSink::new(alloc, &counts)?;
    let mut world = MonitorWorld::begin(alloc, program, case, entries)?;
    world.run(program, &case.schedule, &mut sink);
    let end = world.end(alloc)?;
    case_text(alloc, 1, &end, program)
}
