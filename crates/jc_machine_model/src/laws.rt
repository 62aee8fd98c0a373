//! Laws of worlds.
ghost use Rattle.jc_machine_model.specs.Laws.{BeginFits, EndedStays};
ghost use Rattle.jc_machine_model.specs.Locked.{StepIsTurnBy};

/// A turn of a thread that has ended or is stuck changes nothing.
pub fn a_thread_that_has_ended_stays()
    ensures { EndedStays }
{}

/// The world in which a case begins fits its program.
pub fn each_case_begins_in_a_world_that_fits()
    ensures { BeginFits }
{}

/// A turn of a thread is that in which it comes to what its instruction does.
pub fn a_turn_is_what_the_instruction_does()
    ensures { StepIsTurnBy }
{}
