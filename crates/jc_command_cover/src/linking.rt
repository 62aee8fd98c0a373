//! The program of the files that were read back.
ghost use Rattle.std.specs.Prelude.{◌≡◌, ◌<◌, ◌^◌, List, ℕ, length, option_map, slice_index_or, IfOk};
ghost use Rattle.jc_link_programs.specs.Linking.{IsProgramOf};
ghost use Rattle.jc_machine_laws.specs.Frameless.{frameless};
ghost use Rattle.jc_command_run.specs.RunAnswers.{IsRunProgram};
ghost use Rattle.jc_headline.specs.CoverWork.{LookedFile, accepted, paths_in, places_from, IsLinkEnd};
ghost use Rattle.jc_command_cover.specs.Deciding.{Decides};
ghost use Rattle.jc_command_cover.specs.Placed.{placed, end_placed};
ghost use Rattle.jc_command_work.specs.Seen.{stop_seen};
ghost use Rattle.jc_machine_model.specs.Programs.{IsProgram};

use jc_command_run::link_stop;
use jc_command_work::{Fault, InputFiles, Stop};
use jc_link_programs::link_or_clash;
use jc_programs::Program;
use std::alloc::Global;

/// The place among all files of an accepted one, by its index among the accepted ones.
fn place_of(places: &[u32], index: u32) -> u32
    ensures { result ≡ slice_index_or places.now index 0 }
{
    match places.get(index as usize) {
        Some(place) => *place,
        None => 0,
    }
}

/// A fault that names files by their places among all.
fn placed(fault: Fault, places: &[u32]) -> Fault
    ensures { result ≡ placed places.now fault }
{
    match fault {
        Fault::Class { path, refusal } => {
            let path = place_of(places, path);
            Fault::Class { path, refusal }
        }
        Fault::SameName { first, second } => {
            let first = place_of(places, first);
            let second = place_of(places, second);
            Fault::SameName { first, second }
        }
        Fault::SameId { first, second } => {
            let first = place_of(places, first);
            let second = place_of(places, second);
            Fault::SameId { first, second }
        }
        Fault::Refs { path, refusal } => {
            let path = place_of(places, path);
            Fault::Refs { path, refusal }
        }
        Fault::Exec { path, refusal } => Fault::Exec { path, refusal },
        Fault::Plan { line } => Fault::Plan { line },
        Fault::NoEntry { line } => Fault::NoEntry { line },
    }
}

/// A stop that names accepted files by their indices among these, with their places among all.
fn among_all<'a>(stop: Stop<'a>, places: &[u32]) -> Stop<'a>
    ensures { stop_seen result ≡ option_map (end_placed places.now) (stop_seen stop.entry) }
{
    match stop {
        Stop::Refused { file, fault } => {
            let fault = placed(fault, places);
            Stop::Refused { file, fault }
        }
        Stop::Clash { fault, line } => {
            let fault = placed(fault, places);
            Stop::Clash { fault, line }
        }
        Stop::Memory => Stop::Memory,
        Stop::Read(path) => Stop::Read(path),
        Stop::Write(path) => Stop::Write(path),
        Stop::Output => Stop::Output,
    }
}

/// The program of the accepted files as they were read back, each under its own path, by their places among all files.
pub fn program_of<'a>(
    alloc: Global,
    places: &[u32],
    written: &InputFiles<'a>,
) -> Result<Program, Stop<'a>>
    requires { length written.now.paths < 2 ^ 32 }
    ensures linked { IfOk result (IsProgramOf written.entry.now.texts) }
    ensures program { IfOk result IsProgram }
    ensures decides { (looked : List LookedFile) → places.now ≡ places_from 0 looked → written.entry.now.paths ≡ paths_in (accepted looked)
        → Decides (IsRunProgram written.entry.now.texts) (IsLinkEnd looked written.entry.now.texts) frameless stop_seen result }
{
    match link_or_clash(alloc, written.texts()) {
        Ok(program) => Ok(program),
        Err(fail) => {
            let stop = link_stop(alloc, fail, written);
            Err(among_all(stop, places))
        }
    }
}
