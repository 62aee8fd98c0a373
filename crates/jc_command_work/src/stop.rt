//! Why a command ended early.
ghost use Rattle.std.specs.Prelude.{◌≡◌};
ghost use Rattle.jc_command_work.specs.Stopping.{exec_stop, class_stop};

use crate::Fault;
use jc_bytes::{Fail, Memory, Refusal};
use jc_exec::ExecRefusal;

/// Why a command ended early.
#[derive(Drop)]
pub enum Stop<'a> {
    /// Memory was refused.
    Memory,
    /// The file at the path couldn't be read, or the folder couldn't be listed.
    Read(&'a str),
    /// The file at the path couldn't be written.
    Write(&'a str),
    /// A text couldn't be written.
    Output,
    /// The file at the path is refused. The fault is one of this file alone: neither `SameName` nor `SameId`.
    Refused { file: &'a str, fault: Fault },
    /// Two files don't go together, `SameName` or `SameId`, as the line says that names both.
    Clash { fault: Fault, line: Vec<u8> },
}

impl<'a> From<Memory> for Stop<'a> {
    ghost use Rattle.std.specs.Prelude.{◌≡◌};
    ghost use Rattle.jc_command_work.specs.declared.stop.Stop.TheVariants as stops;

    ghost from_gives = { λ _ e. e ≡ stops.Memory };

    fn from(_: Memory) -> Self {
        Stop::Memory
    }
}

/// How execution data that isn't taken stops a command.
pub fn exec_stop<'a>(fail: Fail<ExecRefusal>, path: u32, input: &'a str) -> Stop<'a>
    ensures { result ≡ exec_stop fail path input.entry }
{
    match fail {
        Fail::Memory => Stop::Memory,
        Fail::Said(refusal) => {
            let fault = Fault::Exec { path, refusal };
            Stop::Refused { file: input, fault }
        }
    }
}

/// How a class file that is refused stops a command.
pub fn class_stop<'a>(fail: Fail<Refusal>, path: u32, file: &'a str) -> Stop<'a>
    ensures { result ≡ class_stop fail path file.entry }
{
    match fail {
        Fail::Memory => Stop::Memory,
        Fail::Said(refusal) => {
            let fault = Fault::Class { path, refusal };
            Stop::Refused { file, fault }
        }
    }
}
