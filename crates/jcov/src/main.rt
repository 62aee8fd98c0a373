//! The program `jcov`: the words behind its name call a command of the top call, over the files and
//! the two texts of the machine.
#![tactic(auto)]

ghost use Rattle.std.specs.Prelude.{◌≡◌};
ghost use Rattle.jcov.specs.ExitStatus.{exit_status};

use jc_outside::{HostFiles, HostSink};
use jc_top::{OpenGate, Status, run_tool};
use std::alloc::AllocError;
use std::io::ErrorKind;
use std::process::ExitCode;
use std::{env, rt};

/// The words behind the program's name. Words that are no text are none at all.
fn words(rt: &(impl rt::Env + AllocGlobal)) -> Result<Vec<String>, AllocError> {
    let mut words = Vec::new(rt.alloc());
    match env::args(rt) {
        Ok(args) => {
            for word in args.skip(1) {
                words.push(word)?;
            }
        }
        Err(error) if error.kind() == ErrorKind::OutOfMemory => return Err(AllocError),
        Err(_) => {}
    }
    Ok(words)
}

/// The exit status: 0 to 6, in the order of the variants.
fn exit_status(status: Status) -> u8
    ensures { result ≡ exit_status status }
{
    match status {
        Status::Done => 0,
        Status::Refused(_) => 1,
        Status::Usage => 2,
        Status::ReadFault => 3,
        Status::WriteFault => 4,
        Status::Memory => 5,
        Status::Broken => 6,
    }
}

fn main(rt: HostRuntime) -> ExitCode {
    let status = match words(&rt) {
        Ok(words) => run_tool(
            &rt,
            rt.alloc(),
            &words,
            &mut HostFiles::new(&rt),
            &mut HostSink::new(rt.stdout()),
            &mut HostSink::new(rt.stderr()),
            &OpenGate,
        ),
        Err(_) => Status::Memory,
    };
    ExitCode::from(exit_status(status))
}
