//! What `refs` writes of what it read.
ghost use Rattle.std.specs.Prelude.{◌≡◌, ◌<◌, ◌^◌, [], ◌∷◌, length, map, IfOk};
ghost use Rattle.jc_command_refs.specs.RefsAnswers.{RefsAnswer, RefsFiles, passed_text};
ghost use Rattle.jc_command_work.specs.Answered.{AnswersWith};
ghost use Rattle.jc_command_work.specs.Seen.{write_seen};
ghost use Rattle.jc_command_work.specs.Step.{to_out};
ghost use Rattle.jc_machine_model.specs.Programs.{IsProgram};

use jc_bytes::{Fail, Memory};
use jc_command_run::link_stop;
use jc_command_work::{Fault, InputFiles, Stop, Write};
use jc_link_programs::link_or_clash;
use jc_programs::Program;
use jc_refs_check::check_refs;
use std::alloc::Global;

/// The write of a program that passes the reference check.
fn passed<'a>(alloc: Global) -> Result<Vec<Write<'a>>, Memory>
    ensures { IfOk result (λ writes. map write_seen writes.items ≡ to_out passed_text ∷ []) }
{
    let text = Vec::from_slice(alloc, b"refs ok\n")?;
    let mut writes = Vec::with_capacity(alloc, 1)?;
    writes.push(Write::Out { text })?;
    Ok(writes)
}

/// The write of a program, which has a class for each file, or the file of the first class in which a reference doesn't suit
/// what takes it.
fn checked<'a>(
    alloc: Global,
    program: &Program,
    inputs: &InputFiles<'a>,
) -> Result<Vec<Write<'a>>, Stop<'a>>
    requires program { IsProgram program.now }
    requires each { length program.now.classes ≡ length inputs.now.texts }
    ensures { AnswersWith (RefsAnswer inputs.entry.now.paths program.entry.now) result }
{
    match check_refs(alloc, program) {
        Ok(()) => Ok(passed(alloc)?),
        Err(Fail::Memory) => Err(Stop::Memory),
        Err(Fail::Said(refusal)) => {
            let path = refusal.class;
            let file = inputs.path(path as usize);
            let fault = Fault::Refs { path, refusal };
            Err(Stop::Refused { file, fault })
        }
    }
}

/// The write of class files. What is refused first is files that are no program, and then a reference that doesn't suit what
/// takes it.
pub fn decided<'a>(alloc: Global, inputs: &InputFiles<'a>) -> Result<Vec<Write<'a>>, Stop<'a>>
    requires { length inputs.now.paths < 2 ^ 32 }
    ensures { AnswersWith (RefsFiles inputs.entry.now.paths inputs.entry.now.texts) result }
{
    match link_or_clash(alloc, inputs.texts()) {
        Ok(program) => checked(alloc, &program, inputs),
        Err(fail) => Err(link_stop(alloc, fail, inputs)),
    }
}
