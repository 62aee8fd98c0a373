//! The text of a case.
ghost use Rattle.std.specs.Prelude.{◌≡◌, string_bytes, IfOk};
ghost use Rattle.jc_machine_model.specs.CaseText.{case_line, case_text};

use crate::ends::put_threads;
use crate::statics::put_statics;
use jc_bytes::Memory;
use jc_programs::{CaseEnd, Program};
use std::alloc::{AllocError, Global};

/// `case K`.
fn case_line(alloc: Global, number: u32) -> Result<String, AllocError>
    ensures { IfOk result (λ text. string_bytes text ≡ case_line number) }
{
    format!(in alloc; "case {number}\n")
}

/// The text that is printed of the case with this number, which left this.
///
/// It is the line `case K`; the bytes that were printed; for each thread the line `thread T` with `returned`, `returned VALUE`,
/// `threw NAME` with dots in the name, `running` or `stuck`; and for each static field that is given the line
/// `static CLASS.FIELD VALUE`. A returned reference is `null` or `ref`.
pub fn case_text(
    alloc: Global,
    number: u32,
    end: &CaseEnd,
    program: &Program,
) -> Result<Vec<u8>, Memory>
    ensures { IfOk result (λ text. text.items ≡ case_text program.now number end.now) }
{
    let mut text = case_line(alloc, number)?.into_bytes();
    text.extend_from_slice(&end.output)?;
    put_threads(alloc, &mut text, &end.ends)?;
    put_statics(alloc, &mut text, program, &end.statics)?;
    Ok(text)
}
