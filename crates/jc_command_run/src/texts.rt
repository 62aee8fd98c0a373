//! The texts of cases.
ghost use Rattle.std.specs.Prelude.{◌≡◌, ◌≤◌, length, IfOk};
ghost use Rattle.jc_command_run.specs.Texts.{end_texts};

use jc_bytes::Memory;
use jc_machine_text::case_text;
use jc_programs::{CaseEnd, Program};
use std::alloc::Global;

/// What is printed of the cases of a run plan, each under its number from 1, by what each left.
///
/// # Errors
///
/// `Memory` where memory was refused.
pub fn texts_of(alloc: Global, program: &Program, ends: &[CaseEnd]) -> Result<Vec<u8>, Memory>
    requires { length ends.now ≤ 256 }
    ensures { IfOk result (λ text. text.items ≡ end_texts program.now 1 ends.now) }
{
    let mut text = Vec::new(alloc);
    'printing: for index in 0..ends.len() {
        let piece = case_text(alloc, index as u32 + 1, &ends[index], program)?;
        text.extend_from_slice(&piece)?;
    }
    Ok(text)
}
