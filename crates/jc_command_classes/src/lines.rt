//! The lines of class files.
ghost use Rattle.std.specs.Prelude.{◌≡◌, string_bytes, IfOk};
ghost use Rattle.jc_command_classes.specs.Lines.{refused_line, instrumented_line, unchanged_line, accepted_line};

use jc_bytes::Refusal;
use jc_command_work::class_refusal_text;
use std::alloc::{AllocError, Global};

/// The line of a class file that is refused and is no failure.
pub fn refused_line(alloc: Global, file: &str, refusal: Refusal) -> Result<Vec<u8>, AllocError>
    ensures { IfOk result (λ line. line.items ≡ refused_line file.now refusal) }
{
    let text = class_refusal_text(alloc, file, refusal)?;
    let mut line = Vec::from_slice(alloc, b"refused ")?;
    line.extend_from_slice(text.as_bytes())?;
    Ok(line)
}

fn instrumented_line(alloc: Global, file: &str, probes: u32) -> Result<String, AllocError>
    ensures { IfOk result (λ line. string_bytes line ≡ instrumented_line file.now probes) }
{
    format!(in alloc; "instrumented {file} {probes}\n")
}

fn unchanged_line(alloc: Global, file: &str) -> Result<String, AllocError>
    ensures { IfOk result (λ line. string_bytes line ≡ unchanged_line file.now) }
{
    format!(in alloc; "unchanged {file}\n")
}

/// The line of a class file that has so many probes, or that stays as it is.
pub fn accepted_line(
    alloc: Global,
    file: &str,
    changed: bool,
    probes: u32,
) -> Result<Vec<u8>, AllocError>
    ensures { IfOk result (λ line. line.items ≡ accepted_line file.now changed probes) }
{
    let line = if changed {
        instrumented_line(alloc, file, probes)?
    } else {
        unchanged_line(alloc, file)?
    };
    Ok(line.into_bytes())
}
