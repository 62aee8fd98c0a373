//! The lines of static fields.
ghost use Rattle.std.specs.Prelude.{◌≡◌, ◌++◌, ◌∷◌, [], codes, string_bytes, IfOk, OnOk};
ghost use Rattle.std.specs.Fmt.{signed_decimal};
ghost use Rattle.std.specs.List.{flat_map};
ghost use Rattle.jc_machine_model.specs.CaseText.{static_line, field_line, static_text};

use jc_bytes::Memory;
use jc_programs::{Linked, Program, StaticEnd};
use std::alloc::{AllocError, Global};

/// A space, and what a field holds, at the end of a line.
fn value_end(alloc: Global, value: i64) -> Result<String, AllocError>
    ensures { IfOk result (λ text. string_bytes text ≡ 32 ∷ (signed_decimal value ++ 10 ∷ [])) }
{
    format!(in alloc; " {value}\n")
}

/// `static CLASS.FIELD VALUE`.
fn static_line(
    alloc: Global,
    class: &[u8],
    field: &[u8],
    end: &StaticEnd,
) -> Result<Vec<u8>, AllocError>
    ensures { IfOk result (λ text. text.items ≡ static_line class.now field.now end.now) }
{
    let value = value_end(alloc, end.value)?;
    let mut text = Vec::from_slice(alloc, b"static ")?;
    text.extend_from_slice(class)?;
    text.extend_from_slice(b".")?;
    text.extend_from_slice(field)?;
    text.extend_from_slice(value.as_bytes())?;
    Ok(text)
}

/// The line of a static field of a class, if the class has the field.
fn field_line(alloc: Global, class: &Linked, end: &StaticEnd) -> Result<Vec<u8>, AllocError>
    ensures { IfOk result (λ text. text.items ≡ field_line class.now end.now) }
{
    match class.statics.get(end.field as usize) {
        None => Ok(Vec::new(alloc)),
        Some(field) => static_line(alloc, &class.name, &field.name, end),
    }
}

/// The line of a static field, if its class has it.
fn static_text(alloc: Global, program: &Program, end: &StaticEnd) -> Result<Vec<u8>, AllocError>
    ensures { IfOk result (λ text. text.items ≡ static_text program.now end.now) }
{
    match program.classes.get(end.class as usize) {
        None => Ok(Vec::new(alloc)),
        Some(class) => field_line(alloc, class, end),
    }
}

/// Puts a line for each static field at the end.
pub fn put_statics(
    alloc: Global,
    text: &mut Vec<u8>,
    program: &Program,
    statics: &[StaticEnd],
) -> Result<(), Memory>
    ensures { OnOk result (text.new.items ≡ text.old.items ++ flat_map (static_text program.now) statics.now) }
{
    'putting: for end in statics {
        let line = static_text(alloc, program, end)?;
        text.extend_from_slice(&line)?;
    }
    Ok(())
}
