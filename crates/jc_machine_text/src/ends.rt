//! The lines of threads.
ghost use Rattle.std.specs.Prelude.{◌≡◌, ◌++◌, ◌∷◌, [], Some, codes, decimal, string_bytes, IfOk, OnOk};
ghost use Rattle.jc_programs.specs.Throwables.{name_of};
ghost use Rattle.jc_machine_model.specs.CaseText.{value_text, dotted, end_text, thread_line, thread_lines};

use jc_bytes::Memory;
use jc_programs::{End, Thrown, Value};
use std::alloc::{AllocError, Global};

/// A number, `null`, or `ref` for any other reference.
fn value_text(alloc: Global, value: Value) -> Result<String, AllocError>
    ensures { IfOk result (λ text. string_bytes text ≡ value_text value) }
{
    match value {
        Value::Int(n) => format!(in alloc; "{n}"),
        Value::Long(n) => format!(in alloc; "{n}"),
        Value::Null => String::from_str(alloc, "null"),
        Value::Reference => String::from_str(alloc, "ref"),
    }
}

/// The name of a class of throwables, with dots.
fn dotted_name(class: Thrown) -> &'static str
    ensures { result.now ≡ dotted (name_of class) }
{
    match class {
        Thrown::Throwable => "java.lang.Throwable",
        Thrown::Exception => "java.lang.Exception",
        Thrown::Error => "java.lang.Error",
        Thrown::RuntimeException => "java.lang.RuntimeException",
        Thrown::ArithmeticException => "java.lang.ArithmeticException",
        Thrown::IllegalArgumentException => "java.lang.IllegalArgumentException",
        Thrown::IllegalStateException => "java.lang.IllegalStateException",
        Thrown::NullPointerException => "java.lang.NullPointerException",
        Thrown::NegativeArraySizeException => "java.lang.NegativeArraySizeException",
        Thrown::ArrayStoreException => "java.lang.ArrayStoreException",
        Thrown::IndexOutOfBoundsException => "java.lang.IndexOutOfBoundsException",
        Thrown::ArrayIndexOutOfBoundsException => "java.lang.ArrayIndexOutOfBoundsException",
        Thrown::VirtualMachineError => "java.lang.VirtualMachineError",
        Thrown::StackOverflowError => "java.lang.StackOverflowError",
        Thrown::OutOfMemoryError => "java.lang.OutOfMemoryError",
    }
}

/// `returned` and a value.
fn returned_text(alloc: Global, value: Value) -> Result<String, AllocError>
    ensures { IfOk result (λ text. string_bytes text ≡ end_text (End.Returned (Some value))) }
{
    let value = value_text(alloc, value)?;
    format!(in alloc; "returned {value}")
}

/// `threw` and the name of a class of throwables.
fn threw_text(alloc: Global, class: Thrown) -> Result<String, AllocError>
    ensures { IfOk result (λ text. string_bytes text ≡ end_text (End.Threw class)) }
{
    let name = dotted_name(class);
    format!(in alloc; "threw {name}")
}

/// How a thread stands.
fn end_text(alloc: Global, end: End) -> Result<String, AllocError>
    ensures { IfOk result (λ text. string_bytes text ≡ end_text end) }
{
    match end {
        End::Running => String::from_str(alloc, "running"),
        End::Stuck => String::from_str(alloc, "stuck"),
        End::Returned(None) => String::from_str(alloc, "returned"),
        End::Returned(Some(value)) => returned_text(alloc, value),
        End::Threw(class) => threw_text(alloc, class),
    }
}

/// `thread T`, and a space.
fn thread_start(alloc: Global, number: usize) -> Result<String, AllocError>
    ensures { IfOk result (λ text. string_bytes text ≡ codes "thread " ++ (decimal number ++ 32 ∷ [])) }
{
    format!(in alloc; "thread {number} ")
}

/// `thread T` and how it stands.
fn thread_line(alloc: Global, number: usize, end: &End) -> Result<Vec<u8>, AllocError>
    ensures { IfOk result (λ text. text.items ≡ thread_line number end.now) }
{
    let end = end_text(alloc, *end)?;
    let mut text = thread_start(alloc, number)?.into_bytes();
    text.extend_from_slice(end.as_bytes())?;
    text.extend_from_slice(b"\n")?;
    Ok(text)
}

/// Puts a line for each thread at the end.
pub fn put_threads(alloc: Global, text: &mut Vec<u8>, ends: &[End]) -> Result<(), Memory>
    ensures { OnOk result (text.new.items ≡ text.old.items ++ thread_lines 0 ends.now) }
{
    'putting: for number in 0..ends.len() {
        let line = thread_line(alloc, number, &ends[number])?;
        text.extend_from_slice(&line)?;
    }
    Ok(())
}
