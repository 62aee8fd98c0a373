//! The text of a Utf8 entry.
ghost use Rattle.std.specs.Prelude.{◌≡◌, ◌↔◌, IfOk, IsTrue};
ghost use Rattle.jc_bytes.specs.Descriptor.{IsFieldDescriptor, IsMethodDescriptor};
ghost use Rattle.jc_bytes.specs.Modified.{IsModified};
ghost use Rattle.jc_pool.specs.TextForms.{AreForms};

use jc_bytes::{Bytes, Memory, is_field_descriptor, is_method_descriptor, is_modified};
use std::alloc::Global;
use std::marker::Model;

/// Which forms a text has.
#[derive(Clone, Copy, Debug)]
pub struct TextForms {
    /// Modified UTF-8 (JVM Specification 4.4.7).
    modified: bool,
    /// The descriptor of a field (JVM Specification 4.3.2).
    field_descriptor: bool,
    /// The descriptor of a method (JVM Specification 4.3.3).
    method_descriptor: bool,
}

impl TextForms {
    /// The forms of the text.
    fn of(text: &[u8]) -> TextForms
        ensures { AreForms result text.now }
    {
        TextForms {
            modified: is_modified(text),
            field_descriptor: is_field_descriptor(text),
            method_descriptor: is_method_descriptor(text),
        }
    }
}

/// The bytes of a Utf8 entry, which contracts see as the list of them. Which forms they have is
/// decided once, when the entry is read, and not for each item that names it.
#[derive(Debug, Drop)]
pub struct JudgedText {
    bytes: Bytes,
    forms: TextForms,
}

impl Model for JudgedText {
    ghost use Rattle.std.specs.Prelude.{ℕ, List};

    ghost Value = { List ℕ };

    ghost view = { λ t. t.bytes };

    ghost use Rattle.jc_pool.specs.TextForms.{AreForms};

    ghost invariant = { λ t. AreForms t.forms t.bytes };
}

impl JudgedText {
    /// The text of these bytes.
    ///
    /// # Errors
    ///
    /// `Memory` where memory was refused.
    pub fn of(alloc: Global, bytes: &[u8]) -> Result<JudgedText, Memory>
        ensures { IfOk result (λ text. text ≡ bytes.now) }
    {
        Ok(JudgedText {
            forms: TextForms::of(bytes),
            bytes: Bytes::copy_of(alloc, bytes)?,
        })
    }

    /// The bytes.
    pub fn as_slice(&self) -> &[u8]
        ensures { result.now ≡ self.now }
    {
        self.bytes.as_slice()
    }

    /// Whether the text is modified UTF-8.
    pub fn is_modified(&self) -> bool
        ensures { IsTrue result ↔ IsModified self.now }
    {
        self.forms.modified
    }

    /// Whether the text is the descriptor of a field.
    pub fn is_field_descriptor(&self) -> bool
        ensures { IsTrue result ↔ IsFieldDescriptor self.now }
    {
        self.forms.field_descriptor
    }

    /// Whether the text is the descriptor of a method.
    pub fn is_method_descriptor(&self) -> bool
        ensures { IsTrue result ↔ IsMethodDescriptor self.now }
    {
        self.forms.method_descriptor
    }
}
