//! What becomes of a class file.
//!
//! [`each_class_file_becomes_one`] is the promise of this crate; the other is a step, which the crates above cite too.
ghost use Rattle.std.specs.Prelude.{◌≡◌, ◌≤◌, ◌⊎◌, ℕ, List, length, Some, true};
ghost use Rattle.jc_bytes.specs.ByteLists.{AreBytes};
ghost use Rattle.jc_bytes.specs.Reader.{most_read};
ghost use Rattle.jc_bytes.specs.declared.refusal.Refusal.{Refusal};
ghost use Rattle.jc_instrument.specs.InstrumentedFile.{IsInstrumentedFile};
ghost use Rattle.jc_instrument.specs.Refused.{Reason};
ghost use Rattle.jc_instrument.specs.declared.whole.Instrumented.{Instrumented};
ghost use Rattle.jc_instrument_laws.specs.TwinClass.{IsTwinFile};

/// Bytes, at most 67,108,864, become one instrumented class file, whatever the names with which the bodies of the class
/// are read, or there is a reason for which they don't, and never both.
pub fn each_class_file_becomes_one()
    ensures each { (bytes : List ℕ) → AreBytes bytes → length bytes ≤ most_read
        → ((a : Instrumented) × IsInstrumentedFile bytes a) ⊎ ((r : Refusal) × Reason bytes (Some r)) }
    ensures one { (bytes : List ℕ) (a b : Instrumented) → IsInstrumentedFile bytes a → IsInstrumentedFile bytes b → a ≡ b }
    ensures apart { (bytes : List ℕ) (a : Instrumented) (r : Refusal)
        → IsInstrumentedFile bytes a → Reason bytes (Some r) → ⊥ }
{}

/// Where bytes, at most 67,108,864, become a changed class file, it is the text of a twin of the class that the bytes are the
/// text of: each body, read whatever the number of its instructions times its slots is, is the twin of the body of the method
/// with its number, with its first id, and the added method's body is the one that gives the array of probes.
pub fn each_changed_file_is_a_twin_class()
    ensures { (bytes : List ℕ) (a : Instrumented) → AreBytes bytes → length bytes ≤ most_read
        → IsInstrumentedFile bytes a → a.changed ≡ true → IsTwinFile bytes a.bytes }
{}
