//! Laws of the text of class files.
//!
//! [`each_text_is_read_or_refused`] is the promise of this crate; the others are steps, which the crates above cite too.
ghost use Rattle.std.specs.Prelude.{◌≡◌, ◌⊎◌, ℕ, List, Contains};
ghost use Rattle.jc_bytes.specs.ByteLists.{AreBytes};
ghost use Rattle.jc_class.specs.ClassFormat.{IsConstant, NamesPlace};
ghost use Rattle.jc_class.specs.ClassText.{ClassText, FirstBad};
ghost use Rattle.jc_class.specs.declared.class_file.Attribute.{Attribute};
ghost use Rattle.jc_class.specs.declared.class_file.ClassFile.{ClassFile};
ghost use Rattle.jc_class.specs.declared.class_file.Member.{Member};

/// Bytes are the text of one class file, or they first fail at one offset, and never both.
pub fn each_text_is_read_or_refused()
    ensures each { (bytes : List ℕ) → ((c : ClassFile) × ClassText bytes c) ⊎ ((offset : ℕ) × FirstBad bytes offset) }
    ensures apart { (bytes : List ℕ) (c : ClassFile) (offset : ℕ) → ClassText bytes c → FirstBad bytes offset → ⊥ }
    ensures one_class { (bytes : List ℕ) (c other : ClassFile) → ClassText bytes c → ClassText bytes other → c ≡ other }
    ensures one_place { (bytes : List ℕ) (offset other : ℕ) → FirstBad bytes offset → FirstBad bytes other → offset ≡ other }
{}

/// A class file has one text, so what was read is written back byte for byte.
pub fn each_class_has_one_text()
    ensures { (text other : List ℕ) (c : ClassFile) → AreBytes text → AreBytes other → ClassText text c → ClassText other c → text ≡ other }
{}

/// The constant of a static field of a class file is a place below the count of its pool, where its bytes are two (JVM
/// Specification 4.7.2).
pub fn each_constant_has_a_place()
    ensures { (bytes : List ℕ) (c : ClassFile) (field : Member) (a : Attribute) → ClassText bytes c → Contains c.fields field
        → Contains field.attributes a → IsConstant c.pool field.flags a.name → NamesPlace c.pool a.body }
{}
