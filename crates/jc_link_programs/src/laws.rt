//! Laws of programs of class files.
ghost use Rattle.std.specs.Prelude.{◌≡◌, ℕ, List, Option};
ghost use Rattle.jc_bytes.specs.declared.refusal.Refusal.{Refusal};
ghost use Rattle.jc_programs.specs.declared.program.Program.{Program};
ghost use Rattle.jc_link_programs.specs.declared.link_refusal.LinkRefusal.{LinkRefusal};
ghost use Rattle.jc_link_programs.specs.Linking.{LinkReason, IsProgramOf, IsLinkRefusal};
ghost use Rattle.jc_link_programs.specs.SameProgram.{IsSameProgram};

/// Class files that have a program have no reason for which they have none, and one reason at most. Two programs of them
/// are equal but for how the frames of their bodies number classes.
pub fn files_have_a_program_or_one_refusal()
    ensures apart { (files : List (List ℕ)) (p : Program) (r : LinkRefusal) → IsProgramOf files p → IsLinkRefusal files r → ⊥ }
    ensures one_refusal { (files : List (List ℕ)) (r s : LinkRefusal) → IsLinkRefusal files r → IsLinkRefusal files s → r ≡ s }
    ensures same { (files : List (List ℕ)) (p q : Program) → IsProgramOf files p → IsProgramOf files q → IsSameProgram p q }
{}

/// A class file has one reason for which it isn't linked, or none, and never both.
pub fn each_file_has_one_link_reason()
    ensures { (bytes : List ℕ) (a b : Option Refusal) → LinkReason bytes a → LinkReason bytes b → a ≡ b }
{}
