//! Laws of the spelling of code.
//!
//! [`each_code_is_spelled_or_refused`] is the promise of this crate; the others are steps, which the crates above cite too.
ghost use Rattle.std.specs.Prelude.{◌≡◌, ◌⊎◌, ◌++◌, ◌+◌, ℕ, List, length, slice_index};
ghost use Rattle.jc_insn.specs.declared.item.CodeItem.{CodeItem};
ghost use Rattle.jc_methods.specs.declared.insn.Insn.{Insn};
ghost use Rattle.jc_bytes.specs.declared.refusal.Refusal.{Refusal};
ghost use Rattle.jc_methods.specs.Widened.{WideSet, none_wide, wide_place};
ghost use Rattle.jc_insn.specs.Layouts.{wide_starts};
ghost use Rattle.jc_insn.specs.Items.{IsItem};
ghost use Rattle.jc_insn.specs.Spells.{Spells, IsRefused};

/// Bytes spell instructions or are refused, never both, and for one reason.
pub fn each_code_is_spelled_or_refused()
    ensures each { (bytes : List ℕ) → ((code : List Insn) × (starts : List ℕ) × Spells bytes code starts)
        ⊎ ((r : Refusal) × IsRefused bytes r) }
    ensures apart { (bytes : List ℕ) (code : List Insn) (starts : List ℕ) (r : Refusal) → Spells bytes code starts
        → IsRefused bytes r → ⊥ }
    ensures one_fault { (bytes : List ℕ) (r s : Refusal) → IsRefused bytes r → IsRefused bytes s → r ≡ s }
{}

/// No spelling of an item begins another, so what was written is read again, whatever follows it.
pub fn one_spelling()
    ensures { (at : ℕ) (a b x y : List ℕ) (i j : CodeItem) → IsItem at a i → IsItem at b j
        → a ++ x ≡ b ++ y → (a ≡ b) × (i ≡ j) }
{}

/// Bytes spell one list of instructions, which begin at one list of offsets.
pub fn one_code()
    ensures { (bytes : List ℕ) (code other : List Insn) (starts others : List ℕ) → Spells bytes code starts
        → Spells bytes other others → (code ≡ other) × (starts ≡ others) }
{}

/// What stands in the wide form for an instruction begins where the instruction does. Where no jump
/// is wide, the wide form begins where the code does.
pub fn each_image_begins_where_its_instruction_does()
    ensures each { (wide : WideSet) (code : List Insn) (starts : List ℕ) (place : ℕ) → length starts ≡ length code + 1
        → slice_index (wide_starts wide 0 code starts) (wide_place wide code place) ≡ slice_index starts place }
    ensures none { (code : List Insn) (starts : List ℕ) → wide_starts none_wide 0 code starts ≡ starts }
{}
