//! Laws of analyses, and of the reasons for which a class file isn't analysed.
//!
//! [`each_class_has_an_analysis_or_a_reason`] is the promise of this crate; the other is a step, which the crates above cite too.
ghost use Rattle.std.specs.Prelude.{◌≡◌, ◌≤◌, ◌⊎◌, ℕ, List, length, Option, Some};
ghost use Rattle.jc_bytes.specs.ByteLists.{AreBytes};
ghost use Rattle.jc_bytes.specs.Reader.{most_read};
ghost use Rattle.jc_methods.specs.declared.analysed.Analysed.{Analysed};
ghost use Rattle.jc_bytes.specs.declared.refusal.Refusal.{Refusal};
ghost use Rattle.jc_instrument.specs.Analysis.{IsAnalysis};
ghost use Rattle.jc_instrument.specs.Reasons.{AnalysisReason};
ghost use Rattle.jc_instrument.specs.SameAnalysis.{IsSameAnalysis};

/// Bytes, at most 67,108,864, have an analysis or a reason for which they have none, and never both. Two analyses of
/// them are equal but for how the frames of their bodies number classes.
pub fn each_class_has_an_analysis_or_a_reason()
    ensures each { (bytes : List ℕ) → AreBytes bytes → length bytes ≤ most_read
        → ((a : Analysed) × IsAnalysis bytes a) ⊎ ((r : Refusal) × AnalysisReason bytes (Some r)) }
    ensures apart { (bytes : List ℕ) (a : Analysed) (r : Refusal) → IsAnalysis bytes a → AnalysisReason bytes (Some r) → ⊥ }
    ensures same { (bytes : List ℕ) (a b : Analysed) → IsAnalysis bytes a → IsAnalysis bytes b → IsSameAnalysis a b }
{}

/// A class file has one reason for which it isn't analysed, or none, and never both.
pub fn each_class_has_one_analysis_reason()
    ensures one { (bytes : List ℕ) (a b : Option Refusal) → AnalysisReason bytes a → AnalysisReason bytes b → a ≡ b }
{}
