//! Laws of instrumented classes, and of the reasons for which a class file isn't instrumented.
ghost use Rattle.std.specs.Prelude.{◌≡◌, ℕ, List, Option, Some, None};
ghost use Rattle.std.specs.List.{AllByRecursion};
ghost use Rattle.jc_methods.specs.VerificationTypes.{Names};
ghost use Rattle.jc_bytes.specs.declared.refusal.Refusal.{Refusal};
ghost use Rattle.jc_pool.specs.Pool.{PoolValue};
ghost use Rattle.jc_class.specs.declared.class_file.ClassFile.{ClassFile as Class};
ghost use Rattle.jc_plan.specs.Analysed.{all_probes};
ghost use Rattle.jc_instrument.specs.Contents.{Content, TakesEach, IsOfClass};
ghost use Rattle.jc_instrument.specs.GrownPool.{IsGrown};
ghost use Rattle.jc_instrument.specs.Reasons.{AnalysisReason};
ghost use Rattle.jc_instrument.specs.Refused.{Reason, IsAccepted};
ghost use Rattle.jc_instrument.specs.SameOutside.{IsSameOutside};
ghost use Rattle.jc_instrument.specs.TwinText.{IsWritten, needs_of};
ghost use Rattle.jc_instrument.specs.BodiesWithStates.{BodyWithStates, bodies_of};

/// A class file that isn't analysed isn't instrumented, for the same reason; so one that is accepted is analysed. What
/// is accepted has no reason for which it isn't instrumented.
pub fn reasons_are_in_order()
    ensures refused { (bytes : List ℕ) (r : Refusal) → AnalysisReason bytes (Some r) → Reason bytes (Some r) }
    ensures analysed { (bytes : List ℕ) → IsAccepted bytes → AnalysisReason bytes None }
    ensures apart { (bytes : List ℕ) (r : Refusal) → IsAccepted bytes → Reason bytes (Some r) → ⊥ }
{}

/// A class file has one reason for which it isn't instrumented, or none, and never both.
pub fn each_class_has_one_reason()
    ensures one { (bytes : List ℕ) (a b : Option Refusal) → Reason bytes a → Reason bytes b → a ≡ b }
{}

/// A pool that takes contents keeps its entries at their places. New entries are only those that are needed, with their
/// parts, and that weren't there, each once. There is one such pool, and one list of places.
pub fn each_pool_grows()
    ensures grown { (needs : List Content) (old new : PoolValue) (places : List ℕ) → AllByRecursion IsOfClass needs
        → TakesEach old needs new places → IsGrown old new needs }
    ensures one { (needs : List Content) (old new other : PoolValue) (places more : List ℕ)
        → TakesEach old needs new places → TakesEach old needs other more → (new ≡ other) × (places ≡ more) }
{}

/// One twin class is written of a class with this id, whatever the names with which its bodies are read. Outside of code
/// it is the class, but for what its pool needs, the members that are added and, where it gets its array by a constant, one more
/// bootstrap method.
pub fn each_class_has_one_twin()
    ensures one { (id array other : ℕ) (names others : Names) (works more : List BodyWithStates) (c twin same : Class)
        → IsWritten id names array works c twin → IsWritten id others other more c same → twin ≡ same }
    ensures outside { (id array : ℕ) (names : Names) (works : List BodyWithStates) (c twin : Class)
        → (w : IsWritten id names array works c twin)
        → IsSameOutside id w.with.bootstrap (needs_of id names array c works w.with) (all_probes (bodies_of works)) c twin }
{}
