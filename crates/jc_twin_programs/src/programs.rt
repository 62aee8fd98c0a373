//! Laws of programs and their twins.
ghost use Rattle.std.specs.Prelude.{◌≡◌, ℕ, ◌+◌, ◌≤◌, Some, length, slice_get};
ghost use Rattle.std.specs.List.{sum_by};
ghost use Rattle.jc_methods.specs.VerificationTypes.{Names};
ghost use Rattle.jc_methods.specs.declared.body.Body.{Body};
ghost use Rattle.jc_programs.specs.declared.program.Linked.{Linked};
ghost use Rattle.jc_programs.specs.declared.program.Program.{Program};
ghost use Rattle.jc_plan.specs.Probed.{probe_count, first_id};
ghost use Rattle.jc_emit.specs.Marks.{Marks};
ghost use Rattle.jc_twin_programs.specs.SeenProgram.{IsSeenAt, IsSeenInTwin};
ghost use Rattle.jc_twin_programs.specs.TwinProgram.{AreOwned, IsChangedPair, IsPair, TwinProgram};

/// Each body of a program is seen beside one of its twin: beside the twin of the body, whose first id is told by the
/// bodies in front of it, or beside the same body. What is said of the instructions depends on the programs alone.
pub fn each_body_is_seen()
    ensures seen { (p p' : Program) → TwinProgram p p' → (place number : ℕ) (class : Linked) (b : Body)
        → slice_get p.classes place ≡ Some class → slice_get class.bodies number ≡ Some b
        → IsSeenInTwin p p' place number class b }
    ensures marks { (p p' : Program) → TwinProgram p p' → (place number : ℕ) (class new other other_new : Linked)
        (b b' d d' : Body) (m n : Marks) → IsSeenAt p p' place number class new b b' m
        → IsSeenAt p p' place number other other_new d d' n → m ≡ n }
    ensures ids { (p p' : Program) (place number : ℕ) (class new : Linked) (b b' : Body) (m : Marks)
        → IsSeenAt p p' place number class new b b' m
        → first_id class.bodies number + probe_count b ≤ sum_by probe_count class.bodies }
{}

/// A program and its twin have as many classes, and those at each place are a pair. A changed class has one body more, the
/// last one, which is the added method.
pub fn each_class_has_its_pair()
    ensures count { (p p' : Program) → TwinProgram p p' → length p'.classes ≡ length p.classes }
    ensures pair { (p p' : Program) → TwinProgram p p' → (place : ℕ) (class : Linked) → slice_get p.classes place ≡ Some class
        → (new : Linked) × (slice_get p'.classes place ≡ Some new) × IsPair p.names p'.names class new }
    ensures added { (names new_names : Names) (class new : Linked) → (pair : IsChangedPair names new_names class new)
        → (slice_get new.bodies (length class.bodies) ≡ Some pair.added) × (length new.bodies ≡ length class.bodies + 1) }
{}

/// The owner of each body of a twin program is its class where it is so in the program.
pub fn each_body_is_owned()
    ensures { (p p' : Program) → AreOwned p.classes → TwinProgram p p' → AreOwned p'.classes }
{}
