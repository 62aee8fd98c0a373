//! Laws of the probes of a class, and of edges without probes.
//!
//! [`each_id_is_of_one_edge`] is the promise of this module; the others are steps, which the crates above cite too.
ghost use Rattle.std.specs.Prelude.{◌≡◌, true, false, ◌<◌, IsTrue, Contains, ℕ, List, Some, slice_get};
ghost use Rattle.jc_methods.specs.WellMade.{IsCode};
ghost use Rattle.jc_methods.specs.declared.analysed.Analysed.{Analysed};
ghost use Rattle.jc_methods.specs.declared.body.Body.{Body};
ghost use Rattle.jc_methods.specs.declared.insn.Insn.{Insn};
ghost use Rattle.jc_plan.specs.declared.branch.Branch.{Branch};
ghost use Rattle.jc_plan.specs.Edges.{place_of, branches, branches_of};
ghost use Rattle.jc_plan.specs.Chosen.{Outcome, condition, chosen, onward};
ghost use Rattle.jc_plan.specs.ClassEdges.{ClassEdge, HasId};
ghost use Rattle.jc_plan.specs.Probed.{probe_of, first_id, id_of, is_probed, IsUsed};
ghost use Rattle.jc_plan.specs.Leading.{LeadsTo, IsOneWay};
ghost use Rattle.jc_plan.specs.Analysed.{IsAnalysed};
ghost use Rattle.jc_plan.specs.Plan.{plan_of};
ghost use Rattle.jc_plan.specs.ByBranch.{planned};

/// No two edges of a class have a probe of one id.
pub fn each_id_is_of_one_edge()
    ensures { (bodies : List Body) (e f : ClassEdge) (id : ℕ) → HasId bodies e id → HasId bodies f id → e ≡ f }
{}

/// No two bodies of a class have a probe of one id. `m` and `n` are the numbers of the bodies.
pub fn each_id_is_of_one_body()
    ensures { (bodies : List Body) (m n id : ℕ) (b c : Body) → slice_get bodies m ≡ Some b → slice_get bodies n ≡ Some c
        → IsUsed b (first_id bodies m) id → IsUsed c (first_id bodies n) id → m ≡ n }
{}

/// How a turn at an instruction comes out chooses one of its branches [`listed`], which leads where control goes on
/// [`leads`] (JVM Specification 6.5). A condition that holds chooses another branch than one that doesn't, also where both
/// lead to the next instruction [`apart`].
pub fn each_outcome_chooses_a_branch()
    ensures listed { (b : Body) (i : ℕ) (insn : Insn) (outcome : Outcome) (x : Branch) → slice_get b.code i ≡ Some insn
        → chosen i insn outcome ≡ Some x → Contains (branches b.code) x }
    ensures leads { (i : ℕ) (insn : Insn) (outcome : Outcome) (x : Branch) → chosen i insn outcome ≡ Some x
        → (x.at ≡ i) × (place_of x.way ≡ onward i insn outcome) }
    ensures apart { (i : ℕ) (insn : Insn) (x y : Branch) → chosen i insn (condition true) ≡ Some x
        → chosen i insn (condition false) ≡ Some y → x ≡ y → ⊥ }
{}

/// An edge without a probe is the one way to the instruction where it leads.
pub fn each_edge_without_a_probe_is_the_one_way()
    ensures { (b : Body) (x : Branch) (i : ℕ) → Contains (branches b.code) x → is_probed b x ≡ false → LeadsTo x i → IsOneWay b x i }
{}

/// What a plan says of a branch of the body is its probe; `k` is the index of the branch among those of its
/// instruction.
pub fn each_branch_is_planned()
    ensures { (b : Body) (first i k : ℕ) (insn : Insn) (x : Branch) → IsCode b.code → slice_get b.code i ≡ Some insn
        → slice_get (branches_of i insn) k ≡ Some x → planned (plan_of b first) x k ≡ probe_of b first x }
{}

/// In an analysed class the plan of each body is the one whose ids begin where those of the bodies in front of it end,
/// and each id is below the number of its probes.
pub fn each_analysed_class_is_planned()
    ensures plan { (class : Analysed) (n : ℕ) (b : Body) → IsAnalysed class → slice_get class.bodies n ≡ Some b
        → slice_get class.plans n ≡ Some (plan_of b (first_id class.bodies n)) }
    ensures within { (class : Analysed) (n : ℕ) (b : Body) (x : Branch) → IsAnalysed class → slice_get class.bodies n ≡ Some b
        → Contains (branches b.code) x → IsTrue (is_probed b x) → id_of b (first_id class.bodies n) x < class.probes }
{}
