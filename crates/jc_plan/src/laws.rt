//! Laws of edges and probes.
//!
//! [`each_id_is_its_own`] is the promise of this crate; the others are steps, which the crates above cite too.
ghost use Rattle.std.specs.Prelude.{◌≡◌, ◌+◌, ◌<◌, ◌≤◌, ◌↔◌, IsTrue, Contains, ℕ, List, Some, length, slice_get};
ghost use Rattle.jc_bytes.specs.FirstSeen.{first_seen, IsDistinct};
ghost use Rattle.jc_methods.specs.declared.body.Body.{Body};
ghost use Rattle.jc_plan.specs.declared.branch.Branch.{Branch};
ghost use Rattle.jc_plan.specs.Edges.{branches};
ghost use Rattle.jc_plan.specs.Entries.{IsInvocationLine, is_invocation_line};
ghost use Rattle.jc_plan.specs.Probed.{probe_count, id_of, IsProbed, is_probed, position_of, is_before, IsUsed};
ghost use Rattle.jc_methods.specs.declared.insn.Insn.{Insn};
ghost use Rattle.jc_plan.specs.Plan.{plan_of, lead_probe, out_probes};

/// The ids of a body's probes are its own: they rise with the positions, no two probed edges have one id, and the ids
/// are exactly those from the first on, as many as there are probed edges.
pub fn each_id_is_its_own()
    ensures rising { (b : Body) (first : ℕ) (x y : Branch) → Contains (branches b.code) x → IsTrue (is_probed b x)
        → IsTrue (is_before (position_of x) (position_of y)) → id_of b first x < id_of b first y }
    ensures single { (b : Body) (first : ℕ) (x y : Branch) → Contains (branches b.code) x → Contains (branches b.code) y
        → IsTrue (is_probed b x) → IsTrue (is_probed b y) → id_of b first x ≡ id_of b first y → x ≡ y }
    ensures within { (b : Body) (first : ℕ) (x : Branch) → Contains (branches b.code) x → IsTrue (is_probed b x)
        → (first ≤ id_of b first x) × (id_of b first x < first + probe_count b) }
    ensures no_gap { (b : Body) (first id : ℕ) → first ≤ id → id < first + probe_count b → IsUsed b first id }
{}

/// The ids of a body end where those of the next one begin.
pub fn each_plan_is_one()
    ensures { (b : Body) (first : ℕ) → (plan_of b first).next ≡ first + probe_count b }
{}

/// No target is a branch twice.
pub fn each_target_is_once()
    ensures { (xs : List ℕ) → IsDistinct (first_seen xs) }
{}

/// The test for an invocation line gives true exactly at one.
pub fn each_line_is_tested()
    ensures { (b : Body) (i : ℕ) → IsTrue (is_invocation_line b i) ↔ IsInvocationLine b i }
{}

/// The test for a probed edge gives true exactly at one.
pub fn each_way_is_tested()
    ensures { (b : Body) (x : Branch) → IsTrue (is_probed b x) ↔ IsProbed b x }
{}

/// No two branches of a body have one position.
pub fn each_position_is_of_one_branch()
    ensures { (code : List Insn) (x y : Branch) → Contains (branches code) x → Contains (branches code) y
        → position_of x ≡ position_of y → x ≡ y }
{}

/// What a plan says of an instruction: the probe of the fall-through into it, and those of its branches.
pub fn each_plan_is_read()
    ensures lead { (b : Body) (first i : ℕ) → i < length b.code → slice_get (plan_of b first).lead i ≡ Some (lead_probe b first i) }
    ensures out { (b : Body) (first i : ℕ) (insn : Insn) → slice_get b.code i ≡ Some insn
        → slice_get (plan_of b first).out i ≡ Some (out_probes b first i insn) }
{}
