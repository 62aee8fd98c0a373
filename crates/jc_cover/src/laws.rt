//! Laws of coverage and of counters.
//!
//! [`each_chain_follows_the_rule`] is the promise of this crate; the others are steps, which the crates above cite too.
ghost use Rattle.std.specs.Prelude.{◌≡◌, ◌↔◌, ℕ, All, ◌+◌, ◌-◌, ◌*◌, ◌≤◌, Bool, false, map, List, Option, IsTrue};
ghost use Rattle.std.specs.Prelude.{Contains, length, slice_index_or};
ghost use Rattle.std.specs.List.{sum_by, flat_map};
ghost use Rattle.jc_methods.specs.WellMade.{IsWellMade, insns_and_arms};
ghost use Rattle.jc_bytes.specs.FirstSeen.{first_seen};
ghost use Rattle.jc_methods.specs.declared.body.Body.{Body};
ghost use Rattle.jc_methods.specs.declared.body.LineAt.{LineAt};
ghost use Rattle.jc_plan.specs.declared.branch.Branch.{Branch};
ghost use Rattle.jc_plan.specs.Edges.{branches};
ghost use Rattle.jc_plan.specs.Leading.{LeadsTo};
ghost use Rattle.jc_plan.specs.Probed.{is_probed, id_of};
ghost use Rattle.jc_cover.specs.declared.coverage.Coverage.{Coverage};
ghost use Rattle.jc_cover.specs.Covered.{HasShape, is_hit, Covered, CoveredInsn, CoveredByRule, TellsCovered};
ghost use Rattle.jc_cover.specs.Followed.{AreEntered, AreFollowed, AreHitReached, AreTakenHit, IsAmong};
ghost use Rattle.jc_cover.specs.Marking.{marks_of, covers, coverage_of};
ghost use Rattle.jc_cover.specs.Counters.{AreAtMost, counters_of, Method, whole, all_insns, counters_of_methods, branching};
ghost use Rattle.jc_cover.specs.Counters.{TellsInsns, lined_insns, line_of, IsLineOf};

/// What chains of edges cover is what the rule says. Of the edges of a body with this first id: one with a probe is
/// covered exactly where its probe is hit, and one without a probe exactly where the instruction is to which it leads.
pub fn each_chain_follows_the_rule()
    ensures rule { (b : Body) (first : ℕ) (hits : List Bool) (x : Branch)
        → Covered b first hits x ↔ CoveredByRule b first hits x }
    ensures probed { (b : Body) (first : ℕ) (hits : List Bool) (x : Branch) → Contains (branches b.code) x
        → IsTrue (is_probed b x) → Covered b first hits x ↔ IsTrue (is_hit hits (id_of b first x)) }
    ensures unprobed { (b : Body) (first : ℕ) (hits : List Bool) (x : Branch) (i : ℕ) → Contains (branches b.code) x
        → is_probed b x ≡ false → LeadsTo x i → Covered b first hits x ↔ CoveredInsn b first hits i }
{}

/// Marking backward marks exactly the covered instructions, and by the marks exactly the covered branches are told.
pub fn each_mark_is_a_covered_instruction()
    ensures insns { (b : Body) (first : ℕ) (hits : List Bool) (i : ℕ)
        → IsTrue (slice_index_or (marks_of b first hits) i false) ↔ CoveredInsn b first hits i }
    ensures size { (b : Body) (first : ℕ) (hits : List Bool) → length (marks_of b first hits) ≡ length b.code }
    ensures edges { (b : Body) (first : ℕ) (hits : List Bool) (x : Branch) → Contains (branches b.code) x
        → IsTrue (covers b first hits (marks_of b first hits) x) ↔ Covered b first hits x }
{}

/// The coverage by marks has the class's shape and tells which edges are covered.
pub fn each_coverage_tells_what_is_covered()
    ensures { (bodies : List Body) (hits : List Bool) → TellsCovered bodies hits (coverage_of bodies hits) }
{}

/// A class and hits have one coverage, and an instruction is covered exactly where one of its values is true.
pub fn each_class_has_one_coverage()
    ensures one { (bodies : List Body) (hits : List Bool) (c d : Coverage) → TellsCovered bodies hits c
        → TellsCovered bodies hits d → c ≡ d }
    ensures insns { (bodies : List Body) (hits : List Bool) (c : Coverage) → TellsCovered bodies hits c
        → TellsInsns bodies hits c }
{}

/// The line that is found for an instruction is its line, and it has no other.
pub fn each_line_is_found()
    ensures found { (lines : List LineAt) (i : ℕ) → IsLineOf lines i (line_of lines i) }
    ensures one { (lines : List LineAt) (i : ℕ) (a b : Option ℕ) → IsLineOf lines i a → IsLineOf lines i b → a ≡ b }
{}

/// Of each counter, missed and covered make up the whole: the instructions, methods and lines that count; the branches
/// of each instruction with two or more; and for complexity one for each method, and for each such instruction one less
/// than its branches.
pub fn each_counter_has_its_whole()
    ensures instruction { (methods : List Method) → whole (counters_of_methods methods).instruction ≡ length (all_insns methods) }
    ensures branch { (methods : List Method) → whole (counters_of_methods methods).branch
        ≡ sum_by length (branching (all_insns methods)) }
    ensures line { (methods : List Method)
        → whole (counters_of_methods methods).line ≡ length (first_seen (map (λ l. l.number) (flat_map lined_insns methods))) }
    ensures complexity { (methods : List Method) → whole (counters_of_methods methods).complexity
        ≡ length methods + sum_by (λ values. length values - 1) (branching (all_insns methods)) }
    ensures method { (methods : List Method) → whole (counters_of_methods methods).method ≡ length methods }
{}

/// The counters of a class with so many instructions and arms of switches are at most four times as many.
pub fn each_counter_is_small()
    ensures { (bodies : List Body) (coverage : Coverage) (most : ℕ) → All IsWellMade bodies → HasShape bodies coverage
        → sum_by (λ b. insns_and_arms b.code) bodies ≤ most → AreAtMost (4 * most) (counters_of bodies coverage) }
{}

/// Covered edges and taken edges of a body. Where something came to the instruction of each reached edge, and each edge
/// whose probe is hit is reached, each covered edge is reached [`reached`]. Where behind each taken edge without a probe
/// another one was taken, and the probes of the taken edges are hit, each taken edge is covered [`covered`]; `took left` are
/// the edges that were taken when so much was left.
pub fn each_covered_edge_is_entered()
    ensures reached { (b : Body) (first : ℕ) (hits : List Bool) (took reached : List Branch)
        → AreEntered b (Contains took) (Contains reached) → AreHitReached b first hits (Contains reached)
        → (x : Branch) → Covered b first hits x → Contains reached x }
    ensures covered { (b : Body) (first : ℕ) (hits : List Bool) (took : ℕ → List Branch)
        → AreFollowed b (IsAmong took) → AreTakenHit b first hits (IsAmong took)
        → (x : Branch) (left : ℕ) → IsAmong took x left → Covered b first hits x }
{}
