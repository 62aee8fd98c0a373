//! Laws of instrumented code.
//!
//! [`each_twin_is_seen`] is the promise of this crate; the others are steps, which the crates above cite too.
ghost use Rattle.std.specs.Prelude.{◌≡◌, ℕ, ◌+◌, ◌<◌, ◌≤◌, List, Option, Some, None, map, length, slice_get};
ghost use Rattle.jc_methods.specs.VerificationTypes.{Names};
ghost use Rattle.jc_methods.specs.Widened.{WideSet, widened};
ghost use Rattle.jc_methods.specs.WellMade.{IsCode, IsHandler, IsWellMadeOfAnySize};
ghost use Rattle.jc_methods.specs.declared.body.Body.{Body};
ghost use Rattle.jc_methods.specs.declared.body.Use.{Use};
ghost use Rattle.jc_methods.specs.declared.body.What.{What};
ghost use Rattle.jc_methods.specs.declared.probe_members.Fetch.{Fetch};
ghost use Rattle.jc_methods.specs.declared.body.Handler.{Handler};
ghost use Rattle.jc_methods.specs.declared.insn.Insn.{Insn};
ghost use Rattle.jc_methods.specs.declared.kind.State.{State};
ghost use Rattle.jc_plan.specs.declared.branch.Branch.{Branch};
ghost use Rattle.jc_plan.specs.Probed.{probe_of, probe_count};
ghost use Rattle.jc_emit.specs.Sizes.{TwinForm, narrow};
ghost use Rattle.jc_emit.specs.Emission.{Emitting, twin_row, emission, CanEmit, form_by};
ghost use Rattle.jc_emit.specs.Items.{Item, own_of, twin_items, image_of, land_of, lead_of, marks_of_items};
ghost use Rattle.jc_emit.specs.Local.{AllOk, OkRow, IsOfBranch, id_in, no_ids, unchanged_items};
ghost use Rattle.jc_emit.specs.Marks.{TwinPlaces, Marks, HasEachIdOnce, image_place, land_place, lead_place};
ghost use Rattle.jc_emit.specs.Ranks.{IsRanked};
ghost use Rattle.jc_emit.specs.Seen.{IsSeen, IsSeenUnchanged, unchanged_marks};
ghost use Rattle.jc_emit.specs.TwinBodies.{IsSameBody};
ghost use Rattle.jc_emit.specs.Told.{twin_code, NamesIds, HasEdges, HasWideFrames, HasTwin};
ghost use Rattle.jc_emit.specs.Twin.{Twin, AreTwinMarks, IsEmitted};
ghost use Rattle.jc_emit.specs.TwinCode.{IsTwinCode};

/// A twin is seen from each of its instructions: each goes on where it should, and the exception rows are kept. So is
/// a body of an unchanged class.
pub fn each_twin_is_seen()
    ensures twin { (names new_names : Names) (states : List State) (fetch : Fetch) (giver : What) (first : ℕ) (b b' : Body) → IsWellMadeOfAnySize b
        → (t : Twin names new_names states fetch giver first b b') → IsSeen fetch giver first b b' t.marks }
    ensures unchanged { (names new_names : Names) (b b' : Body) → IsWellMadeOfAnySize b
        → IsSameBody names new_names b b' → IsSeenUnchanged b b' (unchanged_marks b) }
{}

/// The places that the own instructions tell are those of the function.
pub fn each_image_stands()
    ensures images { (b : Body) (first : ℕ) (form : TwinForm) → IsCode b.code
        → image_place (map own_of (twin_items b first form)) ≡ image_of b first form }
    ensures lands { (b : Body) (first : ℕ) (form : TwinForm) → IsCode b.code
        → land_place b first (map own_of (twin_items b first form)) ≡ land_of b first form }
    ensures leads { (b : Body) (first : ℕ) (form : TwinForm) → IsCode b.code
        → lead_place b first (map own_of (twin_items b first form)) ≡ lead_of b first form }
{}

/// The code that the function gives is a twin's, in each form.
pub fn each_twin_is_told()
    ensures { (b : Body) (first : ℕ) (form : TwinForm) (named : TwinPlaces) → IsCode b.code
        → IsTwinCode b first form named (twin_code b first form named) (marks_of_items (twin_items b first form)) }
{}

/// A body has one twin's code in each form, and it is the one that the function gives.
pub fn each_twin_is_known()
    ensures code { (b : Body) (first : ℕ) (form : TwinForm) (named : TwinPlaces) (code : List Insn) (m : Marks) → IsCode b.code
        → IsTwinCode b first form named code m → code ≡ twin_code b first form named }
    ensures marks { (b : Body) (first : ℕ) (form : TwinForm) (named : TwinPlaces) (code : List Insn) (m : Marks) → IsCode b.code
        → IsTwinCode b first form named code m → m ≡ marks_of_items (twin_items b first form) }
{}

/// Each probe in a twin's code is that of a probed edge, and no id has two; so each probed edge has exactly one probe. Which
/// number an instruction pushes is told by the entries of the pool, among them the Integers of the ids.
pub fn each_probe_is_once()
    ensures edge { (b : Body) (first : ℕ) (form : TwinForm) (named : TwinPlaces) (code : List Insn) (m : Marks) (uses : List Use) → IsCode b.code
        → IsTwinCode b first form named code m → NamesIds b first uses named → HasEdges b first form named code m uses }
    ensures once { (b : Body) (first : ℕ) (form : TwinForm) (named : TwinPlaces) (code : List Insn) (m : Marks) (uses : List Use) → IsCode b.code
        → IsTwinCode b first form named code m → NamesIds b first uses named → HasEachIdOnce uses code m b.arg_slots }
{}

/// A twin goes on where it should, at each of its instructions, in each form.
pub fn each_twin_goes_on()
    ensures { (b : Body) (first : ℕ) (form : TwinForm) → IsCode b.code
        → AllOk b.code (Some b.arg_slots) (probe_of b first) (twin_items b first form) }
{}

/// A row of a twin holds the images of what the row of the body holds, and leads to where its handler goes on.
pub fn each_row_is_kept()
    ensures { (b : Body) (first : ℕ) (form : TwinForm) → IsCode b.code → (h : Handler) → IsHandler (length b.code) h
        → OkRow b.code (Some b.arg_slots) (probe_of b first) (twin_items b first form) h
        (twin_row b first form h) }
{}

/// An unchanged body goes on where it should, at each of its instructions, and so do its exception rows.
pub fn each_unchanged_body_goes_on()
    ensures items { (code : List Insn) → IsCode code → AllOk code None no_ids (unchanged_items code) }
    ensures rows { (code : List Insn) → IsCode code → (h : Handler) → IsHandler (length code) h
        → OkRow code None no_ids (unchanged_items code) h h }
{}

/// Twins of one body that are one body have the same marks, whatever jumps are wide in them. So what is said of the
/// instructions of a twin depends on the two bodies and the first id alone.
pub fn each_twin_has_its_marks()
    ensures { (fetch : Fetch) (first : ℕ) (b b' : Body) (m n : Marks) → IsWellMadeOfAnySize b → AreTwinMarks fetch first b b' m
        → AreTwinMarks fetch first b b' n → m ≡ n }
{}

/// The id of each probe is that of a branch of the body, the id of a probe behind its edge too; so it is among the ids of
/// the body.
pub fn each_probe_is_of_a_branch()
    ensures branch { (code : List Insn) (slot : Option ℕ) (ids : Branch → Option ℕ) (items : List Item) → AllOk code slot ids items
        → (q id : ℕ) (x : Item) → slice_get items q ≡ Some x → id_in x ≡ Some id → IsOfBranch code slot ids items id }
    ensures within { (fetch : Fetch) (giver : What) (first : ℕ) (b b' : Body) (m : Marks) → (s : IsSeen fetch giver first b b' m) → (q id : ℕ) (x : Item)
        → slice_get s.items q ≡ Some x → id_in x ≡ Some id → (first ≤ id) × (id < first + probe_count b) }
{}

/// What goes on where it should comes to an image soon.
pub fn each_image_comes_soon()
    ensures { (code : List Insn) (slot : Option ℕ) (ids : Branch → Option ℕ) (items : List Item) → AllOk code slot ids items
        → IsRanked code ids items }
{}

/// What the function gives is the instrumented code of the body.
pub fn each_emission_is_told()
    ensures { (b : Body) (first : ℕ) (states : List State) (given : Emitting) (names : Names) → CanEmit b states names given.array
        → IsEmitted names names states given.fetch given.integer first b (emission b first states given) }
{}

/// The code of a twin in which these jumps are wide is the wide form of its code without wide jumps.
pub fn each_wide_twin_is_wide()
    ensures { (b : Body) (first : ℕ) (fetch : Fetch) (wide : WideSet) (named : TwinPlaces) → IsCode b.code
        → widened wide (twin_code b first (narrow fetch) named) ≡ twin_code b first (form_by b first fetch wide) named }
{}

/// The frames of the narrow code and those behind wide jumps, in the wide code, are the frames of a twin in this form.
pub fn each_wide_frame_is_told()
    ensures { (b : Body) (first : ℕ) (states : List State) (given : Emitting) (wide : WideSet) (names : Names) → CanEmit b states names given.array
        → HasWideFrames names b first states given wide }
{}

/// Each well made body has a twin without wide jumps, where what it names has places of its own in the pool.
pub fn each_body_has_a_twin()
    ensures { (b : Body) (first : ℕ) (states : List State) (given : Emitting) (names : Names) → CanEmit b states names given.array
        → HasTwin names b first states given }
{}
