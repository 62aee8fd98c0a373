//! Laws of layouts.
//!
//! [`each_laid_body_has_a_twin`] is the promise of this crate; the others are steps, which the crates above cite too.
ghost use Rattle.std.specs.Prelude.{◌≡◌, ℕ, Bool, List};
ghost use Rattle.jc_methods.specs.Widened.{WideSet};
ghost use Rattle.jc_methods.specs.VerificationTypes.{Names};
ghost use Rattle.jc_methods.specs.WellMade.{IsWellMadeOfAnySize};
ghost use Rattle.jc_methods.specs.declared.body.Body.{Body};
ghost use Rattle.jc_methods.specs.declared.emitted.Emitted.{Emitted as Emission};
ghost use Rattle.jc_methods.specs.declared.insn.Insn.{Insn};
ghost use Rattle.jc_methods.specs.declared.kind.State.{State};
ghost use Rattle.jc_insn.specs.Sizes.{StartAt};
ghost use Rattle.jc_emit.specs.Emission.{Emitting, emission, HasFrameStates, IsArrayNumber};
ghost use Rattle.jc_layout.specs.LaidBody.{LaidBodiesAreSpelled, LaidBodiesAreTwins, readied};
ghost use Rattle.jc_layout.specs.Layable.{IsLayable};
ghost use Rattle.jc_layout.specs.Layout.{starts_of, AreJumps, IsChosen, OthersNear, chosen, chosen_list};

/// The body that stands in a layout of the instrumented code is a twin of the body, whichever jumps
/// are wide, where what the twin names has its places in the pool and what the body uses stays.
pub fn each_laid_body_has_a_twin()
    ensures { (b : Body) (first : ℕ) (states : List State) (given : Emitting) (names : Names) → IsWellMadeOfAnySize b
        → HasFrameStates b states → IsArrayNumber names given.array → LaidBodiesAreTwins names b first states given }
{}

/// Where some jumps are wide there is one list of offsets at which the instructions begin, whatever
/// padding switches need. One list of wide jumps is chosen: only jumps are in it, and each other jump
/// has room in two bytes.
pub fn each_layout_is_chosen()
    ensures starts { (wide : WideSet) (code : List Insn) → StartAt wide code (starts_of wide code) }
    ensures one { (wide : WideSet) (code : List Insn) (starts : List ℕ) → StartAt wide code starts → starts ≡ starts_of wide code }
    ensures chosen { (code : List Insn) → IsChosen code (chosen_list code) }
    ensures one_choice { (code : List Insn) (wide : List Bool) → IsChosen code wide → wide ≡ chosen_list code }
    ensures near { (code : List Insn) → OthersNear code (chosen code) }
    ensures jumps { (code : List Insn) → AreJumps code (chosen code) }
{}

/// The instrumented code of a well made body can be laid out, whatever the place of the constant that
/// it loads first is.
pub fn each_emission_can_be_laid()
    ensures { (b : Body) (first giver : ℕ) (states : List State) (given : Emitting) → IsWellMadeOfAnySize b
        → IsLayable (readied given.fetch giver (emission b first states given)).code }
{}

/// The bytes of a layout of instrumented code, with the place in the pool that comes last, spell the
/// code of that body.
pub fn each_laid_body_is_spelled()
    ensures { (b : Body) (first : ℕ) (states : List State) (given : Emitting) (e : Emission) → e ≡ emission b first states given
        → IsWellMadeOfAnySize b → LaidBodiesAreSpelled b e given.fetch }
{}
