//! Laws of the kind check.
//!
//! [`each_body_passes_or_is_refused`] is the promise of this crate; the others are steps, which the crates above cite too.
ghost use Rattle.std.specs.Prelude.{◌≡◌, ◌⊎◌, ◌↔◌, ◌≤◌, ◌++◌, ℕ, length, IsTrue};
ghost use Rattle.jc_methods.specs.declared.body.Body.{Body};
ghost use Rattle.jc_methods.specs.VerificationTypes.{Names, VerificationType, AreNumberedFrames};
ghost use Rattle.jc_kinds.specs.Checked.{Checked, FirstMissing, FirstClash};
ghost use Rattle.jc_kinds.specs.Checking.{verdict_of, passes, frame_missing, frame_clash};
ghost use Rattle.jc_kinds.specs.States.{state_of};
ghost use Rattle.jc_kinds.specs.Fits.{Fits, fits};
ghost use Rattle.jc_kinds.specs.StateShift.{StatesStayWhole, StatesShift, FitsShift, EntryShifts};

/// A body passes the kind check, or lacks a frame, or has states that don't fit; only one of these, at
/// one place.
pub fn each_body_passes_or_is_refused()
    ensures each { (names : Names) (b : Body) → 1 ≤ length b.code
        → Checked names b ⊎ (((i : ℕ) × FirstMissing b i) ⊎ ((i : ℕ) × FirstClash names b i)) }
    ensures not_missing { (names : Names) (b : Body) (i : ℕ) → Checked names b → FirstMissing b i → ⊥ }
    ensures not_clash { (names : Names) (b : Body) (i : ℕ) → Checked names b → FirstClash names b i → ⊥ }
    ensures apart { (names : Names) (b : Body) (i j : ℕ) → FirstMissing b i → FirstClash names b j → ⊥ }
    ensures one_missing { (b : Body) (i j : ℕ) → FirstMissing b i → FirstMissing b j → i ≡ j }
    ensures one_clash { (names : Names) (b : Body) (i j : ℕ) → FirstClash names b i → FirstClash names b j → i ≡ j }
{}

/// The tests find out which of them it is.
pub fn the_tests_decide()
    ensures passes { (names : Names) (b : Body) → 1 ≤ length b.code → verdict_of names b ≡ passes → Checked names b }
    ensures missing { (names : Names) (b : Body) (i : ℕ) → verdict_of names b ≡ frame_missing i → FirstMissing b i }
    ensures clash { (names : Names) (b : Body) (i : ℕ) → verdict_of names b ≡ frame_clash i → FirstClash names b i }
{}

/// More names change no state, and the test of fitting decides it.
pub fn more_names_change_no_state()
    ensures stay { (names more : Names) (b : Body) → AreNumberedFrames (length names) b.frames → (i : ℕ)
        → state_of (names ++ more) b i ≡ state_of names b i }
    ensures fits { (a b : VerificationType) → IsTrue (fits a b) ↔ Fits a b }
{}

/// Where no long or double stands round the local variable behind the arguments, each state of a body shifts with
/// it, and so does what fits, and the state in which the method begins.
pub fn states_shift()
    ensures whole { StatesStayWhole }
    ensures states { StatesShift }
    ensures fits { FitsShift }
    ensures entry { EntryShifts }
{}
