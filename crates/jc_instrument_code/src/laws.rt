//! Laws of Code attributes.
//!
//! [`each_layout_can_be_written`] is the promise of this crate; the other is a step, which the crates above cite too.
ghost use Rattle.std.specs.Prelude.{◌≡◌, ◌≤◌, ℕ, List, length};
ghost use Rattle.jc_methods.specs.declared.emitted.Emitted.{Emitted as Emission};
ghost use Rattle.jc_pool.specs.Adding.{IsFirst};
ghost use Rattle.jc_pool.specs.Lookup.{class_name_of, utf8_of};
ghost use Rattle.jc_pool.specs.Pool.{PoolValue};
ghost use Rattle.jc_methods.specs.Widened.{listed};
ghost use Rattle.jc_insn.specs.Sizes.{StartAt};
ghost use Rattle.jc_layout.specs.Layout.{IsChosen, chosen_length, chosen_text, most_bytes};
ghost use Rattle.jc_layout.specs.declared.layouts.Laid.{Laid as LaidCode};
ghost use Rattle.jc_instrument_code.specs.FirstPlaces.{class_place, text_place};
ghost use Rattle.jc_instrument_code.specs.Given.{IsLaid};

/// A layout as it is answered is the one that is chosen for the code, so a Code attribute can be
/// written from it.
pub fn each_layout_can_be_written()
    ensures { (e : Emission) (l : LaidCode) → IsChosen e.code l.wide → StartAt (listed l.wide) e.code l.starts → l.code ≡ chosen_text e.code
        → length l.code ≡ chosen_length e.code → chosen_length e.code ≤ most_bytes → IsLaid e l }
{}

/// The first place at which a text or a class stands is the one that the search finds.
pub fn first_places()
    ensures text { (pool : PoolValue) (text : List ℕ) (place : ℕ) → IsFirst (utf8_of pool) text place → text_place pool text ≡ place }
    ensures class { (pool : PoolValue) (name : List ℕ) (place : ℕ) → IsFirst (class_name_of pool) name place → class_place pool name ≡ place }
{}
