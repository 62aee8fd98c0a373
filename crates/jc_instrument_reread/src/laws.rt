//! Laws of instrumented methods that were written.
//!
//! [`each_method_passes_again`] is the promise of this crate; the others are steps, which the crates above cite too.
ghost use Rattle.std.specs.Prelude.{ℕ, ℤ, List};
ghost use Rattle.jc_methods.specs.VerificationTypes.{Names};
ghost use Rattle.jc_methods.specs.declared.probe_members.Fetch.{Fetch};
ghost use Rattle.jc_class.specs.declared.class_file.ClassFile.{ClassFile};
ghost use Rattle.jc_class.specs.declared.class_file.Member.{Member};
ghost use Rattle.jc_emit.specs.Emission.{Emitting};
ghost use Rattle.jc_instrument_code.specs.declared.code.CodePlaces.{CodePlaces};
ghost use Rattle.jc_instrument_code.specs.declared.init.AddedPlaces.{AddedPlaces};
ghost use Rattle.jc_instrument_reread.specs.Again.{PassesAgain, IsReadAsInit, IsReadBack, IsWrittenAt, AreWrittenMethods, EachPassesAgain};
ghost use Rattle.jc_instrument_reread.specs.Written.{IsAddedMethod};

/// Where each method of a class has no code, or has its instrumented code, or is the added one, each
/// has no code or passes the kind check.
pub fn each_method_passes_again()
    ensures { (names : Names) (c twin : ClassFile) (bootstrap : ℕ) (places : CodePlaces) (given : Emitting)
        → AreWrittenMethods names c twin bootstrap places given → EachPassesAgain twin }
{}

/// A method whose instrumented code was written has no fault but that of its size. It is read as a
/// twin of the method's body [`twin`], and each body that is read of it passes the kind check
/// [`passes`].
pub fn each_written_method_is_read_back()
    ensures twin { (names : Names) (c twin : ClassFile) (bootstrap : ℕ) (places : CodePlaces) (given : Emitting) (number : ℕ) (new : Member)
        → IsReadBack names c twin bootstrap places given number new }
    ensures passes { (names : Names) (c twin : ClassFile) (bootstrap : ℕ) (places : CodePlaces) (given : Emitting) (number : ℕ) (new : Member)
        → IsWrittenAt names c twin bootstrap places given number new → PassesAgain twin number new }
{}

/// The added method that was written is read as the one that gives the probe array of its class
/// [`init`], and each body that is read of it passes the kind check [`passes`].
pub fn the_added_method_is_read_back()
    ensures init { (fetch : Fetch) (twin : ClassFile) (owner : List ℕ) (id : ℤ) (count : ℕ) (p : AddedPlaces) (method : Member) (number : ℕ)
        → IsAddedMethod fetch twin owner id count p method → IsReadAsInit fetch twin number method owner id count }
    ensures passes { (fetch : Fetch) (twin : ClassFile) (owner : List ℕ) (id : ℤ) (count : ℕ) (p : AddedPlaces) (method : Member) (number : ℕ)
        → IsAddedMethod fetch twin owner id count p method → PassesAgain twin number method }
{}
