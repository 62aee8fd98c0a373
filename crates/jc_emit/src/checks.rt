//! Laws of instrumented code and the kind check.
ghost use Rattle.std.specs.Prelude.{ℕ, ℤ, List};
ghost use Rattle.jc_methods.specs.VerificationTypes.{Names};
ghost use Rattle.jc_methods.specs.declared.body.Body.{Body};
ghost use Rattle.jc_kinds.specs.Checked.{Checked};
ghost use Rattle.jc_methods.specs.declared.probe_members.Fetch.{Fetch};
ghost use Rattle.jc_emit.specs.Added.{giver_of, IsAddedBody};
ghost use Rattle.jc_emit.specs.Told.{CanHaveTwin};
ghost use Rattle.jc_emit.specs.TwinBodies.{HasTwinBody};

/// The twin of a body that passes the kind check passes it too, where its class's method or constant gives it the array.
pub fn each_twin_is_verified()
    ensures { (names names' : Names) (fetch : Fetch) (class : List ℕ) (bootstrap first : ℕ) (b b' : Body) → CanHaveTwin names b
        → HasTwinBody names names' fetch (giver_of fetch class bootstrap) first b b' → Checked names' b' }
{}

/// The method that is added to a class passes the kind check.
pub fn each_init_is_verified()
    ensures { (fetch : Fetch) (names : Names) (class : List ℕ) (id : ℤ) (count : ℕ) (b : Body) → IsAddedBody fetch names class id count b
        → Checked names b }
{}
