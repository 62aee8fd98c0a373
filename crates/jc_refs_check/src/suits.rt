//! Whether references may stand where other types are expected (JVM Specification 4.10.1.2), with classes compared.
ghost use Rattle.std.specs.Prelude.{◌≡◌, length};
ghost use Rattle.std.specs.List.{AllByRecursion};
ghost use Rattle.jc_methods.specs.VerificationTypes.{Names, IsNumbered, IsNumberedState};
ghost use Rattle.jc_refs_check.specs.Classes.{AreKnown};
ghost use Rattle.jc_refs_check.specs.KindSuits.{kind_suits, kinds_suit, state_suits};

use crate::classes::Classes;
use jc_methods::{Kind, State};

/// Whether an object of a class may stand where the type is expected.
fn object_suits(classes: &Classes, class: u32, want: Kind) -> bool
    requires known { AreKnown classes.now }
    requires class { IsNumbered (length classes.now.names) (Kind.Object class) }
    requires want { IsNumbered (length classes.now.names) want }
    ensures { result ≡ kind_suits classes.now.names (Kind.Object class) want }
{
    match want {
        Kind::Top => true,
        Kind::Object(other) => classes.suits(class, other),
        Kind::Int | Kind::Float | Kind::Double | Kind::Long => false,
        Kind::Null | Kind::UninitThis | Kind::Uninit(_) => false,
    }
}

/// Whether an object that the `new` with this number made may stand where the type is expected, before its constructor was called.
fn made_suits(classes: &Classes, at: u32, want: Kind) -> bool
    requires { AreKnown classes.now }
    ensures { result ≡ kind_suits classes.now.names (Kind.Uninit at) want }
{
    match want {
        Kind::Top => true,
        Kind::Uninit(other) => at == other,
        Kind::Object(other) => classes.is_object(other),
        Kind::Int | Kind::Float | Kind::Double | Kind::Long => false,
        Kind::Null | Kind::UninitThis => false,
    }
}

/// Whether `this` may stand where the type is expected, before the constructor of the superclass was called.
fn this_suits(classes: &Classes, want: Kind) -> bool
    requires { AreKnown classes.now }
    ensures { result ≡ kind_suits classes.now.names Kind.UninitThis want }
{
    match want {
        Kind::Top | Kind::UninitThis => true,
        Kind::Object(other) => classes.is_object(other),
        Kind::Int | Kind::Float | Kind::Double | Kind::Long => false,
        Kind::Null | Kind::Uninit(_) => false,
    }
}

/// Whether null may stand where the type is expected.
fn null_suits(want: Kind) -> bool
    ensures { (names : Names) → result ≡ kind_suits names Kind.Null want }
{
    match want {
        Kind::Top | Kind::Null | Kind::Object(_) => true,
        Kind::Int | Kind::Float | Kind::Double | Kind::Long => false,
        Kind::UninitThis | Kind::Uninit(_) => false,
    }
}

/// Whether the type, if it is one of references, may stand where the other type is expected.
pub fn suits(classes: &Classes, kind: Kind, want: Kind) -> bool
    requires known { AreKnown classes.now }
    requires kind { IsNumbered (length classes.now.names) kind }
    requires want { IsNumbered (length classes.now.names) want }
    ensures { result ≡ kind_suits classes.now.names kind want }
{
    match kind {
        Kind::Null => null_suits(want),
        Kind::Object(class) => object_suits(classes, class, want),
        Kind::UninitThis => this_suits(classes, want),
        Kind::Uninit(at) => made_suits(classes, at, want),
        Kind::Top | Kind::Int | Kind::Float | Kind::Double | Kind::Long => true,
    }
}

/// Whether there are as many types as are expected, and each suits.
fn suit_each(classes: &Classes, kinds: &[Kind], wants: &[Kind]) -> bool
    requires known { AreKnown classes.now }
    requires kinds { AllByRecursion (IsNumbered (length classes.now.names)) kinds.now }
    requires wants { AllByRecursion (IsNumbered (length classes.now.names)) wants.now }
    ensures { result ≡ kinds_suit classes.now.names kinds.now wants.now }
{
    if kinds.len() != wants.len() {
        return false;
    }
    'suiting: for (i, kind) in kinds.iter().enumerate() {
        if !suits(classes, *kind, wants[i]) {
            return false;
        }
    }
    true
}

/// Whether the references of the local variables and of the stack suit those of another state.
pub fn suits_state(classes: &Classes, state: &State, want: &State) -> bool
    requires known { AreKnown classes.now }
    requires state { IsNumberedState (length classes.now.names) state.now }
    requires want { IsNumberedState (length classes.now.names) want.now }
    ensures { result ≡ state_suits classes.now.names state.now want.now }
{
    suit_each(classes, &state.locals, &want.locals) && suit_each(classes, &state.stack, &want.stack)
}
