//! What instructions ask of their operands.
ghost use Rattle.std.specs.Prelude.{◌≡◌, ℕ, map};
ghost use Rattle.jc_methods.specs.VerificationTypes.{Names, verification_type};
ghost use Rattle.jc_kinds_after.specs.Wants.{accepts as is_accepted, accepts_all};

use jc_methods::Kind;

/// What an instruction asks of an operand (JVM Specification 6.5). None of them takes `Top`.
#[derive(Clone, Copy, Debug, PartialEq, Eq)]
pub enum Want {
    /// An int, or a value of a smaller type.
    Int,
    /// A float.
    Float,
    /// A long.
    Long,
    /// A double.
    Double,
    /// An object whose constructor was called, or null.
    Reference,
    /// A reference, or `this` before the constructor of the superclass was called.
    Target,
    /// A reference, or an object before its constructor was called.
    Anything,
    /// A value of one slot.
    Single,
    /// A value of two slots.
    Pair,
}

/// Whether a value is of the kind that is asked for.
pub fn accepts(want: Want, kind: Kind) -> bool
    ensures { (names : Names) → result ≡ is_accepted want (verification_type names kind) }
{
    match want {
        Want::Int => matches!(kind, Kind::Int),
        Want::Float => matches!(kind, Kind::Float),
        Want::Long => matches!(kind, Kind::Long),
        Want::Double => matches!(kind, Kind::Double),
        Want::Reference => matches!(kind, Kind::Null | Kind::Object(_)),
        Want::Target => matches!(kind, Kind::Null | Kind::Object(_) | Kind::UninitThis),
        Want::Anything => matches!(
            kind,
            Kind::Null | Kind::Object(_) | Kind::UninitThis | Kind::Uninit(_)
        ),
        Want::Single => !matches!(kind, Kind::Top | Kind::Long | Kind::Double),
        Want::Pair => matches!(kind, Kind::Long | Kind::Double),
    }
}

/// Whether there are as many operands as are asked for, and each is of its kind.
pub fn are_accepted(wants: &[Want], operands: &[Kind]) -> bool
    ensures { (names : Names) → result ≡ accepts_all wants.now (map (verification_type names) operands.now) }
{
    if wants.len() != operands.len() {
        return false;
    }
    'testing: for (i, want) in wants.iter().enumerate() {
        if !accepts(*want, operands[i]) {
            return false;
        }
    }
    true
}
