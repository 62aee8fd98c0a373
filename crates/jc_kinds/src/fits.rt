//! Whether values may stand where other types are expected.
ghost use Rattle.std.specs.Prelude.{◌≡◌};
ghost use Rattle.jc_kinds.specs.KindFits.{kind_fits, kinds_fit, state_fits};

use jc_methods::{Kind, State};

/// Whether a value of a type may stand where another type is expected (JVM Specification 4.10.1.2). Classes
/// aren't compared.
pub fn fits(kind: Kind, want: Kind) -> bool
    ensures { result ≡ kind_fits kind want }
{
    match want {
        Kind::Top => true,
        Kind::Int => matches!(kind, Kind::Int),
        Kind::Float => matches!(kind, Kind::Float),
        Kind::Double => matches!(kind, Kind::Double),
        Kind::Long => matches!(kind, Kind::Long),
        Kind::Null => matches!(kind, Kind::Null),
        Kind::UninitThis => matches!(kind, Kind::UninitThis),
        Kind::Object(_) => matches!(kind, Kind::Null | Kind::Object(_)),
        Kind::Uninit(at) => match kind {
            Kind::Uninit(other) => other == at,
            _ => false,
        },
    }
}

/// Whether there are as many values as types that are expected, and each fits.
fn fit_each(kinds: &[Kind], wants: &[Kind]) -> bool
    ensures { result ≡ kinds_fit kinds.now wants.now }
{
    if kinds.len() != wants.len() {
        return false;
    }
    'fitting: for (i, kind) in kinds.iter().enumerate() {
        if !fits(*kind, wants[i]) {
            return false;
        }
    }
    true
}

/// Whether the local variables and the stack fit those of another state (JVM Specification 4.10.1.4).
pub fn fits_state(state: &State, want: &State) -> bool
    ensures { result ≡ state_fits state.now want.now }
{
    fit_each(&state.locals, &want.locals) && fit_each(&state.stack, &want.stack)
}
