//! The first of several refusals, where one kind comes before all others.
ghost use Rattle.std.specs.Prelude.{◌≡◌, IfOk, IfErr};
ghost use Rattle.jc_instrument.specs.Steps.{IsKept, Ends};

use jc_bytes::{Fail, Refusal, RefusalKind};

/// What is kept after a further refusal: the first one. Want of memory and a refusal of the kind that comes before
/// all others aren't kept, but end the search.
pub fn keep_first(
    kept: Option<Refusal>,
    urgent: RefusalKind,
    fail: Fail<Refusal>,
) -> Result<Option<Refusal>, Fail<Refusal>>
    ensures kept { IfOk result (IsKept kept urgent fail) }
    ensures ends { IfErr result (λ e. (e ≡ fail) × Ends urgent fail) }
{
    match fail {
        Fail::Memory => Err(Fail::Memory),
        Fail::Said(refusal) => {
            if refusal.kind == urgent {
                return Err(Fail::Said(refusal));
            }
            Ok(Some(kept.unwrap_or(refusal)))
        }
    }
}
