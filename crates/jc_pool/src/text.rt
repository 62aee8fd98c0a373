//! The text that modified UTF-8 spells (JVM Specification 4.4.7).
ghost use Rattle.std.specs.Prelude.{◌≡◌, ℕ, List, Some, IfOk, IsSomeAnd, option_map};
ghost use Rattle.std.specs.Str.{encode_utf8_all};
ghost use Rattle.std.specs.String.{string_bytes};
ghost use Rattle.jc_pool.specs.Text.{SpellsText, IsTextOf, AreUnitsOf};

use jc_bytes::{Memory, first_unit};
use std::alloc::Global;

/// The units of 16 bits that modified UTF-8 spells.
fn units_of(alloc: Global, modified: &[u8]) -> Result<Option<Vec<u16>>, Memory>
    ensures { IfOk result (λ found. AreUnitsOf modified.now (option_map (λ units. units.items) found)) }
{
    let mut units = Vec::with_capacity(alloc, modified.len())?;
    let mut rest = modified;
    'reading: while let Some((unit, after)) = first_unit(rest) {
        units.push(unit)?;
        rest = after;
    }
    if rest.is_empty() {
        Ok(Some(units))
    } else {
        Ok(None)
    }
}

/// The text that modified UTF-8 spells (JVM Specification 4.4.7), in which two units that are a
/// surrogate pair are one character (Unicode, UTF-16). `None` where the bytes spell no text: they
/// are not modified UTF-8, or a surrogate has no partner.
///
/// # Errors
///
/// `Memory` where memory was refused.
pub fn text_of(alloc: Global, modified: &[u8]) -> Result<Option<String>, Memory>
    // The text has the characters that the bytes spell, and there is none where they spell none.
    ensures text { IfOk result (λ found. IsTextOf modified.now (option_map (λ text. string_bytes text) found)) }
    // No other text has characters that the bytes spell.
    ensures only { (chars : List ℕ) → SpellsText modified.now chars
        → IfOk result (λ found. IsSomeAnd found (λ text. string_bytes text ≡ encode_utf8_all chars)) }
{
    match units_of(alloc, modified)? {
        Some(units) => Ok(String::from_utf16(alloc, &units)?.ok()),
        None => Ok(None),
    }
}
