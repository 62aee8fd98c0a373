//! Places of texts in a constant pool.
ghost use Rattle.std.specs.Prelude.{◌≡◌, ◌↔◌, IfNone, IfSome, IsTrue, Some};
ghost use Rattle.jc_pool.specs.Adding.{IsFirst, IsNowhere};
ghost use Rattle.jc_pool.specs.Lookup.{utf8_of};

use jc_pool::Pool;

/// Whether a Utf8 entry with this text stands at a place.
fn has_text(pool: &Pool, place: u16, text: &[u8]) -> bool
    ensures { IsTrue result ↔ (utf8_of pool.now place ≡ Some text.now) }
{
    match pool.utf8_at(place) {
        Ok(found) => found == text,
        Err(_) => false,
    }
}

/// The first place of a Utf8 entry with this text (JVM Specification 4.4.7), if there is one. It takes
/// no memory.
pub fn first_text(pool: &Pool, text: &[u8]) -> Option<u16>
    ensures first { IfSome result (IsFirst (utf8_of pool.now) text.now) }
    ensures none { IfNone result (IsNowhere (utf8_of pool.now) text.now) }
{
    'searching: for place in 0..pool.count() {
        if has_text(pool, place, text) {
            return Some(place);
        }
    }
    None
}
