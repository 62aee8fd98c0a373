//! Texts of the pool that a class file is known to have.
ghost use Rattle.std.specs.Prelude.{◌≡◌, ◌≤◌, Some, length};
ghost use Rattle.jc_class.specs.ClassFormat.{HasText, HasClass};
ghost use Rattle.jc_pool.specs.Lookup.{utf8_of, class_name_of};

use jc_pool::Pool;

/// The text at a place that has one.
pub fn text_at(pool: &Pool, place: u16) -> &[u8]
    requires { HasText pool.now place }
    ensures text { utf8_of pool.now place ≡ Some result.now }
    ensures size { length result.now ≤ 65535 }
{
    pool.utf8_at(place).unwrap_or(&[])
}

/// The name of the class at a place that has one.
pub fn class_name_at(pool: &Pool, place: u16) -> &[u8]
    requires { HasClass pool.now place }
    ensures text { class_name_of pool.now place ≡ Some result.now }
    ensures size { length result.now ≤ 65535 }
{
    pool.class_at(place).unwrap_or(&[])
}
