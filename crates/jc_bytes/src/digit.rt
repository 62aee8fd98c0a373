//! The decimal digits of ASCII.
ghost use Rattle.std.specs.Prelude.{◌≡◌};
ghost use Rattle.jc_bytes.specs.Digits.{is_digit};

/// Whether the byte is a decimal digit.
pub fn is_digit(byte: u8) -> bool
    ensures { result ≡ is_digit byte }
{
    byte >= b'0' && byte <= b'9'
}
