//! Decimal numbers without sign and leading zero.
ghost use Rattle.std.specs.Prelude.{◌≡◌, ◌≤◌};
ghost use Rattle.jc_bytes.specs.Digits.{is_digit};
ghost use Rattle.jc_command_words.specs.Numbers.{digits_up_to, number_up_to};

use jc_bytes::is_digit;

/// The number that digits spell behind those of a number, if it is at most so much.
fn digits_up_to(most: u32, number: u32, digits: &[u8]) -> Option<u32>
    requires few { most ≤ 1000000 }
    requires small { number ≤ most }
    ensures { result ≡ digits_up_to most number digits.now }
{
    let [digit, behind @ ..] = digits else {
        return Some(number);
    };
    if !is_digit(*digit) {
        return None;
    }
    let more = number * 10 + u32::from(*digit - b'0');
    if more <= most {
        digits_up_to(most, more, behind)
    } else {
        None
    }
}

/// The number from 1 to the most that a word spells without sign and leading zero.
pub fn number_up_to(most: u32, word: &str) -> Option<u32>
    requires { most ≤ 1000000 }
    ensures { result ≡ number_up_to most word.now }
{
    match word.as_bytes() {
        [] | [b'0', ..] => None,
        bytes => digits_up_to(most, 0, bytes),
    }
}
