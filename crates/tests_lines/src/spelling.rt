//! Numbers, bytes and texts that words spell.
ghost use Rattle.std.specs.Prelude.{◌≤◌, length, IfSome};

use crate::answer::Answer;
use hex::FromHexError;
use std::alloc::{AllocError, Global};
use std::str::FromStr;

/// The most bytes of a line.
const MOST: usize = 1_000_000;

/// The number that a word spells in decimal digits.
pub fn number<T: FromStr>(word: &str, out: &mut Answer) -> Option<T>
where
    T::Err: Drop,
{
    match word.parse::<T>() {
        Ok(number) => Some(number),
        Err(_) => out.wrong_word("no number", word),
    }
}

/// The numbers that the words spell.
pub fn numbers<T: FromStr + Drop>(alloc: Global, words: &[&str], out: &mut Answer) -> Option<Vec<T>>
where
    T::Err: Drop,
{
    let mut numbers = Vec::new(alloc);
    for word in words {
        let number = number::<T>(word, out)?;
        let pushed = numbers.push(number);
        out.got(pushed)?;
    }
    Some(numbers)
}

/// The numbers of a word, with a comma between each and the next. The word `-` has none.
pub fn listed(alloc: Global, word: &str, out: &mut Answer) -> Option<Vec<u32>> {
    if word == "-" {
        return Some(Vec::new(alloc));
    }
    let words: Vec<&str> = out.got(word.split(',').collect(alloc))?;
    numbers::<u32>(alloc, &words, out)
}

/// The bytes of a text, where they have room in a Utf8 entry of a constant pool.
pub fn short<'a>(text: &'a str, out: &mut Answer) -> Option<&'a [u8]>
    ensures { IfSome result (λ bytes. length bytes.now ≤ 65535) }
{
    let bytes = text.as_bytes();
    if bytes.len() > 65535 {
        return out.wrong("more than 65535 bytes");
    }
    Some(bytes)
}

/// How often a word has what follows, and that: a number and `*` stand in front where it is repeated.
pub fn repeated<'a>(word: &'a str, out: &mut Answer) -> Option<(u32, &'a str)> {
    match word.split_once('*') {
        Some((count, part)) => Some((number::<u32>(count, out)?, part)),
        None => Some((1, word)),
    }
}

/// The bytes of the words' letters, one word behind the other, where they have room in a Utf8 entry of a constant pool.
pub fn text(alloc: Global, words: &[&str], out: &mut Answer) -> Option<Vec<u8>>
    ensures { IfSome result (λ text. length text.items ≤ 65535) }
{
    let mut text = Vec::new(alloc);
    for word in words {
        let (count, part) = repeated(word, out)?;
        put_copies(&mut text, part.as_bytes(), count, 65535, out)?;
    }
    if text.len() > 65535 {
        return out.wrong("too many bytes");
    }
    Some(text)
}

/// Puts copies of bytes at the end, unless those would be more than this many bytes.
fn put_copies(
    into: &mut Vec<u8>,
    bytes: &[u8],
    count: u32,
    most: usize,
    out: &mut Answer,
) -> Option<()> {
    for _ in 0..count {
        if into.len() > most {
            return out.wrong("too many bytes");
        }
        let extended = into.extend_from_slice(bytes);
        out.got(extended)?;
    }
    Some(())
}

/// How many copies are put at once, where there are more.
const AT_ONCE: u32 = 4096;

/// Puts copies of bytes at the end, many at once, unless those would be more than this many bytes.
fn put_many(
    alloc: Global,
    into: &mut Vec<u8>,
    bytes: &[u8],
    count: u32,
    most: usize,
    out: &mut Answer,
) -> Option<()> {
    if count >= AT_ONCE {
        let mut block = Vec::new(alloc);
        put_copies(&mut block, bytes, AT_ONCE, most, out)?;
        put_copies(into, &block, count / AT_ONCE, most, out)?;
    }
    put_copies(into, bytes, count % AT_ONCE, most, out)
}

/// Puts the bytes of one word at the end, unless those are more than this many.
fn put_word(
    alloc: Global,
    into: &mut Vec<u8>,
    word: &str,
    most: usize,
    out: &mut Answer,
) -> Option<()> {
    let (count, digits) = repeated(word, out)?;
    match hex::decode(alloc, digits) {
        Ok(bytes) => put_many(alloc, into, &bytes, count, most, out),
        Err(FromHexError::OutOfMemory) => out.lose(),
        Err(_) => out.wrong_word("no bytes", digits),
    }
}

/// The bytes that the words spell, one behind the other, if they are at most so many.
pub fn bytes_up_to(alloc: Global, most: usize, words: &[&str], out: &mut Answer) -> Option<Vec<u8>>
    ensures { IfSome result (λ bytes. length bytes.items ≤ most) }
{
    let mut bytes = Vec::new(alloc);
    for word in words {
        put_word(alloc, &mut bytes, word, most, out)?;
    }
    if bytes.len() > most {
        return out.wrong("too many bytes");
    }
    Some(bytes)
}

/// The bytes that the words spell, one behind the other, if they are at most a million.
pub fn bytes(alloc: Global, words: &[&str], out: &mut Answer) -> Option<Vec<u8>>
    ensures { IfSome result (λ bytes. length bytes.items ≤ 1000000) }
{
    bytes_up_to(alloc, MOST, words, out)
}

/// Puts the bits that the digits 0 and 1 spell at the end.
fn put_bits(into: &mut Vec<bool>, digits: &str, out: &mut Answer) -> Option<()> {
    for digit in digits.bytes() {
        if digit != b'0' && digit != b'1' {
            return out.wrong_word("no bits", digits);
        }
        let pushed = into.push(digit == b'1');
        out.got(pushed)?;
    }
    Some(())
}

/// The bits that a word spells, with 0 and 1.
pub fn bits(alloc: Global, word: &str, out: &mut Answer) -> Option<Vec<bool>> {
    let (count, digits) = repeated(word, out)?;
    let mut bits = Vec::new(alloc);
    for _ in 0..count {
        put_bits(&mut bits, digits, out)?;
    }
    Some(bits)
}

/// The byte that a character of a word means in a text of lines.
fn meant(character: u8) -> u8 {
    match character {
        b'|' => b'\n',
        b'~' => b'\r',
        b'_' => b' ',
        other => other,
    }
}

/// Puts what the characters of a word mean in a text of lines at the end.
fn put_meant(into: &mut Vec<u8>, word: &str) -> Result<(), AllocError> {
    for character in word.bytes() {
        into.push(meant(character))?;
    }
    Ok(())
}

/// Puts what a word means in a text of lines at the end.
fn put_part(alloc: Global, into: &mut Vec<u8>, word: &str, out: &mut Answer) -> Option<()> {
    let (count, part) = repeated(word, out)?;
    let mut text = Vec::new(alloc);
    out.got(put_meant(&mut text, part))?;
    put_copies(into, &text, count, MOST, out)
}

/// The text that the words spell, one behind the other, if it has at most a million bytes: `|` means a line feed, `~` a
/// carriage return, and `_` a space.
pub fn lines(alloc: Global, words: &[&str], out: &mut Answer) -> Option<Vec<u8>>
    ensures { IfSome result (λ text. length text.items ≤ 1000000) }
{
    let mut text = Vec::new(alloc);
    for word in words {
        put_part(alloc, &mut text, word, out)?;
    }
    if text.len() > MOST {
        return out.wrong("too many bytes");
    }
    Some(text)
}
