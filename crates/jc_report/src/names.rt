//! The names of packages and classes in a report.
ghost use Rattle.std.specs.Prelude.{◌≡◌, IfOk};
ghost use Rattle.std.specs.Option.{option_map};
ghost use Rattle.jc_report.specs.Spelled.{shown};
ghost use Rattle.jc_report.specs.Split.{split_at_last};
ghost use Rattle.jc_report.specs.Names.{package_of, plain_name, anonymous_name, begins_with_digit, class_of, replaced};

use jc_bytes::Memory;
use jc_pool::text_of;
use std::alloc::Global;

/// The text that a name spells in modified UTF-8 (JVM Specification 4.4.7), or the name's bytes where it spells none.
pub fn shown(alloc: Global, name: &[u8]) -> Result<Vec<u8>, Memory>
    ensures { IfOk result (λ text. text.items ≡ shown name.now) }
{
    match text_of(alloc, name)? {
        Some(text) => Ok(text.into_bytes()),
        None => Ok(Vec::from_slice(alloc, name)?),
    }
}

/// What stands in front of the last such byte and behind it, where there is one.
fn split_at_last(byte: u8, text: &[u8]) -> Option<(&[u8], &[u8])>
    ensures { option_map (λ parts. (parts.0.now, parts.1.now)) result ≡ split_at_last byte text.now }
{
    match text.iter().rposition(|b| *b == byte) {
        Some(place) => Some((&text[..place], &text[place + 1..])),
        None => None,
    }
}

/// The text with another byte for each such byte.
fn replaced(alloc: Global, byte: u8, other: u8, text: &[u8]) -> Result<Vec<u8>, Memory>
    ensures { IfOk result (λ made. made.items ≡ replaced byte other text.now) }
{
    let made = text.iter().map(|b| if *b == byte { other } else { *b });
    Ok(made.collect(alloc)?)
}

/// The name of the class's package, with dots, or `default`.
pub fn package_of(alloc: Global, text: &[u8]) -> Result<Vec<u8>, Memory>
    ensures { IfOk result (λ name. name.items ≡ package_of text.now) }
{
    match split_at_last(b'/', text) {
        Some((front, _)) if !front.is_empty() => replaced(alloc, b'/', b'.', front),
        _ => Ok(Vec::from_slice(alloc, b"default")?),
    }
}

/// The name of the class without its package, with dots.
fn plain_name(alloc: Global, text: &[u8]) -> Result<Vec<u8>, Memory>
    ensures { IfOk result (λ name. name.items ≡ plain_name text.now) }
{
    match split_at_last(b'/', text) {
        Some((_, back)) => replaced(alloc, b'$', b'.', back),
        None => replaced(alloc, b'$', b'.', text),
    }
}

fn begins_with_digit(text: &[u8]) -> bool
    ensures { result ≡ begins_with_digit text.now }
{
    match text {
        [first, ..] => first.is_ascii_digit(),
        [] => false,
    }
}

/// The name of a class that has none of its own, in the class that stands in front.
fn anonymous_name(alloc: Global, front: &[u8], parent: &[u8]) -> Result<Vec<u8>, Memory>
    ensures { IfOk result (λ name. name.items ≡ anonymous_name front.now parent.now) }
{
    let mut name = plain_name(alloc, front)?;
    name.extend_from_slice(b".new ")?;
    name.extend_from_slice(&plain_name(alloc, parent)?)?;
    name.extend_from_slice(b"() {...}")?;
    Ok(name)
}

/// The name of a class as it is shown, from its text and the name of its first interface, or else of its superclass.
pub fn class_of(alloc: Global, text: &[u8], parent: Option<&[u8]>) -> Result<Vec<u8>, Memory>
    ensures { IfOk result (λ name. name.items ≡ class_of text.now (option_map (λ parent. shown parent.now) parent.entry)) }
{
    if let Some(parent) = parent
        && let Some((front, back)) = split_at_last(b'$', text)
        && begins_with_digit(back)
    {
        return anonymous_name(alloc, front, &shown(alloc, parent)?);
    }
    plain_name(alloc, text)
}
