//! Texts that words spell.

use std::alloc::Global;
use tests_lines::Answer;

/// Puts two hexadecimal digits as a byte, and what stands behind them as it is.
fn put_escaped(alloc: Global, into: &mut Vec<u8>, piece: &str, out: &mut Answer) -> Option<()> {
    let Some((digits, rest)) = piece.split_at_checked(2) else {
        return out.wrong_word("no bytes", piece);
    };
    let Ok(byte) = hex::decode(alloc, digits) else {
        return out.wrong_word("no bytes", piece);
    };
    out.got(into.extend_from_slice(&byte))?;
    out.got(into.extend_from_slice(rest.as_bytes()))
}

/// The bytes of a text, in which a backslash stands in front of two hexadecimal digits that spell a byte.
pub fn text(alloc: Global, word: &str, out: &mut Answer) -> Option<Vec<u8>> {
    let mut pieces = word.split('\\');
    let mut bytes = Vec::new(alloc);
    if let Some(first) = pieces.next() {
        out.got(bytes.extend_from_slice(first.as_bytes()))?;
    }
    for piece in pieces {
        put_escaped(alloc, &mut bytes, piece, out)?;
    }
    Some(bytes)
}
