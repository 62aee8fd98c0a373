//! Texts that the words of a line spell.

use std::alloc::{AllocError, Global};

/// Puts a word at the end, with a line feed for each `|`.
fn put_lined(into: &mut Vec<u8>, word: &str) -> Result<(), AllocError> {
    for byte in word.as_bytes() {
        into.push(if *byte == b'|' { b'\n' } else { *byte })?;
    }
    Ok(())
}

/// The text of the words, which spaces part, with a line feed for each `|`.
pub fn lined(alloc: Global, words: &[&str]) -> Result<Vec<u8>, AllocError> {
    let mut text = Vec::new(alloc);
    for (at, word) in words.iter().enumerate() {
        if at > 0 {
            text.push(b' ')?;
        }
        put_lined(&mut text, word)?;
    }
    Ok(text)
}
