//! Words that a line spells.
use std::alloc::{AllocError, Global};

/// The character that is meant.
fn meant(character: char) -> char {
    if character == '_' { ' ' } else { character }
}

/// The word that is meant.
fn word_of(alloc: Global, text: &str) -> Result<String, AllocError> {
    let mut word = String::new(alloc);
    if text == "''" {
        return Ok(word);
    }
    for character in text.chars() {
        word.push(meant(character))?;
    }
    Ok(word)
}

/// The words that are meant.
pub fn spelled(alloc: Global, texts: &[&str]) -> Result<Vec<String>, AllocError> {
    let mut words = Vec::new(alloc);
    for text in texts {
        words.push(word_of(alloc, text)?)?;
    }
    Ok(words)
}
