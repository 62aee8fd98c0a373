//! Verification types and states, as words spell them.

use jc_base::{Kind, List, State};
use std::alloc::Global;
use tests_lines::{Answer, number};

/// A type with a number: that of a class name, or of a `new`.
fn numbered(word: &str, out: &mut Answer) -> Option<Kind> {
    match word.split_once(':') {
        Some(("Object", name)) => Some(Kind::Object(number::<u32>(name, out)?)),
        Some(("Uninit", at)) => Some(Kind::Uninit(number::<u32>(at, out)?)),
        _ => out.wrong_word("no verification type", word),
    }
}

/// The type that a word spells.
pub fn kind(word: &str, out: &mut Answer) -> Option<Kind> {
    match word {
        "Top" => Some(Kind::Top),
        "Int" => Some(Kind::Int),
        "Float" => Some(Kind::Float),
        "Double" => Some(Kind::Double),
        "Long" => Some(Kind::Long),
        "Null" => Some(Kind::Null),
        "UninitThis" => Some(Kind::UninitThis),
        word => numbered(word, out),
    }
}

/// The types that a word spells, with a comma between each and the next.
pub fn kinds(alloc: Global, word: &str, out: &mut Answer) -> Option<List<Kind>> {
    let mut kinds = List::new(alloc);
    if word.is_empty() {
        return Some(kinds);
    }
    for part in word.split(',') {
        let kind = kind(part, out)?;
        let pushed = kinds.push(kind);
        out.got(pushed)?;
    }
    Some(kinds)
}

/// The state that a word spells: the local variables, `/` and the stack.
pub fn state(alloc: Global, word: &str, out: &mut Answer) -> Option<State> {
    let Some((locals, stack)) = word.split_once('/') else {
        return out.wrong_word("no state", word);
    };
    let locals = kinds(alloc, locals, out)?;
    let stack = kinds(alloc, stack, out)?;
    Some(State { locals, stack })
}

/// Puts a state.
pub fn put_state(state: &State, out: &mut Answer) {
    out.label_debug("locals ", &state.locals.as_slice());
    out.label_debug(" stack ", &state.stack.as_slice());
}
