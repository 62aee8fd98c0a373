//! States in words, and the states that words say.
use jc_base::{FrameAt, Kind, List, Names, State};
use std::alloc::Global;
use tests_lines::{Answer, number};

/// The most bytes of a class name that is written out.
const MOST_WRITTEN: usize = 1000;

/// What bytes of UTF-8 say.
pub fn text_of(bytes: &[u8]) -> &str {
    match std::str::from_utf8(bytes) {
        Ok(text) => text,
        Err(_) => "(no UTF-8)",
    }
}

/// Puts an object of the class with this number.
fn put_object(number: u32, names: &Names, out: &mut Answer) {
    if number >= names.len() {
        return out.put("class without a name");
    }
    let name = names.text(number);
    if name.len() > MOST_WRITTEN {
        out.label("class of ", &name.len());
        return out.put(" bytes");
    }
    out.put("class:");
    out.put(text_of(name));
}

/// Puts a type.
fn put_kind(kind: Kind, names: &Names, out: &mut Answer) {
    match kind {
        Kind::Top => out.put("top"),
        Kind::Int => out.put("int"),
        Kind::Float => out.put("float"),
        Kind::Double => out.put("double"),
        Kind::Long => out.put("long"),
        Kind::Null => out.put("null"),
        Kind::UninitThis => out.put("uninitializedThis"),
        Kind::Object(number) => put_object(number, names, out),
        Kind::Uninit(at) => out.label("uninitialized:", &at),
    }
}

/// Puts a state: the local variables, a bar, and the stack.
pub fn put_state(state: &State, names: &Names, out: &mut Answer) {
    for kind in state.locals.as_slice() {
        put_kind(*kind, names, out);
        out.put(" ");
    }
    out.put("|");
    for kind in state.stack.as_slice() {
        out.put(" ");
        put_kind(*kind, names, out);
    }
}

/// Puts states, one behind the other.
pub fn put_states(states: &[State], names: &Names, out: &mut Answer) {
    for state in states {
        out.separate("; ");
        put_state(state, names, out);
    }
}

/// Puts the class names, in the order of their numbers.
fn put_names(names: &Names, out: &mut Answer) {
    out.separate("; ");
    out.put("names");
    for number in 0..names.len() {
        out.put(" ");
        out.put(text_of(names.text(number)));
    }
}

/// Puts frames, each with the number of its instruction, and the class names in the order of their numbers.
pub fn put_frames(frames: &[FrameAt], names: &Names, out: &mut Answer) {
    for frame in frames {
        out.separate("; ");
        out.show(&frame.at);
        out.put(": ");
        put_state(&frame.state, names, out);
    }
    put_names(names, out);
}

/// The object of the class of this name.
fn object_of(alloc: Global, name: &str, names: &mut Names, out: &mut Answer) -> Option<Kind> {
    let number = out.got(names.number(alloc, name.as_bytes()))?;
    Some(Kind::Object(number))
}

/// The object that a word says.
fn named(alloc: Global, word: &str, names: &mut Names, out: &mut Answer) -> Option<Kind> {
    match word.split_once(':') {
        Some(("class", name)) => object_of(alloc, name, names, out),
        Some(("uninitialized", at)) => Some(Kind::Uninit(number::<u32>(at, out)?)),
        _ => out.unknown_word(word),
    }
}

/// The type that a word says.
fn kind_of(alloc: Global, word: &str, names: &mut Names, out: &mut Answer) -> Option<Kind> {
    match word {
        "top" => Some(Kind::Top),
        "int" => Some(Kind::Int),
        "float" => Some(Kind::Float),
        "double" => Some(Kind::Double),
        "long" => Some(Kind::Long),
        "null" => Some(Kind::Null),
        "uninitializedThis" => Some(Kind::UninitThis),
        word => named(alloc, word, names, out),
    }
}

/// The types that words say.
fn kinds_of(
    alloc: Global,
    words: &[&str],
    names: &mut Names,
    out: &mut Answer,
) -> Option<List<Kind>> {
    let mut kinds = List::new(alloc);
    for word in words {
        let kind = kind_of(alloc, word, names, out)?;
        let pushed = kinds.push(kind);
        out.got(pushed)?;
    }
    Some(kinds)
}

/// The words in front of the first bar, and those behind it, if there is one.
fn parts<'w, 'a>(words: &'w [&'a str]) -> (&'w [&'a str], &'w [&'a str]) {
    for (place, word) in words.iter().enumerate() {
        if *word == "|" {
            return (&words[..place], &words[place + 1..]);
        }
    }
    (words, &[])
}

/// The state that words say: the types of the local variables, a bar, and those of the stack.
pub fn state_of(
    alloc: Global,
    words: &[&str],
    names: &mut Names,
    out: &mut Answer,
) -> Option<State> {
    let (locals, stack) = parts(words);
    let locals = kinds_of(alloc, locals, names, out)?;
    let stack = kinds_of(alloc, stack, names, out)?;
    Some(State { locals, stack })
}
