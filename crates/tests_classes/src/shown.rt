//! How bytes, texts, states and tables are printed.
use jc_bytes::Names;
use jc_layout::Laid;
use jc_methods::{Emitted, FrameAt, Handler, Kind, LineAt, VarAt};
use tests_lines::Answer;

/// The longest group of bytes that is printed once, with how many times it stands there.
const LONGEST: usize = 8;

/// How many times a group stands there at least, where it is printed once.
const LEAST: usize = 16;

/// How many times the first bytes, as many as `size`, stand one behind the other.
fn times(bytes: &[u8], size: usize) -> usize {
    let Some(first) = bytes.get(..size) else {
        return 0;
    };
    let mut times = 0usize;
    for place in 0..bytes.len() {
        let start = place.saturating_mul(size);
        let end = start.saturating_add(size);
        if bytes.get(start..end) != Some(first) {
            break;
        }
        times = times.saturating_add(1);
    }
    times
}

/// How long the group is that is repeated in front, and how many times it stands there; or one byte, once.
fn group(bytes: &[u8]) -> (usize, usize) {
    for size in 1..=LONGEST {
        let times = times(bytes, size);
        if times >= LEAST {
            return (size, times);
        }
    }
    (1, 1)
}

/// Puts bytes as hexadecimal digits. A group that is repeated is a word of its own, behind a count and `*`.
pub fn put_bytes(bytes: &[u8], out: &mut Answer) {
    let mut next = 0usize;
    for place in 0..bytes.len() {
        if place == next {
            next = place.saturating_add(put_group(&bytes[place..], out));
        }
    }
}

/// Puts the group in front, and tells its length.
fn put_group(bytes: &[u8], out: &mut Answer) -> usize {
    let (size, times) = group(bytes);
    let digits = bytes.get(..size).unwrap_or(bytes);
    if times == 1 {
        out.bytes(digits);
    } else {
        out.label(" ", &times);
        out.put("*");
        out.bytes(digits);
        out.put(" ");
    }
    size.saturating_mul(times)
}

/// Puts a character as it is if it is a visible ASCII character but a backslash, and else a backslash and two digits.
fn put_character(byte: u8, out: &mut Answer) {
    if byte.is_ascii_graphic() && byte != b'\\' {
        out.show(&char::from(byte));
    } else {
        out.put("\\");
        out.bytes(&[byte]);
    }
}

/// Puts a text as a word: what isn't a visible ASCII character, and a backslash, as a backslash and two digits.
pub fn put_text(text: &[u8], out: &mut Answer) {
    for byte in text {
        put_character(*byte, out);
    }
}

/// Puts the type of a value, with a blank in front.
fn put_kind(kind: Kind, names: &Names, out: &mut Answer) {
    match kind {
        Kind::Top => out.put(" top"),
        Kind::Int => out.put(" int"),
        Kind::Float => out.put(" float"),
        Kind::Double => out.put(" double"),
        Kind::Long => out.put(" long"),
        Kind::Null => out.put(" null"),
        Kind::UninitThis => out.put(" uninitialized-this"),
        Kind::Object(number) => put_name(number, names, out),
        Kind::Uninit(at) => out.label(" new-at-", &at),
    }
}

/// Puts the name of a class, with a blank in front.
fn put_name(number: u32, names: &Names, out: &mut Answer) {
    out.put(" ");
    if number < names.len() {
        put_text(names.text(number), out);
    }
}

/// Puts where a frame stands, the types of its local variables, and behind a bar those of the stack.
fn put_frame(frame: &FrameAt, names: &Names, out: &mut Answer) {
    out.label(" ", &frame.at);
    out.put(":");
    for kind in &frame.state.locals {
        put_kind(*kind, names, out);
    }
    out.put(" |");
    for kind in &frame.state.stack {
        put_kind(*kind, names, out);
    }
}

/// Puts frames, with a word in front.
pub fn put_frames(word: &str, frames: &[FrameAt], names: &Names, out: &mut Answer) {
    out.put(word);
    for frame in frames {
        put_frame(frame, names, out);
    }
}

/// Puts the rows of an exception table.
fn put_rows(rows: &[Handler], out: &mut Answer) {
    out.put("; rows");
    for row in rows {
        out.label(" ", &row.start);
        out.label("-", &row.end);
        out.label(">", &row.target);
        out.label(":", &row.class);
    }
}

/// Puts the entries of a line table.
fn put_lines(lines: &[LineAt], out: &mut Answer) {
    out.put("; lines");
    for entry in lines {
        out.label(" ", &entry.at);
        out.label(":", &entry.line);
    }
}

/// Puts the entries of a table of variables, with a word in front.
fn put_vars(word: &str, vars: &[VarAt], out: &mut Answer) {
    out.put(word);
    for entry in vars {
        out.label(" ", &entry.start);
        out.label("-", &entry.end);
        out.label(":", &entry.name);
        out.label(":", &entry.desc);
        out.label(":", &entry.slot);
    }
}

/// Puts all of instrumented code but the instructions.
pub fn put_emitted(emitted: &Emitted, names: &Names, out: &mut Answer) {
    out.label("stack ", &emitted.max_stack);
    out.label("; locals ", &emitted.max_locals);
    out.label_debug("; at ", &emitted.at.as_slice());
    out.label_debug("; extra ", &emitted.extra.as_slice());
    out.put("; own ");
    out.bits(&emitted.own);
    put_rows(&emitted.handlers, out);
    put_lines(&emitted.lines, out);
    put_vars("; variables", &emitted.vars, out);
    put_vars("; types", &emitted.kind_vars, out);
    put_frames("; frames", &emitted.frames, names, out);
    put_frames("; wide frames", &emitted.wide_frames, names, out);
}

/// Puts the offset of an instruction, or of the end of the code.
fn put_offset(laid: &Laid, at: usize, out: &mut Answer) {
    match laid.starts.as_slice().get(at) {
        Some(start) => out.label(" ", start),
        None => out.put(" nowhere"),
    }
}

/// Puts whether a jump is wide, and the numbers of those that are, as the emitted code has them.
fn put_wide(wide: &[bool], out: &mut Answer) {
    out.put(if wide.contains(&true) {
        "wide"
    } else {
        "narrow"
    });
    for (number, is_wide) in wide.iter().enumerate() {
        if *is_wide {
            out.label(" ", &number);
        }
    }
}

/// Puts the wide jumps of the layout, the offsets of its frames and of its end, and its bytes.
pub fn put_layout(laid: &Laid, frames: &[FrameAt], out: &mut Answer) -> Option<()> {
    put_wide(&laid.wide, out);
    out.put("; frames");
    for frame in frames {
        put_offset(laid, frame.at as usize, out);
    }
    out.label("; end ", &laid.code.len());
    out.put("; code ");
    put_bytes(&laid.code, out);
    Some(())
}
