//! What runs leave, as answers.
ghost use Rattle.std.specs.Prelude.{◌≡◌, ◌<◌, ◌≤◌, ◌^◌, length, slice_index_or, []};
ghost use Rattle.jc_programs.specs.Probes.{counts_of};

use jc_programs::{HitSet, Program};
use std::str;
use tests_lines::Answer;

/// Of a longer text the length is told, and its last bytes.
const MOST: usize = 4_000;

/// How many last bytes are told of a long text.
const LAST: usize = 40;

/// Puts a text with `|` for each LF.
fn put_lines(text: &[u8], out: &mut Answer) {
    for (number, line) in str::from_utf8(text).unwrap_or("?").split('\n').enumerate() {
        if number > 0 {
            out.put("|");
        }
        out.put(line);
    }
}

/// Puts the text of cases.
pub fn put_text(text: &str, out: &mut Answer) {
    let text = text.as_bytes();
    if text.len() <= MOST {
        return put_lines(text, out);
    }
    out.label("long ", &text.len());
    out.put(" ");
    put_lines(&text[text.len() - LAST..], out);
}

/// Puts 1 for each probe of a class that is hit, and 0 for each other.
fn put_bits(hits: &HitSet, class: u32, count: u32, out: &mut Answer)
    requires class { class < length hits.now }
    requires count { count ≤ length (slice_index_or hits.now class []) }
{
    for id in 0..count {
        out.put(if hits.get(class, id) { "1" } else { "0" });
    }
}

/// Puts the name and the hits of a class.
fn put_class(name: &[u8], hits: &HitSet, class: u32, count: u32, out: &mut Answer)
    requires class { class < length hits.now }
    requires count { count ≤ length (slice_index_or hits.now class []) }
{
    out.name(name);
    out.put(":");
    put_bits(hits, class, count, out);
}

/// Puts the names and the hits of the classes with probes, parted by spaces. The counts are those of the hits.
pub fn put_hits(program: &Program, counts: &[u32], hits: &HitSet, out: &mut Answer)
    requires counts { counts_of hits.now ≡ counts.now }
    requires few { length counts.now < 2 ^ 32 }
{
    let mut between = "";
    'classes: for (number, count) in counts.iter().enumerate() {
        let Some(class) = program.classes.get(number) else {
            continue;
        };
        if class.probes.is_some() {
            out.put(between);
            put_class(&class.name, hits, number as u32, *count, out);
            between = " ";
        }
    }
}
