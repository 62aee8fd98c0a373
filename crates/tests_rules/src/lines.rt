//! Calls on the lines of the class file.
ghost use Rattle.std.specs.Prelude.{◌≡◌, ◌≤◌, length, IfSome};
ghost use Rattle.jc_plan.specs.Analysed.{IsAnalysed};
ghost use Rattle.jc_cover.specs.Covered.{HasShape};

use crate::slow;
use jc_cover::{Coverage, covered};
use jc_instrument::analyse;
use jc_methods::Analysed;
use jc_rules::{LineState, LineStatus, line_list};
use std::alloc::Global;
use tests_lines::{Answer, bits, bytes};

/// The bytes of a class file.
#[derive(Drop)]
pub struct ClassBytes {
    bytes: Vec<u8>,
    ghost few: { length bytes.items ≤ 1000000 },
}

impl ClassBytes {
    /// No bytes.
    pub fn new(alloc: Global) -> Self {
        ClassBytes {
            bytes: Vec::new(alloc),
        }
    }

    /// The bytes.
    pub fn as_slice(&self) -> &[u8]
        ensures { length result.now ≤ 1000000 }
    {
        &self.bytes
    }
}

/// Keeps the bytes that the words spell, and tells how many there are.
pub fn keep(alloc: Global, class: &mut ClassBytes, words: &[&str], out: &mut Answer) -> Option<()> {
    let bytes = bytes(alloc, words, out)?;
    out.show(&bytes.len());
    out.put(" bytes");
    *class = ClassBytes { bytes };
    Some(())
}

/// The hits of the class's probes.
fn hits_of(alloc: Global, class: &Analysed, word: &str, out: &mut Answer) -> Option<Vec<bool>>
    ensures { IfSome result (λ hits. length hits.items ≡ class.now.probes) }
{
    let hits = bits(alloc, word, out)?;
    if hits.len() != class.probes as usize {
        return out.unknown_word(word);
    }
    Some(hits)
}

/// Which edges of the class are covered by hits, or by none where a dash stands there.
fn coverage(alloc: Global, class: &Analysed, word: &str, out: &mut Answer) -> Option<Coverage>
    requires { IsAnalysed class.now }
    ensures { IfSome result (HasShape class.now.bodies) }
{
    if word == "-" {
        return out.got(covered(alloc, class, None));
    }
    let hits = hits_of(alloc, class, word, out)?;
    out.got(covered(alloc, class, Some(&hits)))
}

/// The word of a status.
fn word_of(status: LineState) -> &'static str {
    match status {
        LineState::Empty => "empty",
        LineState::Not => "not",
        LineState::Partly => "partly",
        LineState::Fully => "fully",
    }
}

/// Puts the lines, with a status for each line that has another one than the line before.
fn put_list(list: &[LineStatus], out: &mut Answer) {
    out.show(&list.len());
    out.put(" lines");
    let mut before = None;
    for LineStatus { line, status } in list {
        if before != Some(*status) {
            out.label("; ", line);
            out.put(" ");
            out.put(word_of(*status));
        }
        before = Some(*status);
    }
    if let Some(last) = list.last() {
        out.label("; to ", &last.line);
    }
}

/// Puts the lines of the class file by hits, and those of the slow program if they are others.
pub fn answer(alloc: Global, bytes: &[u8], hits: &str, out: &mut Answer) -> Option<()>
    requires { length bytes.now ≤ 1000000 }
{
    let class = out.accepted(analyse(alloc, bytes))?;
    let coverage = coverage(alloc, &class, hits, out)?;
    let list = out.got(line_list(alloc, &class, &coverage))?;
    put_list(&list, out);
    let slow = out.got(slow::line_list(alloc, &class, &coverage))?;
    if list.as_slice() != slow.as_slice() {
        out.put("; and slowly ");
        put_list(&slow, out);
    }
    Some(())
}
