//! Calls on the coverage of the class file.
ghost use Rattle.std.specs.Prelude.{◌≡◌, ◌≤◌, length, IfSome};
ghost use Rattle.jc_plan.specs.Analysed.{IsAnalysed};
ghost use Rattle.jc_cover.specs.Covered.{HasShape};

use crate::reports::{made_text, put_counters};
use jc_bytes::List;
use jc_cover::{Counters, Coverage, counters, covered};
use jc_instrument::analyse;
use jc_methods::Analysed;
use jc_report::Counted;
use std::alloc::Global;
use tests_lines::{Answer, bits};

/// Puts what a call on the coverage of the class file answers.
pub fn answer(alloc: Global, bytes: &[u8], words: &[&str], out: &mut Answer) -> Option<()>
    requires { length bytes.now ≤ 1000000 }
{
    let class = out.accepted(analyse(alloc, bytes))?;
    match words {
        ["covered", hits] => put_edges(alloc, &class, hits, out),
        ["counters", hits] => put_counts(alloc, &class, hits, out),
        ["report", group, hits] => {
            let counters = counters_by(alloc, &class, hits, out)?;
            made_text(alloc, &[counted(class, counters)], group, out)
        }
        words => out.unknown(words),
    }
}

/// The hits of the class's probes.
fn hits_of(alloc: Global, class: &Analysed, word: &str, out: &mut Answer) -> Option<Vec<bool>>
    ensures { IfSome result (λ hits. length hits.items ≡ class.now.probes) }
{
    let hits = bits(alloc, word, out)?;
    if hits.len() != class.probes as usize {
        return out.unknown_word(word);
    }
    Some(hits)
}

/// Which edges of the class are covered by hits, or by none where a dash stands there.
fn coverage(alloc: Global, class: &Analysed, word: &str, out: &mut Answer) -> Option<Coverage>
    requires { IsAnalysed class.now }
    ensures { IfSome result (HasShape class.now.bodies) }
{
    if word == "-" {
        return out.got(covered(alloc, class, None));
    }
    let hits = hits_of(alloc, class, word, out)?;
    out.got(covered(alloc, class, Some(&hits)))
}

/// Puts the values of the branches of a body, its instructions parted by slashes.
fn put_body(body: &[List<bool>], out: &mut Answer) {
    out.put(" ");
    for branches in body {
        out.put("/");
        out.bits(branches);
    }
}

/// Puts which edges of the class are covered, for each body.
fn put_edges(alloc: Global, class: &Analysed, word: &str, out: &mut Answer) -> Option<()>
    requires { IsAnalysed class.now }
{
    let coverage = coverage(alloc, class, word, out)?;
    out.show(&coverage.edges.len());
    out.put(" bodies");
    for body in &coverage.edges {
        put_body(body, out);
    }
    Some(())
}

/// The counters of the class.
fn counters_by(alloc: Global, class: &Analysed, word: &str, out: &mut Answer) -> Option<Counters>
    requires { IsAnalysed class.now }
{
    let coverage = coverage(alloc, class, word, out)?;
    out.got(counters(alloc, class, &coverage))
}

/// Puts the counters of the class.
fn put_counts(alloc: Global, class: &Analysed, word: &str, out: &mut Answer) -> Option<()>
    requires { IsAnalysed class.now }
{
    let counters = counters_by(alloc, class, word, out)?;
    out.put("counters");
    put_counters(&counters, out);
    Some(())
}

/// The class with its counters.
fn counted(class: Analysed, counters: Counters) -> Counted {
    let Analysed {
        id,
        name,
        super_name,
        interfaces,
        ..
    } = class;
    Counted {
        id,
        name,
        super_name,
        interfaces,
        counters,
    }
}
