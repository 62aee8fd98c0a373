//! Copies of values.

use crate::insns::put_insn;
use crate::kinds::{put_state, state};
use crate::uses::{put_use, uses};
use jc_base::{Body, FrameAt, Insn, List, Plan, TryClone, Use, clone_each};
use std::alloc::Global;
use tests_lines::{Answer, number};

/// The frame that a word spells: its place, `@` and its state.
fn frame(alloc: Global, word: &str, out: &mut Answer) -> Option<FrameAt> {
    let Some((at, rest)) = word.split_once('@') else {
        return out.wrong_word("no frame", word);
    };
    let at = number::<u32>(at, out)?;
    let state = state(alloc, rest, out)?;
    Some(FrameAt { at, state })
}

/// Puts instructions.
fn put_code(code: &[Insn], out: &mut Answer) {
    for (number, insn) in code.iter().enumerate() {
        if number > 0 {
            out.put(", ");
        }
        put_insn(insn, out);
    }
}

/// Puts the probe that a word spells at the end: `none`, or an id.
fn put_probe(into: &mut List<Option<u32>>, word: &str, out: &mut Answer) -> Option<()> {
    let pushed = match word {
        "none" => into.push(None),
        id => into.push(Some(number::<u32>(id, out)?)),
    };
    out.got(pushed)
}

/// The probes that a word spells, with a comma between each and the next.
fn probes(alloc: Global, word: &str, out: &mut Answer) -> Option<List<Option<u32>>> {
    let mut probes = List::new(alloc);
    for part in word.split(',') {
        put_probe(&mut probes, part, out)?;
    }
    Some(probes)
}

/// The branches of one instruction, with the probes that a word spells.
fn branches(alloc: Global, word: &str, out: &mut Answer) -> Option<List<List<Option<u32>>>> {
    let probes = probes(alloc, word, out)?;
    let mut branches = List::new(alloc);
    let pushed = branches.push(probes);
    out.got(pushed)?;
    Some(branches)
}

/// The plan of these probes of fall-throughs, and of the branches of one instruction.
fn plan(alloc: Global, [lead, branching, next]: [&str; 3], out: &mut Answer) -> Option<Plan> {
    let next = number::<u32>(next, out)?;
    let lead = probes(alloc, lead, out)?;
    let branches = branches(alloc, branching, out)?;
    Some(Plan {
        lead,
        out: branches,
        next,
    })
}

/// Puts a plan.
fn put_plan(plan: &Plan, out: &mut Answer) {
    out.label_debug("lead ", &plan.lead.as_slice());
    out.put(" out");
    for branches in plan.out.as_slice() {
        out.label_debug(" ", &branches.as_slice());
    }
    out.label(" next ", &plan.next);
}

/// Puts the copy of a plan, and whether it is the plan's equal.
fn put_plan_copy(alloc: Global, plan: &Plan, out: &mut Answer) -> Option<()> {
    let copy = out.got(plan.try_clone(alloc))?;
    put_plan(&copy, out);
    out.label(" equal ", &(copy == *plan));
    Some(())
}

/// The numbers of a body: of its method, its flags, the slots of its arguments, of its stack and of its locals.
fn counts(word: &str, out: &mut Answer) -> Option<[u16; 5]> {
    let mut counts = [0; 5];
    for (count, part) in counts.iter_mut().zip(word.split(',')) {
        *count = number::<u16>(part, out)?;
    }
    Some(counts)
}

/// A body of this code, with these frames and uses.
fn body(
    alloc: Global,
    counts: [u16; 5],
    code: List<Insn>,
    frames: List<FrameAt>,
    uses: List<Use>,
) -> Body {
    let [method, flags, arg_slots, max_stack, max_locals] = counts;
    Body {
        method,
        owner: List::new(alloc),
        name: List::new(alloc),
        desc: List::new(alloc),
        flags,
        arg_slots,
        max_stack,
        max_locals,
        code,
        handlers: List::new(alloc),
        lines: List::new(alloc),
        vars: List::new(alloc),
        kind_vars: List::new(alloc),
        frames,
        uses,
    }
}

/// Puts the numbers of a body.
fn put_counts(body: &Body, out: &mut Answer) {
    out.label("method ", &body.method);
    out.label(" flags ", &body.flags);
    out.label(" arg_slots ", &body.arg_slots);
    out.label(" max_stack ", &body.max_stack);
    out.label(" max_locals ", &body.max_locals);
}

/// Puts a body.
fn put_body(body: &Body, out: &mut Answer) {
    put_counts(body, out);
    out.put(" code ");
    put_code(body.code.as_slice(), out);
    for frame in body.frames.as_slice() {
        out.label(" frame ", &frame.at);
        out.put(" ");
        put_state(&frame.state, out);
    }
    for entry in body.uses.as_slice() {
        out.put(" use ");
        put_use(entry, out);
    }
}

/// Puts the copy of a body, and whether it is the body's equal.
fn put_body_copy(alloc: Global, body: &Body, out: &mut Answer) -> Option<()> {
    let copy = out.got(body.try_clone(alloc))?;
    put_body(&copy, out);
    out.label(" equal ", &(copy == *body));
    Some(())
}

/// The frames that one word spells.
fn frames(alloc: Global, word: &str, out: &mut Answer) -> Option<List<FrameAt>> {
    let frame = frame(alloc, word, out)?;
    let mut frames = List::new(alloc);
    let pushed = frames.push(frame);
    out.got(pushed)?;
    Some(frames)
}

/// Puts the copy of a body that has one frame, of the code that was decoded.
fn copy_body(
    alloc: Global,
    code: &[Insn],
    [numbers, frame]: [&str; 2],
    entries: &[&str],
    out: &mut Answer,
) -> Option<()> {
    let counts = counts(numbers, out)?;
    let frames = frames(alloc, frame, out)?;
    let uses = uses(alloc, entries, out)?;
    let code = out.got(clone_each(alloc, code))?;
    put_body_copy(alloc, &body(alloc, counts, code, frames, uses), out)
}

/// What a call answers of the values that words spell, and of the code that was decoded.
pub fn answer(alloc: Global, code: &[Insn], words: &[&str], out: &mut Answer) -> Option<()> {
    match words {
        ["plan", lead, branches, next] => {
            let plan = plan(alloc, [lead, branches, next], out)?;
            put_plan_copy(alloc, &plan, out)
        }
        ["body", counts, frame, entries @ ..] => {
            copy_body(alloc, code, [counts, frame], entries, out)
        }
        words => out.unknown(words),
    }
}
