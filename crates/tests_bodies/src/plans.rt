//! The branches, the edges and the probes of a body.
ghost use Rattle.std.specs.Prelude.{◌<◌, ◌^◌, length, IsTrue};
ghost use Rattle.jc_base.specs.Flow.{targets_of};

use crate::bodies::body_of;
use jc_base::{Edge, Insn, Names, Plan};
use jc_plan::{Branch, Way, edges, plan, put_branches};
use std::alloc::Global;
use tests_lines::{Answer, number};

/// The greatest first id of a plan.
const GREATEST_FIRST: u32 = 268_435_456;

/// Puts edges: the instruction of each, its number, and the instruction to which it leads.
fn put_edges(edges: &[Edge], out: &mut Answer) {
    for edge in edges {
        out.separate("; ");
        out.show(&edge.at);
        out.label("/", &edge.branch);
        match edge.to {
            Some(to) => out.label(" to ", &to),
            None => out.put(" out"),
        }
    }
}

/// The edges of the method with this number.
pub fn all_edges(alloc: Global, class: &[u8], method: u32, out: &mut Answer) -> Option<()> {
    let mut names = out.got(Names::new(alloc))?;
    let body = body_of(alloc, class, method, &mut names, out)?;
    let edges = out.got(edges(alloc, &body))?;
    put_edges(&edges, out);
    Some(())
}

/// Puts the ids of probes, a bar where there is none.
fn put_ids(ids: &[Option<u32>], out: &mut Answer) {
    for id in ids {
        match id {
            Some(id) => out.label(" ", id),
            None => out.put(" -"),
        }
    }
}

/// Puts a plan: the ids at the fall-through into each instruction, those at the branches of each, and the next id.
fn put_plan(plan: &Plan, out: &mut Answer) {
    out.put("into");
    put_ids(&plan.lead, out);
    out.put("; out of");
    for ids in plan.out.as_slice() {
        put_ids(ids, out);
        out.put(",");
    }
    out.label(" next ", &plan.next);
}

/// The plan of the method with this number, from this id on.
pub fn planned(
    alloc: Global,
    class: &[u8],
    method: u32,
    first: &str,
    out: &mut Answer,
) -> Option<()> {
    let first = number::<u32>(first, out)?;
    let mut names = out.got(Names::new(alloc))?;
    let body = body_of(alloc, class, method, &mut names, out)?;
    if first > GREATEST_FIRST {
        return out.wrong("no such id");
    }
    let plan = out.got(plan(alloc, &body, first))?;
    put_plan(&plan, out);
    Some(())
}

/// Puts branches, each behind its number.
fn put_all(branches: &[Branch], out: &mut Answer) {
    for branch in branches {
        out.separate("; ");
        out.show(&branch.number);
        match branch.way {
            Way::Falls(to) => out.label(" falls to ", &to),
            Way::Jumps(to) => out.label(" jumps to ", &to),
            Way::Switches(to) => out.label(" switches to ", &to),
            Way::Exits => out.put(" exits"),
        }
    }
}

/// Whether the instruction has few enough targets.
fn has_few_targets(insn: &Insn) -> bool
    ensures { IsTrue result → length (targets_of insn.now) < 2 ^ 32 }
{
    match insn {
        Insn::Table { arms, .. } => arms.len() < 65_536,
        Insn::Lookup { arms, .. } => arms.len() < 65_536,
        _ => true,
    }
}

/// Puts the branches of an instruction with this number.
fn branches_of(alloc: Global, at: u32, insn: &Insn, out: &mut Answer) -> Option<()> {
    if at == u32::MAX || !has_few_targets(insn) {
        return out.wrong("no such instruction");
    }
    let mut branches = Vec::new(alloc);
    let outcome = put_branches(alloc, &mut branches, at, insn);
    out.got(outcome)?;
    put_all(&branches, out);
    Some(())
}

/// The branches of an instruction of the method with this number.
pub fn all_branches(
    alloc: Global,
    class: &[u8],
    method: u32,
    at: &str,
    out: &mut Answer,
) -> Option<()> {
    let at = number::<u32>(at, out)?;
    let mut names = out.got(Names::new(alloc))?;
    let body = body_of(alloc, class, method, &mut names, out)?;
    match body.code.get(at as usize) {
        Some(insn) => branches_of(alloc, at, insn, out),
        None => out.wrong("no such instruction"),
    }
}
