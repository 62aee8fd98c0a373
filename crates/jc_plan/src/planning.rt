//! Where the probes of a method stand.
ghost use Rattle.std.specs.Prelude.{◌≡◌, ◌+◌, ◌<◌, ◌≤◌, ◌^◌, ◌&&◌, ◌||◌, not, [], ◌∷◌, map, length, IfOk};
ghost use Rattle.std.specs.List.{count_by};
ghost use Rattle.jc_methods.specs.Flow.{targets_of};
ghost use Rattle.jc_bytes.specs.PlainLists.{places};
ghost use Rattle.jc_methods.specs.WellMade.{IsWellMadeOfAnySize};
ghost use Rattle.jc_plan.specs.declared.branch.Way.TheVariants.{Falls};
ghost use Rattle.jc_plan.specs.Edges.{branches_of};
ghost use Rattle.jc_plan.specs.Entries.{one_if, is_multi_target};
ghost use Rattle.jc_plan.specs.InsnFacts.{has_probe, ids_from};
ghost use Rattle.jc_plan.specs.Probed.{id_if, is_probed_way};
ghost use Rattle.jc_plan.specs.Plan.{plan_of};

use crate::branch::{Branch, Way, put_branches};
use crate::entries::{falls, multi_targets};
use crate::lines::lines_that_call;
use jc_bytes::{List, Memory};
use jc_methods::{Body, Insn, Plan};
use std::alloc::Global;

/// The next id, if there is a probe for it.
fn take_id(next: &mut u32, probed: bool) -> Option<u32>
    requires { next.old + 1 < 2 ^ 32 }
    ensures id { result ≡ id_if probed next.old }
    ensures next { next.new ≡ next.old + one_if probed }
{
    if !probed {
        return None;
    }
    let id = *next;
    *next += 1;
    Some(id)
}

/// Whether the branch has a probe at its own instruction: a sequence has none there.
fn has_probe(way: Way, multi_targets: &[bool]) -> bool
    ensures { result ≡ has_probe multi_targets.now way }
{
    match way {
        Way::Falls(_) => false,
        Way::Jumps(to) | Way::Switches(to) => multi_targets
            .get(to as usize)
            .copied()
            .unwrap_or(false),
        Way::Exits => true,
    }
}

/// The probes of an instruction's branches, by the branches.
fn out_probes(
    alloc: Global,
    branches: &[Branch],
    multi_targets: &[bool],
    next: &mut u32,
) -> Result<List<Option<u32>>, Memory>
    requires { next.old + length branches.now < 2 ^ 32 }
    ensures probes { IfOk result (λ probes. probes ≡ ids_from (has_probe multi_targets.now) next.old branches.now) }
    ensures next { IfOk result (λ _. next.new ≡ next.old + count_by (λ x. has_probe multi_targets.now x.way) branches.now) }
{
    let mut probes = List::from_vec(Vec::with_capacity(alloc, branches.len())?);
    'numbering: for branch in branches {
        probes.push(take_id(next, has_probe(branch.way, multi_targets)))?;
    }
    Ok(probes)
}

/// The probe of the one branch of an instruction that is no jump and no switch.
fn single_probe(
    alloc: Global,
    falls_through: bool,
    next: &mut u32,
) -> Result<List<Option<u32>>, Memory>
    requires { next.old + 1 < 2 ^ 32 }
    ensures probes { IfOk result (λ probes. probes ≡ id_if (not falls_through) next.old ∷ []) }
    ensures next { IfOk result (λ _. next.new ≡ next.old + one_if (not falls_through)) }
{
    let mut probes = List::from_vec(Vec::with_capacity(alloc, 1)?);
    probes.push(take_id(next, !falls_through))?;
    Ok(probes)
}

/// The probes of an instruction's branches. If it is a jump or a switch, these take the place of what stood in the
/// list.
fn insn_probes(
    alloc: Global,
    branches: &mut Vec<Branch>,
    at: u32,
    insn: &Insn,
    multi_targets: &[bool],
    next: &mut u32,
) -> Result<List<Option<u32>>, Memory>
    requires at { at + 1 < 2 ^ 32 }
    requires targets { length (targets_of insn.now) < 2 ^ 32 }
    requires room { next.old + 1 + length (branches_of at insn.now) < 2 ^ 32 }
    ensures probes { IfOk result (λ probes. probes ≡ ids_from (has_probe multi_targets.now) next.old (branches_of at insn.now)) }
    ensures next { IfOk result (λ _. next.new ≡ next.old + count_by (λ x. has_probe multi_targets.now x.way) (branches_of at insn.now)) }
{
    match insn {
        Insn::Jump { .. } | Insn::Table { .. } | Insn::Lookup { .. } => {
            branches.clear();
            put_branches(alloc, branches, at, insn)?;
            out_probes(alloc, branches, multi_targets, next)
        }
        _ => single_probe(alloc, insn.falls_through(), next),
    }
}

/// Whether the fall-through into an instruction has a probe.
fn is_probed_lead(fallen_into: bool, multi_target: bool, line_calls: bool) -> bool
    ensures { result ≡ (fallen_into && (multi_target || line_calls)) }
{
    fallen_into && (multi_target || line_calls)
}

/// For each instruction, whether the fall-through into it has a probe: it is a multi-target, or a line
/// that calls starts there.
fn probed_leads(alloc: Global, body: &Body, multi_targets: &[bool]) -> Result<Vec<bool>, Memory>
    requires made { IsWellMadeOfAnySize body.now }
    requires marks { multi_targets.now ≡ map (is_multi_target body.now) (places body.now.code) }
    ensures { IfOk result (λ marks. marks.items ≡ map (λ i. is_probed_way body.now (Falls i)) (places body.now.code)) }
{
    let calling = lines_that_call(alloc, &body.code, &body.lines)?;
    let mut marks = Vec::with_capacity(alloc, body.code.len())?;
    let mut fallen_into = false;
    'marking: for (at, insn) in body.code.iter().enumerate() {
        marks.push(is_probed_lead(fallen_into, multi_targets[at], calling[at]))?;
        fallen_into = falls(insn);
    }
    Ok(marks)
}

/// Where the probes of a method stand, and their ids: from `first` on, in code order, at each
/// instruction that of the fall-through into it and then those of its own branches.
///
/// A fall-through has a probe where it leads to a multi-target or to a line that calls, a jump and a
/// target of a switch where it leads to a multi-target, and an exit always. An instruction is a
/// multi-target where two entries are aimed at it, or one where the instruction in front of it may
/// go on to it. Entries are those into the first instruction, into the start and the handler of
/// each exception row, by each jump, and by each switch once.
///
/// # Errors
///
/// `Memory` where memory was refused.
pub fn plan(alloc: Global, body: &Body, first: u32) -> Result<Plan, Memory>
    requires made { IsWellMadeOfAnySize body.now }
    requires first { first ≤ 268435456 }
    ensures { IfOk result (λ plan. plan ≡ plan_of body.now first) }
{
    let multi_targets = multi_targets(alloc, body)?;
    let probed = probed_leads(alloc, body, &multi_targets)?;
    let mut next = first;
    let mut lead = List::from_vec(Vec::with_capacity(alloc, body.code.len())?);
    let mut out = List::from_vec(Vec::with_capacity(alloc, body.code.len())?);
    let mut branches = Vec::new(alloc);
    'planning: for (at, insn) in body.code.iter().enumerate() {
        lead.push(take_id(&mut next, probed[at]))?;
        out.push(insn_probes(
            alloc,
            &mut branches,
            at as u32,
            insn,
            &multi_targets,
            &mut next,
        )?)?;
    }
    Ok(Plan { lead, out, next })
}
