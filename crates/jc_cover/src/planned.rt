//! The branches of a body's instructions with their probes.
ghost use Rattle.std.specs.Prelude.{◌≡◌, ◌+◌, ◌<◌, ◌^◌, ℕ, length, IfOk};
ghost use Rattle.jc_methods.specs.Flow.{targets_of};
ghost use Rattle.jc_methods.specs.WellMade.{IsCode};
ghost use Rattle.jc_plan.specs.Edges.{place_of};
ghost use Rattle.jc_plan.specs.Plan.{plan_of};
ghost use Rattle.jc_plan.specs.ByBranch.{planned};
ghost use Rattle.jc_cover.specs.Planned.{read_branches, body_branches, free_place};

use jc_bytes::{List, Memory};
use jc_methods::{Body, Insn, Plan};
use jc_plan::{Branch, Way, put_branches};
use std::alloc::Global;

/// A branch of an instruction.
#[derive(Clone, Copy, Debug, PartialEq, Eq)]
pub struct PlannedBranch {
    /// The instruction to which it leads, or nothing where it leaves the method.
    pub to: Option<u32>,
    /// The id of its probe, if it has one.
    pub probe: Option<u32>,
}

/// Where a branch leads, if it doesn't leave the method.
fn place(way: Way) -> Option<u32>
    ensures { result ≡ place_of way }
{
    match way {
        Way::Falls(to) | Way::Jumps(to) | Way::Switches(to) => Some(to),
        Way::Exits => None,
    }
}

/// The probe of a branch by the plan; `k` is its place among those of its instruction.
fn probe(plan: &Plan, branch: Branch, k: usize) -> Option<u32>
    ensures { result ≡ planned plan.now branch k }
{
    match branch.way {
        Way::Falls(to) => *plan.lead.get(to as usize)?,
        Way::Jumps(_) | Way::Switches(_) | Way::Exits => *plan.out.get(branch.at as usize)?.get(k)?,
    }
}

/// The branches of an instruction by the plan, in the order of their numbers.
fn read_branches(
    alloc: Global,
    plan: &Plan,
    at: u32,
    insn: &Insn,
) -> Result<List<PlannedBranch>, Memory>
    requires at { at + 1 < 2 ^ 32 }
    requires targets { length (targets_of insn.now) < 2 ^ 32 }
    ensures { IfOk result (λ list. list ≡ read_branches plan.now at insn.now) }
{
    let mut branches = Vec::new(alloc);
    put_branches(alloc, &mut branches, at, insn)?;
    let mut list = List::new(alloc);
    'reading: for (k, branch) in branches.iter().enumerate() {
        list.push(PlannedBranch {
            to: place(branch.way),
            probe: probe(plan, *branch, k),
        })?;
    }
    Ok(list)
}

/// The branches of each instruction of a body whose first id is `first`.
pub fn body_branches(
    alloc: Global,
    body: &Body,
    plan: &Plan,
) -> Result<Vec<List<PlannedBranch>>, Memory>
    ghost first: { ℕ }
    requires made { IsCode body.now.code }
    requires plan { plan.now ≡ plan_of body.now first }
    ensures { IfOk result (λ list. list.items ≡ body_branches body.now first) }
{
    let mut list = Vec::new(alloc);
    'reading: for (at, insn) in body.code.iter().enumerate() {
        list.push(read_branches(alloc, plan, at as u32, insn)?)?;
    }
    Ok(list)
}

impl PlannedBranch {
    /// Where the branch leads, if it has no probe.
    pub fn free_place(&self) -> Option<u32>
        ensures { result ≡ free_place self.now }
    {
        match self.probe {
            Some(_) => None,
            None => self.to,
        }
    }
}
