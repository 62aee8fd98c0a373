//! How many entries are aimed at each instruction, and which are multi-targets.
ghost use Rattle.std.specs.Prelude.{◌≡◌, ◌+◌, ◌*◌, ◌<◌, ◌≤◌, ◌^◌, ℕ, All, map, length};
ghost use Rattle.std.specs.Prelude.{replicate, slice_index, IfOk, OnOk, nat_eq, nat_le, ◌&&◌, ◌||◌};
ghost use Rattle.std.specs.List.{count_by};
ghost use Rattle.jc_bytes.specs.PlainLists.{places};
ghost use Rattle.jc_methods.specs.Flow.{flow_of, targets_of, goes_on};
ghost use Rattle.jc_methods.specs.InsnUse.{LeadsWithin};
ghost use Rattle.jc_methods.specs.WellMade.{IsHandler, IsWellMadeOfAnySize, insns_and_arms};
ghost use Rattle.jc_plan.specs.Edges.{branches, branches_of};
ghost use Rattle.jc_plan.specs.Entries.{one_if, entries, is_multi_target};
ghost use Rattle.jc_plan.specs.InsnFacts.{enters, EntersWithin};

use crate::branch::{Branch, Way, put_branches};
use jc_bytes::Memory;
use jc_methods::{Body, Handler, Insn};
use std::alloc::Global;

/// Counts an entry more at the place.
fn count_entry(counts: &mut [usize], place: u32)
    requires place { place < length counts.old }
    requires room { slice_index counts.old place + 1 < 2 ^ 64 }
    ensures length { length counts.new ≡ length counts.old }
    ensures each { (i : ℕ) → slice_index counts.new i ≡ slice_index counts.old i + one_if (nat_eq place i) }
{
    counts[place as usize] += 1;
}

/// Counts the entries of exception rows: at the start of each, and at its handler.
fn count_rows(counts: &mut [usize], rows: &[Handler])
    requires within { All (IsHandler (length counts.old)) rows.now }
    requires room { (i : ℕ) → slice_index counts.old i + 2 * length rows.now < 2 ^ 64 }
    ensures { (i : ℕ) → slice_index counts.new i
        ≡ slice_index counts.old i + count_by (λ row. nat_eq row.start i) rows.now + count_by (λ row. nat_eq row.target i) rows.now }
{
    'counting: for row in rows {
        count_entry(counts, row.start);
        count_entry(counts, row.target);
    }
}

/// Counts the entries by jumps and switches.
fn count_branches(counts: &mut [usize], branches: &[Branch])
    requires within { All (EntersWithin (length counts.old)) branches.now }
    requires room { (i : ℕ) → slice_index counts.old i + length branches.now < 2 ^ 64 }
    ensures { (i : ℕ) → slice_index counts.new i ≡ slice_index counts.old i + count_by (enters i) branches.now }
{
    'counting: for branch in branches {
        if let Way::Jumps(to) | Way::Switches(to) = branch.way {
            count_entry(counts, to);
        }
    }
}

/// Counts the entries by one instruction: by its branches, which take the place of what stood in the list, if it is a
/// jump or a switch.
fn count_insn(
    alloc: Global,
    counts: &mut [usize],
    list: &mut Vec<Branch>,
    at: u32,
    insn: &Insn,
) -> Result<(), Memory>
    requires at { at + 1 < 2 ^ 32 }
    requires targets { length (targets_of insn.now) < 2 ^ 32 }
    requires within { All (EntersWithin (length counts.old)) (branches_of at insn.now) }
    requires room { (i : ℕ) → slice_index counts.old i + length (branches_of at insn.now) < 2 ^ 64 }
    ensures { OnOk result ((i : ℕ) → slice_index counts.new i ≡ slice_index counts.old i + count_by (enters i) (branches_of at insn.now)) }
{
    match insn {
        Insn::Jump { .. } | Insn::Table { .. } | Insn::Lookup { .. } => {
            list.clear();
            put_branches(alloc, list, at, insn)?;
            count_branches(counts, list);
            Ok(())
        }
        _ => Ok(()),
    }
}

/// Counts the entries by the jumps and the switches of the code.
fn count_code(alloc: Global, counts: &mut [usize], code: &[Insn]) -> Result<(), Memory>
    requires few { insns_and_arms code.now ≤ 65535 }
    requires within { All (LeadsWithin (length counts.old)) code.now }
    requires room { (i : ℕ) → slice_index counts.old i + length (branches code.now) < 2 ^ 64 }
    ensures { OnOk result ((i : ℕ) → slice_index counts.new i ≡ slice_index counts.old i + count_by (enters i) (branches code.now)) }
{
    let mut list = Vec::new(alloc);
    'counting: for (at, insn) in code.iter().enumerate() {
        count_insn(alloc, counts, &mut list, at as u32, insn)?;
    }
    Ok(())
}

/// Counts the entries of a body, where none is counted yet.
fn count_entries(alloc: Global, counts: &mut [usize], body: &Body) -> Result<(), Memory>
    requires made { IsWellMadeOfAnySize body.now }
    requires none { counts.old ≡ replicate (length body.now.code) 0 }
    requires size { length counts.old ≡ length body.now.code }
    ensures { OnOk result (counts.new ≡ map (entries body.now) (places body.now.code)) }
{
    count_entry(counts, 0);
    count_rows(counts, &body.handlers);
    count_code(alloc, counts, &body.code)?;
    Ok(())
}

/// How many entries are aimed at each instruction.
fn entry_counts(alloc: Global, body: &Body) -> Result<Vec<usize>, Memory>
    requires { IsWellMadeOfAnySize body.now }
    ensures { IfOk result (λ counts. counts.items ≡ map (entries body.now) (places body.now.code)) }
{
    let mut counts = vec![in alloc; 0; body.code.len()]?;
    count_entries(alloc, &mut counts, body)?;
    Ok(counts)
}

/// Whether the next instruction may follow in sequence.
pub fn falls(insn: &Insn) -> bool
    ensures { result ≡ goes_on (flow_of insn.now) }
{
    insn.falls_through()
}

/// Whether an instruction is a multi-target, from the number of entries that are aimed at it.
fn is_multi_target(count: usize, fallen_into: bool) -> bool
    ensures { result ≡ (nat_le 2 count || (nat_le 1 count && fallen_into)) }
{
    count >= 2 || (count >= 1 && fallen_into)
}

/// For each instruction, whether two entries are aimed at it, or one where the instruction in front
/// of it may go on to it.
pub fn multi_targets(alloc: Global, body: &Body) -> Result<Vec<bool>, Memory>
    requires { IsWellMadeOfAnySize body.now }
    ensures { IfOk result (λ marks. marks.items ≡ map (is_multi_target body.now) (places body.now.code)) }
{
    let counts = entry_counts(alloc, body)?;
    let mut marks = Vec::with_capacity(alloc, body.code.len())?;
    let mut fallen_into = false;
    'marking: for (at, insn) in body.code.iter().enumerate() {
        marks.push(is_multi_target(counts[at], fallen_into))?;
        fallen_into = falls(insn);
    }
    Ok(marks)
}
