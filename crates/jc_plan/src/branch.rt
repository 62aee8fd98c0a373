//! The branches of instructions.
ghost use Rattle.std.specs.Prelude.{◌≡◌, ◌+◌, ◌<◌, ◌^◌, ◌++◌, length, OnOk, IfOk};
ghost use Rattle.jc_bytes.specs.PlainLists.{map_from};
ghost use Rattle.jc_methods.specs.Flow.{targets_of};
ghost use Rattle.jc_methods.specs.WellMade.{IsCode};
ghost use Rattle.jc_plan.specs.Edges.{sequence, jump, arm, exit, branches_of, branches};

use jc_bytes::Memory;
use jc_methods::Insn;
use std::alloc::{AllocError, Global};

/// How a branch goes on.
#[derive(Clone, Copy, Debug, PartialEq, Eq)]
pub enum Way {
    /// The next instruction follows in sequence.
    Falls(u32),
    /// `goto` or a conditional jump jumps.
    Jumps(u32),
    /// A switch jumps.
    Switches(u32),
    /// A return or `athrow` leaves the method.
    Exits,
}

/// A branch of an instruction.
#[derive(Clone, Copy, Debug, PartialEq, Eq)]
pub struct Branch {
    /// The instruction.
    pub at: u32,
    /// The number of the branch among those of the instruction.
    pub number: u32,
    pub way: Way,
}

/// The branch to the next instruction.
fn sequence(at: u32) -> Branch
    requires { at + 1 < 2 ^ 32 }
    ensures { result ≡ sequence at }
{
    Branch {
        at,
        number: 0,
        way: Way::Falls(at + 1),
    }
}

/// The branch of a jump.
fn jump(at: u32, to: u32) -> Branch
    ensures { result ≡ jump at to }
{
    Branch {
        at,
        number: 1,
        way: Way::Jumps(to),
    }
}

/// The branch out of the method.
fn exit(at: u32) -> Branch
    ensures { result ≡ exit at }
{
    Branch {
        at,
        number: 0,
        way: Way::Exits,
    }
}

/// Puts the branches of a switch at the end: one for each of its different targets.
fn put_arms(list: &mut Vec<Branch>, at: u32, targets: &[u32]) -> Result<(), AllocError>
    requires { length targets.now < 2 ^ 32 }
    ensures { OnOk result (list.new.items ≡ list.old.items ++ map_from (arm at) 0 targets.now) }
{
    'putting: for (number, to) in targets.iter().enumerate() {
        list.push(Branch {
            at,
            number: number as u32,
            way: Way::Switches(*to),
        })?;
    }
    Ok(())
}

/// Puts the branches of an instruction at the end, in the order of their numbers.
pub fn put_branches(
    alloc: Global,
    list: &mut Vec<Branch>,
    at: u32,
    insn: &Insn,
) -> Result<(), Memory>
    requires at { at + 1 < 2 ^ 32 }
    requires targets { length (targets_of insn.now) < 2 ^ 32 }
    ensures { OnOk result (list.new.items ≡ list.old.items ++ branches_of at insn.now) }
{
    match insn {
        Insn::Jump { to, .. } => {
            if insn.falls_through() {
                list.push(sequence(at))?;
            }
            list.push(jump(at, *to))?;
        }
        Insn::Table { .. } | Insn::Lookup { .. } => {
            put_arms(list, at, &insn.distinct_targets(alloc)?)?;
        }
        _ => {
            let branch = if insn.falls_through() {
                sequence(at)
            } else {
                exit(at)
            };
            list.push(branch)?;
        }
    }
    Ok(())
}

/// The branches of the code, by instruction and then by number.
pub fn branches(alloc: Global, code: &[Insn]) -> Result<Vec<Branch>, Memory>
    requires { IsCode code.now }
    ensures { IfOk result (λ list. list.items ≡ branches code.now) }
{
    let mut list = Vec::new(alloc);
    'listing: for (at, insn) in code.iter().enumerate() {
        put_branches(alloc, &mut list, at as u32, insn)?;
    }
    Ok(list)
}
