//! The edges of a method's flow graph.
ghost use Rattle.std.specs.Prelude.{◌≡◌, IfOk};
ghost use Rattle.jc_methods.specs.WellMade.{IsWellMadeOfAnySize};
ghost use Rattle.jc_plan.specs.Edges.{place_of, edge_of, edges};

use crate::branch::{Branch, Way, branches};
use jc_bytes::Memory;
use jc_methods::{Body, Edge};
use std::alloc::Global;

/// Where a branch leads, if it doesn't leave the method.
fn place(way: Way) -> Option<u32>
    ensures { result ≡ place_of way }
{
    match way {
        Way::Falls(to) | Way::Jumps(to) | Way::Switches(to) => Some(to),
        Way::Exits => None,
    }
}

/// The branch as an edge of the method with this number.
fn edge_of(method: u16, branch: &Branch) -> Edge
    ensures { result ≡ edge_of method branch.now }
{
    Edge {
        method,
        at: branch.at,
        branch: branch.number,
        to: place(branch.way),
    }
}

/// The edges of the flow graph of a method, by instruction and then by branch number. The nodes
/// of the graph are the instructions (JVM Specification 2.11.7, 6.5).
///
/// A sequence to the next instruction and an exit by a return or `athrow` have number 0, and a jump
/// has number 1. In a switch the default's target is number 0, and each target that is new among
/// the arms, in their order, is the next number. Edges into exception handlers are not listed.
///
/// # Errors
///
/// `Memory` where memory was refused.
pub fn edges(alloc: Global, body: &Body) -> Result<Vec<Edge>, Memory>
    requires { IsWellMadeOfAnySize body.now }
    ensures { IfOk result (λ list. list.items ≡ edges body.now) }
{
    let method = body.method;
    let list: Vec<Edge> = branches(alloc, &body.code)?
        .iter()
        .map(|branch| edge_of(method, branch))
        .collect(alloc)?;
    Ok(list)
}
