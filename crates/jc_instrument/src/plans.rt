//! The plans of the bodies of a class.
ghost use Rattle.std.specs.Prelude.{◌≡◌, ◌≤◌, All, IfOk};
ghost use Rattle.jc_bytes.specs.Reader.{most_read};
ghost use Rattle.jc_methods.specs.WellMade.{IsWellMade};
ghost use Rattle.jc_plan.specs.Analysed.{plans_of, all_probes, all_insns_and_arms};

use jc_bytes::{List, Memory};
use jc_methods::{Body, Plan};
use jc_plan::plan;
use std::alloc::Global;

/// The plans of bodies, one behind the other.
#[derive(Debug, Drop)]
pub struct Planned {
    /// The plan of each body.
    pub plans: List<Plan>,
    /// How many probes there are.
    pub probes: u32,
}

/// The plan of each body, with ids from 0 on, those of each body behind those of the bodies in front of it.
pub fn plans_of(alloc: Global, bodies: &[Body]) -> Result<Planned, Memory>
    requires made { All IsWellMade bodies.now }
    requires few { all_insns_and_arms bodies.now ≤ most_read }
    ensures plans { IfOk result (λ planned. planned.plans ≡ plans_of bodies.now) }
    ensures probes { IfOk result (λ planned. planned.probes ≡ all_probes bodies.now) }
{
    let mut plans = List::from_vec(Vec::with_capacity(alloc, bodies.len())?);
    let mut first = 0;
    'planning: for body in bodies {
        let next = plan(alloc, body, first)?;
        first = next.next;
        plans.push(next)?;
    }
    Ok(Planned {
        plans,
        probes: first,
    })
}
