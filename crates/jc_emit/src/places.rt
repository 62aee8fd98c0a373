//! Where the instructions of an instrumented method without wide jumps stand.
ghost use Rattle.std.specs.Prelude.{◌≡◌, ◌≤◌, ◌+◌, ◌*◌, [], ◌∷◌, ◌++◌, ℕ, length, IfOk, OnOk};
ghost use Rattle.std.specs.List.{sum_by};
ghost use Rattle.jc_methods.specs.ProbeMembers.{most_probes};
ghost use Rattle.jc_methods.specs.WellMade.{IsWellMadeOfAnySize};
ghost use Rattle.jc_emit.specs.Branching.{early_in, late_in, behind_in};
ghost use Rattle.jc_emit.specs.Marks.{prelude_size};
ghost use Rattle.jc_emit.specs.Sizes.{probe_size, hop_size};

use jc_bytes::Memory;
use jc_methods::{Body, Fetch, Flow, Plan};
use std::alloc::Global;

/// Where the instructions of an instrumented method without wide jumps stand: one entry for each instruction of the
/// method, and one for its end.
#[derive(Debug, Drop)]
pub struct Places {
    /// Where a fall-through into the instruction leads.
    pub(crate) leads: Vec<u32>,
    /// Where a jump to the instruction lands.
    pub(crate) lands: Vec<u32>,
    /// Where the image of the instruction stands.
    pub(crate) images: Vec<u32>,
}

/// How many instructions stand in front of what belongs to the first one: those that get the array of probes, and the
/// store.
fn prelude_size(fetch: Fetch) -> u32
    ensures value { result ≡ prelude_size fetch }
    ensures small { result ≤ 3 }
{
    match fetch {
        Fetch::Member => 2,
        Fetch::Constant => 3,
    }
}

/// How many instructions a probe has.
fn probe_size(id: Option<u32>) -> u32
    ensures value { result ≡ probe_size id }
    ensures small { result ≤ 4 }
{
    match id {
        Some(_) => 4,
        None => 0,
    }
}

/// How many instructions a probe and the goto behind it have.
pub(crate) fn hop_size(id: Option<u32>) -> u32
    ensures value { result ≡ hop_size id }
    ensures small { result ≤ 5 }
{
    match id {
        Some(_) => 5,
        None => 0,
    }
}

/// How many instructions these probes have, each with a goto behind it.
pub(crate) fn hop_sizes(ids: &[Option<u32>]) -> u32
    requires { length ids.now ≤ 65536 }
    ensures value { result ≡ sum_by hop_size ids.now }
    ensures small { result ≤ 5 * length ids.now }
{
    let mut size = 0;
    'adding: for id in ids {
        size += hop_size(*id);
    }
    size
}

/// The probe of a goto, a return or an athrow, from the probes of its branches.
pub(crate) fn early_id(flow: Flow, ids: &[Option<u32>]) -> Option<u32>
    ensures { result ≡ early_in flow ids.now }
{
    match flow {
        Flow::Jumps | Flow::Returns | Flow::Throws => ids.first().copied().unwrap_or(None),
        Flow::GoesOn | Flow::Branches | Flow::Switches => None,
    }
}

/// The probe of the jump of a conditional jump, from the probes of its branches.
pub(crate) fn late_id(flow: Flow, ids: &[Option<u32>]) -> Option<u32>
    ensures { result ≡ late_in flow ids.now }
{
    match flow {
        Flow::Branches => ids.get(1).copied().unwrap_or(None),
        Flow::GoesOn | Flow::Jumps | Flow::Switches | Flow::Returns | Flow::Throws => None,
    }
}

/// How many instructions stand behind the image of an instruction and belong to it.
fn behind_size(flow: Flow, ids: &[Option<u32>]) -> u32
    requires { length ids.now ≤ 65536 }
    ensures value { result ≡ behind_in flow ids.now }
    ensures small { result ≤ 5 * length ids.now }
{
    match flow {
        Flow::Branches | Flow::Switches => hop_sizes(ids),
        Flow::GoesOn | Flow::Jumps | Flow::Returns | Flow::Throws => 0,
    }
}

impl Places {
    ghost use Rattle.jc_plan.specs.Plan.{plan_of};
    ghost use Rattle.jc_emit.specs.Placing.{HasPlan, ArePlaces};
    ghost use Rattle.jc_emit.specs.Branching.{AreSmall};

    /// None yet, with room for so many entries.
    fn with_room(alloc: Global, count: usize) -> Result<Places, Memory>
        ensures leads { IfOk result (λ places. places.leads.items ≡ []) }
        ensures lands { IfOk result (λ places. places.lands.items ≡ []) }
        ensures images { IfOk result (λ places. places.images.items ≡ []) }
    {
        Ok(Places {
            leads: Vec::with_capacity(alloc, count)?,
            lands: Vec::with_capacity(alloc, count)?,
            images: Vec::with_capacity(alloc, count)?,
        })
    }

    /// How many instructions stand in front of the end.
    pub(crate) fn count(&self) -> usize {
        match self.leads.last() {
            Some(end) => *end as usize,
            None => 0,
        }
    }

    /// Puts the places of an instruction at the ends.
    fn put(&mut self, lead: u32, land: u32, image: u32) -> Result<(), Memory>
        ensures leads { OnOk result (self.new.leads.items ≡ self.old.leads.items ++ lead ∷ []) }
        ensures lands { OnOk result (self.new.lands.items ≡ self.old.lands.items ++ land ∷ []) }
        ensures images { OnOk result (self.new.images.items ≡ self.old.images.items ++ image ∷ []) }
    {
        self.leads.push(lead)?;
        self.lands.push(land)?;
        self.images.push(image)?;
        Ok(())
    }

    /// Where the instructions of an instrumented method stand. That takes time in proportion to the
    /// instructions and the arms of switches.
    ///
    /// # Errors
    ///
    /// `Memory` where memory was refused.
    pub(crate) fn of(
        alloc: Global,
        body: &Body,
        plan: &Plan,
        fetch: Fetch,
    ) -> Result<Places, Memory>
        requires made { IsWellMadeOfAnySize body.now }
        requires plan { HasPlan body.now plan.now }
        requires next { plan.now.next ≤ most_probes }
        ensures places { (first : ℕ) → plan.now ≡ plan_of body.now first → IfOk result (ArePlaces body.now first fetch) }
        ensures small { IfOk result AreSmall }
    {
        let mut places = Places::with_room(alloc, body.code.len() + 1)?;
        let mut here = prelude_size(fetch);
        'placing: for (at, insn) in body.code.iter().enumerate() {
            let flow = insn.flow();
            let ids = plan.out[at].as_slice();
            let land = here + probe_size(plan.lead[at]);
            let image = land + probe_size(early_id(flow, ids));
            places.put(here, land, image)?;
            here = image + 1 + behind_size(flow, ids);
        }
        places.put(here, here, here)?;
        Ok(places)
    }
}
