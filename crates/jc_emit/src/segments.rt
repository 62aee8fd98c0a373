//! The code of an instrumented method, from what belongs to each instruction of the method.
ghost use Rattle.std.specs.Prelude.{◌≡◌, ◌<◌, ◌≤◌, ◌+◌, ℕ, length, slice_index, IfOk, OnOk};
ghost use Rattle.jc_methods.specs.Flow.{flow_of};
ghost use Rattle.jc_methods.specs.Insn.{IsWellFormed};
ghost use Rattle.jc_methods.specs.InsnUse.{LeadsWithin};
ghost use Rattle.jc_methods.specs.ProbeMembers.{most_probes, most_short};
ghost use Rattle.jc_methods.specs.WellMade.{IsWellMadeOfAnySize};
ghost use Rattle.jc_methods.specs.declared.body.Body.{Body as MethodBody};
ghost use Rattle.jc_methods.specs.declared.insn.Flow.TheVariants as flows;
ghost use Rattle.jc_methods.specs.declared.probe_members.Fetch.{Fetch as Fetching};
ghost use Rattle.jc_plan.specs.Plan.{plan_of};
ghost use Rattle.jc_emit.specs.Branching.{IsPushed, test_image};
ghost use Rattle.jc_emit.specs.Items.{tests_part};
ghost use Rattle.jc_emit.specs.Placing.{HasPlan, ArePlaces, ArePlacesFor};
ghost use Rattle.jc_emit.specs.Sizes.{narrow, insn_at};
ghost use Rattle.jc_emit.specs.Writing.{GrowsFrom, GrowsByImageOf, GrowsBySegmentOf, ShowsTwin, CanWrite};

use crate::image::{inverted, jump_target, led, moved};
use crate::places::{Places, early_id, late_id};
use crate::switches::{put_arms, set_arms};
use crate::written::{ProbeSource, Written};
use jc_bytes::{Memory, TryClone};
use jc_methods::{Body, Fetch, Flow, Insn, Plan};
use std::alloc::Global;

/// What the code of an instrumented method is made from.
#[derive(Clone, Copy)]
pub(crate) struct CodeSource<'a> {
    pub(crate) body: &'a Body,
    pub(crate) plan: &'a Plan,
    pub(crate) fetch: Fetch,
    /// The places of the Integers of ids.
    pub(crate) constants: &'a [u16],
    pub(crate) places: &'a Places,
}

impl<'a> CodeSource<'a> {
    /// Where the probes of the method find what they need.
    fn probes(&self) -> ProbeSource<'a>
        ensures slot { result.slot ≡ self.now.body.now.arg_slots }
        ensures constants { result.constants.now ≡ self.now.constants.now }
    {
        ProbeSource {
            slot: self.body.arg_slots,
            constants: self.constants,
        }
    }
}

/// A conditional jump of a method, and the probe of its jump.
#[derive(Clone, Copy)]
struct ConditionalJump<'a> {
    insn: &'a Insn,
    late: Option<u32>,
}

/// The image of a conditional jump: with a probe of its jump the inverse, which leads to where the
/// fall-through leads, so that the probe is passed only where the jump is taken.
fn test_image(
    alloc: Global,
    places: &Places,
    at: u32,
    jump: ConditionalJump<'_>,
) -> Result<Insn, Memory>
    requires test { flow_of jump.insn.now ≡ flows.Branches }
    requires formed { IsWellFormed jump.insn.now }
    requires next { at + 1 < length places.now.leads.items }
    requires within { LeadsWithin (length places.now.lands.items) jump.insn.now }
    ensures { IfOk result (λ image. image
        ≡ test_image (slice_index places.now.lands.items) (slice_index places.now.leads.items (at + 1)) jump.entry.insn.now jump.entry.late) }
{
    match jump.late {
        Some(_) => inverted(alloc, jump.insn, places.leads[at as usize + 1]),
        None => led(alloc, &places.lands, jump.insn),
    }
}

/// Puts what belongs to a conditional jump from its image on: the image, and the probe of the jump with
/// a goto to where jumps to the target land.
fn put_test(
    alloc: Global,
    written: &mut Written,
    probes: ProbeSource<'_>,
    places: &Places,
    at: u32,
    jump: ConditionalJump<'_>,
) -> Result<(), Memory>
    requires test { flow_of jump.insn.now ≡ flows.Branches }
    requires formed { IsWellFormed jump.insn.now }
    requires next { at + 1 < length places.now.leads.items }
    requires within { LeadsWithin (length places.now.lands.items) jump.insn.now }
    requires pushed { IsPushed (length probes.constants.now) jump.late }
    ensures { (b : MethodBody) (first : ℕ) (fetch : Fetching) → ArePlaces b first fetch places.now
        → OnOk result (GrowsFrom probes.entry written.old written.new (tests_part b first (narrow fetch) at jump.entry.insn.now jump.entry.late)) }
{
    written.put_image(test_image(alloc, places, at, jump)?, at)?;
    let to = jump_target(jump.insn);
    written.put_behind(probes, jump.late, to, places.lands[to as usize])?;
    Ok(())
}

/// Puts what belongs to a switch from its image on: the image, which leads to the arm place of each
/// target that has a probe, and these probes, each with a goto.
fn put_switch(
    alloc: Global,
    written: &mut Written,
    table: &mut [u32],
    source: CodeSource<'_>,
    at: usize,
) -> Result<(), Memory>
    requires given { CanWrite source.body.now source.plan.now source.fetch source.constants.now source.places.now }
    requires at { at < length source.body.now.code }
    requires switch { flow_of (insn_at source.body.now.code at) ≡ flows.Switches }
    requires table { length table.old ≡ length source.body.now.code + 1 }
    ensures table { length table.new ≡ length table.old }
    ensures code { (first : ℕ) → source.entry.plan.now ≡ plan_of source.entry.body.now first
        → OnOk result (GrowsByImageOf source.entry first at flows.Switches written.old written.new) }
{
    let insn = &source.body.code[at];
    let ids = source.plan.out[at].as_slice();
    let targets = insn.distinct_targets(alloc)?;
    set_arms(
        table,
        &source.places.lands,
        source.places.images[at] + 1,
        &targets,
        ids,
    );
    written.put_image(led(alloc, table, insn)?, at as u32)?;
    put_arms(
        written,
        source.probes(),
        &source.places.lands,
        &targets,
        ids,
    )?;
    Ok(())
}

/// How many local variables the method has.
fn local_count(body: &Body) -> u16
    ensures { result ≡ body.now.max_locals }
{
    body.max_locals
}

/// Puts what belongs to an instruction from its image on.
fn put_main(
    alloc: Global,
    written: &mut Written,
    table: &mut [u32],
    source: CodeSource<'_>,
    at: usize,
) -> Result<(), Memory>
    requires given { CanWrite source.body.now source.plan.now source.fetch source.constants.now source.places.now }
    requires at { at < length source.body.now.code }
    requires table { length table.old ≡ length source.body.now.code + 1 }
    ensures table { length table.new ≡ length table.old }
    ensures code { (first : ℕ) → source.entry.plan.now ≡ plan_of source.entry.body.now first
        → OnOk result (GrowsByImageOf source.entry first at (flow_of (insn_at source.entry.body.now.code at)) written.old written.new) }
{
    let insn = &source.body.code[at];
    match insn.flow() {
        Flow::GoesOn => {
            // A local variable of the method is below their number, which fits its type.
            let _count = local_count(source.body);
            written.put_image(moved(alloc, insn, source.body.arg_slots)?, at as u32)?;
            Ok(())
        }
        Flow::Branches => {
            let late = late_id(Flow::Branches, source.plan.out[at].as_slice());
            let jump = ConditionalJump { insn, late };
            put_test(
                alloc,
                written,
                source.probes(),
                source.places,
                at as u32,
                jump,
            )?;
            Ok(())
        }
        Flow::Jumps => {
            written.put_image(led(alloc, &source.places.lands, insn)?, at as u32)?;
            Ok(())
        }
        Flow::Switches => {
            put_switch(alloc, written, table, source, at)?;
            Ok(())
        }
        Flow::Returns | Flow::Throws => {
            written.put_image(insn.try_clone(alloc)?, at as u32)?;
            Ok(())
        }
    }
}

/// Puts what belongs to an instruction: the probe of the fall-through into it, the probe of a goto, a
/// return or an athrow, its image and what stands behind that.
fn put_segment(
    alloc: Global,
    written: &mut Written,
    table: &mut [u32],
    source: CodeSource<'_>,
    at: usize,
) -> Result<(), Memory>
    requires given { CanWrite source.body.now source.plan.now source.fetch source.constants.now source.places.now }
    requires at { at < length source.body.now.code }
    requires table { length table.old ≡ length source.body.now.code + 1 }
    ensures table { length table.new ≡ length table.old }
    ensures code { (first : ℕ) → source.entry.plan.now ≡ plan_of source.entry.body.now first
        → OnOk result (GrowsBySegmentOf source.entry first at written.old written.new) }
{
    written.put_front(source.probes(), source.plan.lead[at], at as u32)?;
    let early = early_id(source.body.code[at].flow(), source.plan.out[at].as_slice());
    written.put_front(source.probes(), early, at as u32)?;
    put_main(alloc, written, table, source, at)?;
    Ok(())
}

/// The instructions of an instrumented method without wide jumps. That takes time in proportion to
/// the instructions and the arms of switches: each switch puts where it leads into a table of places
/// and reads its arms off there.
///
/// # Errors
///
/// `Memory` where memory was refused.
pub(crate) fn write_code(alloc: Global, source: CodeSource<'_>) -> Result<Written, Memory>
    requires made { IsWellMadeOfAnySize source.body.now }
    requires plan { HasPlan source.body.now source.plan.now }
    requires next { source.plan.now.next ≤ most_probes }
    requires enough { source.plan.now.next ≤ most_short + 1 + length source.constants.now }
    requires places { ArePlacesFor source.body.now source.plan.now source.fetch source.places.now }
    ensures { (first : ℕ) → source.entry.plan.now ≡ plan_of source.entry.body.now first
        → IfOk result (ShowsTwin source.entry first) }
{
    let mut written = Written::with_room(alloc, source.places.count())?;
    written.put_prelude(source.fetch, source.body.arg_slots)?;
    let mut table = Vec::from_slice(alloc, &source.places.lands)?;
    'writing: for at in 0..source.body.code.len() {
        put_segment(alloc, &mut written, &mut table, source, at)?;
    }
    Ok(written)
}
