//! The stack map frames of instrumented code (JVM Specification 4.7.4).
ghost use Rattle.std.specs.Prelude.{◌≡◌, ℕ, ◌+◌, ◌*◌, ◌<◌, ◌≤◌, ◌^◌, ◌&&◌, ◌||◌};
ghost use Rattle.std.specs.Prelude.{not, ◌++◌, map, length, All, IfOk, OnOk, slice_index};
ghost use Rattle.jc_methods.specs.Flow.{flow_of};
ghost use Rattle.jc_bytes.specs.PlainLists.{pieces};
ghost use Rattle.jc_methods.specs.declared.insn.Flow.TheVariants as flows;
ghost use Rattle.jc_methods.specs.WellMade.{IsState};
ghost use Rattle.jc_emit.specs.Shift.{image_kind, shifted_state};
ghost use Rattle.jc_emit.specs.Sizes.{insn_at, late_probe};
ghost use Rattle.jc_emit.specs.TwinFrames.{operands_of};
ghost use Rattle.jc_methods.specs.Widened.{listed};
ghost use Rattle.jc_emit.specs.Emission.{Emitting, frame, frame_if, moved_state, has_inverse};
ghost use Rattle.jc_emit.specs.Emission.{frames_at, wide_frames_at, arm_frames_at};
ghost use Rattle.jc_emit.specs.Stages.{is_framed_behind, further_frames_at, layout_frames, layout_frames_at};
ghost use Rattle.jc_emit.specs.Framing.{IsMadeWithin, without, AreFramed, id_frames, IsFraming};

use crate::places::{Places, hop_size};
use jc_bytes::{List, Memory, TryClone};
use jc_methods::{Body, Flow, FrameAt, Insn, Kind, Plan, State, is_listed, opcode};
use std::alloc::Global;

/// A type, where an object without a constructor's call is named by the image of its `new`.
fn moved_kind(kind: Kind, images: &[u32]) -> Kind
    requires { IsMadeWithin (length images.now) kind }
    ensures { result ≡ image_kind (slice_index images.now) kind }
{
    match kind {
        Kind::Uninit(at) => Kind::Uninit(images[at as usize]),
        _ => kind,
    }
}

/// The same of types, in their order. There is room for one more behind them.
fn moved_kinds(alloc: Global, kinds: &[Kind], images: &[u32]) -> Result<Vec<Kind>, Memory>
    requires { All (IsMadeWithin (length images.now)) kinds.now }
    ensures { IfOk result (λ moved. moved.items ≡ map (image_kind (slice_index images.now)) kinds.now) }
{
    let mut moved = Vec::with_capacity(alloc, kinds.len().saturating_add(1))?;
    'moving: for kind in kinds {
        moved.push(moved_kind(*kind, images))?;
    }
    Ok(moved)
}

/// A state without so many of its topmost stack entries, with the array of probes behind the arguments.
fn shifted(
    alloc: Global,
    state: &State,
    operands: usize,
    arg_slots: u16,
    array: u32,
    images: &[u32],
) -> Result<State, Memory>
    requires arguments { arg_slots ≤ length state.now.locals }
    requires locals { All (IsMadeWithin (length images.now)) state.now.locals }
    requires stack { All (IsMadeWithin (length images.now)) state.now.stack }
    ensures { IfOk result (λ s. s ≡ shifted_state arg_slots array (slice_index images.now) (without operands state.now)) }
{
    let stack = state.stack.as_slice();
    let left = &stack[..stack.len().saturating_sub(operands)];
    let mut locals = moved_kinds(alloc, &state.locals, images)?;
    locals.insert(usize::from(arg_slots), Kind::Object(array))?;
    let stack = moved_kinds(alloc, left, images)?;
    Ok(State {
        locals: List::from_vec(locals),
        stack: List::from_vec(stack),
    })
}

/// How many operands a jump or a switch takes (JVM Specification 6.5).
fn operands(insn: &Insn) -> usize
    ensures { result ≡ operands_of insn.now }
{
    match insn {
        Insn::Jump { op, .. } if *op >= opcode::IF_ICMPEQ && *op <= opcode::IF_ACMPNE => 2,
        _ => 1,
    }
}

/// For each of so many instructions, whether a frame stands there.
fn framed(alloc: Global, frames: &[FrameAt], count: usize) -> Result<Vec<bool>, Memory>
    requires { All (λ f. f.at < count) frames.now }
    ensures { IfOk result (λ marks. AreFramed frames.now count marks.items) }
{
    let mut marks = vec![in alloc; false; count]?;
    'marking: for frame in frames {
        marks[frame.at as usize] = true;
    }
    Ok(marks)
}

/// Puts a frame with a copy of a state, if a test holds.
fn put_copy_if(
    alloc: Global,
    test: bool,
    at: u32,
    state: &State,
    frames: &mut Vec<FrameAt>,
) -> Result<(), Memory>
    ensures { OnOk result (frames.new.items ≡ frames.old.items ++ frame_if test (frame at state.now)) }
{
    if !test {
        return Ok(());
    }
    let state = state.try_clone(alloc)?;
    frames.push(FrameAt { at, state })?;
    Ok(())
}

/// Puts a frame at each arm place of a switch. The first one is at `first`, and the targets without a
/// probe have none.
fn put_arms(
    alloc: Global,
    first: u32,
    ids: &[Option<u32>],
    state: &State,
    frames: &mut Vec<FrameAt>,
) -> Result<(), Memory>
    requires { first + 5 * length ids.now < 2 ^ 32 }
    ensures { OnOk result (frames.new.items ≡ frames.old.items ++ id_frames first state.now ids.now) }
{
    let mut here = first;
    'putting: for id in ids {
        put_copy_if(alloc, id.is_some(), here, state, frames)?;
        here += hop_size(*id);
    }
    Ok(())
}

/// Whether a fall-through into an instruction leads to a frame of its own: an inverted jump leads there, and
/// a probe stands in front of the landing place.
fn is_led(inverse: bool, lead: bool) -> bool
    ensures { result ≡ (inverse && lead) }
{
    inverse && lead
}

/// Whether a frame stands at the landing place.
fn is_landed(framed: bool, inverse: bool, lead: bool) -> bool
    ensures { result ≡ (framed || (inverse && not lead)) }
{
    framed || (inverse && !lead)
}

/// What the frames of the instrumented code of a method are made from.
#[derive(Drop)]
pub(crate) struct Framing<'a> {
    alloc: Global,
    body: &'a Body,
    plan: &'a Plan,
    places: &'a Places,
    /// The state before each instruction.
    states: &'a [State],
    /// The number of the class of the array of probes.
    array: u32,
    /// For each instruction, whether a frame stands there.
    framed: Vec<bool>,
}

impl<'a> Framing<'a> {
    /// The parts, with a table of the frames.
    pub(crate) fn of(
        alloc: Global,
        body: &'a Body,
        plan: &'a Plan,
        places: &'a Places,
        states: &'a [State],
        array: u32,
    ) -> Result<Framing<'a>, Memory>
        requires { All (λ f. f.at < length body.now.code) body.now.frames }
        ensures body { IfOk result (λ f. f.body.now ≡ body.now) }
        ensures plan { IfOk result (λ f. f.plan.now ≡ plan.now) }
        ensures places { IfOk result (λ f. f.places.now ≡ places.now) }
        ensures states { IfOk result (λ f. f.states.now ≡ states.now) }
        ensures array { IfOk result (λ f. f.array ≡ array) }
        ensures framed { IfOk result (λ f. AreFramed body.now.frames (length body.now.code) f.framed.items) }
    {
        let framed = framed(alloc, &body.frames, body.code.len())?;
        Ok(Framing {
            alloc,
            body,
            plan,
            places,
            states,
            array,
            framed,
        })
    }

    /// The probe of the jump of a conditional jump.
    fn late_probe(&self, at: usize) -> Option<u32>
        requires framing { (first : ℕ) × (given : Emitting) × IsFraming first given self.now }
        requires at { at < length self.now.body.now.code }
        ensures { (first : ℕ) (given : Emitting) → IsFraming first given self.now → result ≡ late_probe self.now.body.now first at }
    {
        match self.body.code[at].flow() {
            Flow::Branches => match self.plan.out[at].as_slice() {
                [_, id] => *id,
                _ => None,
            },
            _ => None,
        }
    }

    /// Whether the jump in front of an instruction is inverted, and leads to where the fall-through does.
    fn has_inverse(&self, at: usize) -> bool
        requires framing { (first : ℕ) × (given : Emitting) × IsFraming first given self.now }
        requires at { at < length self.now.body.now.code }
        ensures { (first : ℕ) (given : Emitting) → IsFraming first given self.now
            → result ≡ has_inverse self.now.body.now first self.now.states.now given at }
    {
        if at == 0 {
            return false;
        }
        self.late_probe(at - 1).is_some()
    }

    /// The shifted form of a state without so many of its topmost stack entries.
    fn moved(&self, state: &State, operands: usize) -> Result<State, Memory>
        requires framing { (first : ℕ) × (given : Emitting) × IsFraming first given self.now }
        requires state { IsState self.now.body.now.code self.now.body.now.max_locals self.now.body.now.max_stack state.now }
        ensures { (first : ℕ) (given : Emitting) → IsFraming first given self.now → IfOk result (λ s. s
            ≡ moved_state self.now.body.now first self.now.states.now given (without operands state.now)) }
    {
        shifted(
            self.alloc,
            state,
            operands,
            self.body.arg_slots,
            self.array,
            &self.places.images,
        )
    }

    /// Puts a frame at a place of the new code, if a test holds.
    fn put_if(
        &self,
        test: bool,
        place: u32,
        state: &State,
        operands: usize,
        frames: &mut Vec<FrameAt>,
    ) -> Result<(), Memory>
        requires framing { (first : ℕ) × (given : Emitting) × IsFraming first given self.now }
        requires state { IsState self.now.body.now.code self.now.body.now.max_locals self.now.body.now.max_stack state.now }
        ensures { (first : ℕ) (given : Emitting) → IsFraming first given self.now → OnOk result (frames.new.items ≡ frames.old.items ++ frame_if test
            (frame place (moved_state self.now.body.now first self.now.states.now given (without operands state.now)))) }
    {
        if !test {
            return Ok(());
        }
        let state = self.moved(state, operands)?;
        frames.push(FrameAt { at: place, state })?;
        Ok(())
    }

    /// Puts the frames at the arm places of a switch.
    fn put_arms_at(&self, at: usize, frames: &mut Vec<FrameAt>) -> Result<(), Memory>
        requires framing { (first : ℕ) × (given : Emitting) × IsFraming first given self.now }
        requires at { at < length self.now.body.now.code }
        ensures { (first : ℕ) (given : Emitting) → IsFraming first given self.now → OnOk result (frames.new.items
            ≡ frames.old.items ++ arm_frames_at self.now.body.now first self.now.states.now given at) }
    {
        let insn = &self.body.code[at];
        match insn.flow() {
            Flow::Switches => {
                let state = self.moved(&self.states[at], operands(insn))?;
                let first = self.places.images[at] + 1;
                put_arms(self.alloc, first, &self.plan.out[at], &state, frames)?;
                Ok(())
            }
            _ => Ok(()),
        }
    }

    /// Puts the frames of what belongs to an instruction.
    fn put_at(&self, at: usize, frames: &mut Vec<FrameAt>) -> Result<(), Memory>
        requires framing { (first : ℕ) × (given : Emitting) × IsFraming first given self.now }
        requires at { at < length self.now.body.now.code }
        ensures { (first : ℕ) (given : Emitting) → IsFraming first given self.now → OnOk result (frames.new.items
            ≡ frames.old.items ++ frames_at self.now.body.now first self.now.states.now given at) }
    {
        let lead = self.plan.lead[at].is_some();
        let inverse = self.has_inverse(at);
        let state = &self.states[at];
        let led = is_led(inverse, lead);
        self.put_if(led, self.places.leads[at], state, 0, frames)?;
        let landed = is_landed(self.framed[at], inverse, lead);
        self.put_if(landed, self.places.lands[at], state, 0, frames)?;
        self.put_arms_at(at, frames)?;
        Ok(())
    }

    /// Puts the frame behind a conditional jump, for where it is wide.
    fn put_behind(&self, at: usize, frames: &mut Vec<FrameAt>) -> Result<(), Memory>
        requires framing { (first : ℕ) × (given : Emitting) × IsFraming first given self.now }
        requires at { at < length self.now.body.now.code }
        requires tests { flow_of (insn_at self.now.body.now.code at) ≡ flows.Branches }
        ensures { (first : ℕ) (given : Emitting) → IsFraming first given self.now → OnOk result (frames.new.items
            ≡ frames.old.items ++ wide_frames_at self.now.body.now first self.now.states.now given at) }
    {
        let behind = self.places.images[at] + 1;
        match self.late_probe(at) {
            Some(_) => {
                let taken = operands(&self.body.code[at]);
                self.put_if(true, behind, &self.states[at], taken, frames)?;
                Ok(())
            }
            None => {
                self.put_if(true, behind, &self.states[at + 1], 0, frames)?;
                Ok(())
            }
        }
    }

    /// Puts the frame behind an instruction for where it is wide, if it is a conditional jump.
    fn put_wide_at(&self, at: usize, frames: &mut Vec<FrameAt>) -> Result<(), Memory>
        requires framing { (first : ℕ) × (given : Emitting) × IsFraming first given self.now }
        requires at { at < length self.now.body.now.code }
        ensures { (first : ℕ) (given : Emitting) → IsFraming first given self.now → OnOk result (frames.new.items
            ≡ frames.old.items ++ wide_frames_at self.now.body.now first self.now.states.now given at) }
    {
        match self.body.code[at].flow() {
            Flow::Branches => {
                self.put_behind(at, frames)?;
                Ok(())
            }
            _ => Ok(()),
        }
    }

    /// Whether a frame stands where a fall-through from an instruction leads, with no probe in front of it.
    fn is_framed_behind(&self, at: usize) -> bool
        requires framing { (first : ℕ) × (given : Emitting) × IsFraming first given self.now }
        requires at { at < length self.now.body.now.code }
        requires tests { flow_of (insn_at self.now.body.now.code at) ≡ flows.Branches }
        ensures { (first : ℕ) (given : Emitting) → IsFraming first given self.now
            → result ≡ is_framed_behind self.now.body.now first self.now.states.now given at }
    {
        self.late_probe(at).is_none() && self.framed[at + 1] && self.plan.lead[at + 1].is_none()
    }

    /// Puts the frame behind an instruction if it is a wide conditional jump, behind which none stands.
    fn put_further_at(
        &self,
        wide: &[bool],
        at: usize,
        frames: &mut Vec<FrameAt>,
    ) -> Result<(), Memory>
        requires framing { (first : ℕ) × (given : Emitting) × IsFraming first given self.now }
        requires at { at < length self.now.body.now.code }
        ensures { (first : ℕ) (given : Emitting) → IsFraming first given self.now → OnOk result (frames.new.items
            ≡ frames.old.items ++ further_frames_at self.now.body.now first self.now.states.now given (listed wide.now) at) }
    {
        let image = self.places.images[at] as usize;
        match self.body.code[at].flow() {
            Flow::Branches if is_listed(wide, image) && !self.is_framed_behind(at) => {
                self.put_behind(at, frames)?;
                Ok(())
            }
            _ => Ok(()),
        }
    }

    /// Puts the frames of what belongs to an instruction, where these jumps are wide.
    fn put_layout_at(
        &self,
        wide: &[bool],
        at: usize,
        frames: &mut Vec<FrameAt>,
    ) -> Result<(), Memory>
        requires framing { (first : ℕ) × (given : Emitting) × IsFraming first given self.now }
        requires at { at < length self.now.body.now.code }
        ensures { (first : ℕ) (given : Emitting) → IsFraming first given self.now → OnOk result (frames.new.items
            ≡ frames.old.items ++ layout_frames_at self.now.body.now first self.now.states.now given (listed wide.now) at) }
    {
        self.put_at(at, frames)?;
        self.put_further_at(wide, at, frames)
    }

    /// The frames of the code where these jumps are wide, in rising order.
    pub(crate) fn layout_frames(&self, wide: &[bool]) -> Result<Vec<FrameAt>, Memory>
        requires { (first : ℕ) × (given : Emitting) × IsFraming first given self.now }
        ensures { (first : ℕ) (given : Emitting) → IsFraming first given self.now → IfOk result (λ frames. frames.items
            ≡ layout_frames self.now.body.now first self.now.states.now given (listed wide.now)) }
    {
        let mut frames = Vec::new(self.alloc);
        'framing: for at in 0..self.body.code.len() {
            self.put_layout_at(wide, at, &mut frames)?;
        }
        Ok(frames)
    }

    /// The frames behind conditional jumps, for where these are wide, in rising order.
    pub(crate) fn wide_frames(&self) -> Result<Vec<FrameAt>, Memory>
        requires { (first : ℕ) × (given : Emitting) × IsFraming first given self.now }
        ensures { (first : ℕ) (given : Emitting) → IsFraming first given self.now → IfOk result (λ frames. frames.items
            ≡ pieces (wide_frames_at self.now.body.now first self.now.states.now given) (length self.now.body.now.code)) }
    {
        let mut frames = Vec::new(self.alloc);
        'framing: for at in 0..self.body.code.len() {
            self.put_wide_at(at, &mut frames)?;
        }
        Ok(frames)
    }
}
