//! What the instructions of a body do to types.
use crate::Want;
use crate::arrays::{new_array, new_arrays, object_of};
use crate::by_opcode::move_by_opcode;
use crate::effect::Effect;
use crate::elements::{Elements, pick};
use crate::form::Give;
use crate::locals::{count, load, store};
use crate::moves::move_state;
use crate::objects::{Built, build_as, make};
use crate::step::{
    Step, class_of, class_step, constant_step, is_aaload, local_step, member_step, multi_step,
    object_step, simple_step, static_step,
};
use crate::uses::{all_effects, return_opcode};
use crate::want::are_accepted;
use jc_bytes::{Memory, Names, TryClone};
use jc_methods::{Body, Insn, Kind, State, opcode};
use std::alloc::Global;
use std::collections::HashMap;

/// What the instructions of a body do to types, with each descriptor and each name of an array's class read once.
#[derive(Debug, Drop)]
pub struct Effects<'a> {
    body: &'a Body,
    /// Those of the body's uses, by their places in the pool.
    uses: HashMap<u16, Effect>,
    /// The elements of the arrays that were met.
    elements: Elements,
    /// An object of the body's class.
    owner: Kind,
    /// The opcode of the method's returns.
    returns: u8,
}

impl<'a> Effects<'a> {
    ghost use Rattle.std.specs.Prelude.{◌≡◌, ◌<◌, ℕ, length, All, IfOk, IfSome, Some, option_map, slice_get};
    ghost use Rattle.jc_methods.specs.VerificationTypes.{Names, Grows, verification_type, type_state};
    ghost use Rattle.jc_methods.specs.InsnUse.{pool_place, Suits};
    ghost use Rattle.jc_methods.specs.WellMade.{HasUse, IsKind, IsWellMadeOfAnySize, what_used};
    ghost use Rattle.jc_methods.specs.declared.body.What.{What};
    ghost use Rattle.jc_methods.specs.declared.insn.Insn.TheVariants as insns;
    ghost use Rattle.jc_methods.specs.Opcode as opcode;
    ghost use Rattle.jc_kinds_after.specs.After.{ground_of};
    ghost use Rattle.jc_kinds_after.specs.Answers.{IsStateOf, IsWhole, LeavesState, LeavesAlways};
    ghost use Rattle.jc_kinds_after.specs.Effects.{AreEffects, body_of, IsRead, DoesAt, StepsAs, IsClassMade, IsClassBuilt, IsBuilt};
    ghost use Rattle.jc_kinds_after.specs.Shapes.{form_of};
    ghost use Rattle.jc_kinds_after.specs.Step.{apply as apply_step};
    ghost use Rattle.jc_kinds_after.specs.Steps.{step_in, results, HasLocal, NumbersNothing};
    ghost use Rattle.jc_kinds_after.specs.Table.{form};

    /// What the instructions of the body do to types.
    ///
    /// # Errors
    ///
    /// `Memory` where memory was refused, or where a class is new and the list has 4,294,967,295 names.
    pub fn of(alloc: Global, body: &'a Body, names: &mut Names) -> Result<Effects<'a>, Memory>
        requires { IsWellMadeOfAnySize body.now }
        ensures effects { IfOk result (λ effects. AreEffects names.new effects) }
        ensures body { IfOk result (λ effects. body_of effects ≡ body.now) }
        ensures names { Grows names.old names.new }
    {
        let uses = all_effects(alloc, &body.uses, names)?;
        let owner = object_of(alloc, &body.owner, names)?;
        let returns = return_opcode(alloc, &body.desc)?;
        Ok(Effects {
            body,
            uses,
            elements: Elements::new(alloc),
            owner,
            returns,
        })
    }

    /// What the entry for a place does to types.
    fn at(&self, place: u16) -> &Effect
        requires read { IsRead self.now }
        requires used { (what : What) × (what_used (body_of self.now).uses place ≡ Some what) }
        ensures { DoesAt self.now place result.now }
    {
        self.uses.get(&place).unwrap()
    }

    /// What an instruction does to types.
    fn step(&self, insn: &Insn) -> Step<'_>
        requires read { IsRead self.now }
        requires used { (place : ℕ) → pool_place insn.now ≡ Some place → HasUse (body_of self.now).uses place (Suits insn.now) }
        requires numbers { NumbersNothing insn.now }
        ensures { StepsAs self.now insn.now result }
    {
        match insn {
            Insn::Simple(op) => simple_step(self.returns, *op),
            Insn::Push { op, .. } => Step::Opcode(*op),
            Insn::Jump { op, .. } => Step::Opcode(*op),
            Insn::Local { op, slot } => local_step(*op, *slot),
            Insn::Inc { slot, .. } => Step::Count(*slot),
            Insn::Constant { place } => constant_step(self.at(*place)),
            Insn::Constant2 { place } => constant_step(self.at(*place)),
            Insn::Member { op, place } => member_step(*op, self.at(*place)),
            Insn::Interface { place, .. } => object_step(self.at(*place)),
            Insn::Dynamic { place } => static_step(self.at(*place)),
            Insn::OfClass { op, place } => class_step(*op, self.at(*place)),
            Insn::Multi { place, dims } => multi_step(*dims, self.at(*place)),
            Insn::NewArray { .. } => Step::Fail,
            Insn::Table { .. } => Step::Opcode(opcode::TABLESWITCH),
            Insn::Lookup { .. } => Step::Opcode(opcode::LOOKUPSWITCH),
        }
    }

    /// The class of the objects that the `new` with this number makes.
    fn class_made(&self, at: u32) -> Option<Kind>
        requires read { IsRead self.now }
        requires made { (place : ℕ) × (slice_get (body_of self.now).code at ≡ Some (insns.OfClass opcode.new place)) }
        ensures { IsClassMade self.now at result }
    {
        let place = self.body.code[at as usize].pool_place()?;
        class_of(self.at(place))
    }

    /// The class of an object whose constructor is called: that of its `new`, or the method's.
    fn class_built(&self, old: Kind) -> Option<Kind>
        requires read { IsRead self.now }
        requires kind { IsKind (body_of self.now).code old }
        ensures { IsClassBuilt self.now old result }
    {
        match old {
            Kind::Uninit(at) => self.class_made(at),
            Kind::UninitThis => Some(self.owner),
            _ => None,
        }
    }

    /// The state after a constructor was called.
    fn build(
        &self,
        alloc: Global,
        state: &State,
        wants: &[Want],
        gives: &[Give],
    ) -> Result<Option<State>, Memory>
        requires read { IsRead self.now }
        requires kinds { All (IsKind (body_of self.now).code) state.now.stack }
        ensures { IfOk result (IsBuilt self.now state.now (λ names. form_of names wants.now gives.now)) }
    {
        let stack = state.stack.as_slice();
        if stack.len() <= wants.len() {
            return Ok(None);
        }
        let base = stack.len() - wants.len();
        if !are_accepted(wants, &stack[base..]) {
            return Ok(None);
        }
        let old = stack[base - 1];
        match self.class_built(old) {
            Some(class) => Ok(build_as(
                alloc,
                state,
                Built { old, class },
                &stack[..base - 1],
                gives,
                self.body.max_stack,
            )?),
            None => Ok(None),
        }
    }

    /// The state after a constructor was called, with what its method leaves.
    fn build_with(
        &self,
        alloc: Global,
        state: &State,
        wants: &[Want],
        outcome: Option<Kind>,
    ) -> Result<Option<State>, Memory>
        requires read { IsRead self.now }
        requires kinds { All (IsKind (body_of self.now).code) state.now.stack }
        ensures { IfOk result (IsBuilt self.now state.now (λ names. form wants.now (results (option_map (verification_type names) outcome)))) }
    {
        match outcome {
            Some(kind) => Ok(self.build(alloc, state, wants, &[Give::Kind(kind)])?),
            None => Ok(self.build(alloc, state, wants, &[])?),
        }
    }

    /// The state after a step.
    fn apply(
        &self,
        alloc: Global,
        state: State,
        step: Step<'_>,
        place: u32,
    ) -> Result<Option<State>, Memory>
        requires read { IsRead self.now }
        requires local { HasLocal (length state.locals) step }
        requires kinds { All (IsKind (body_of self.now).code) state.stack }
        ensures { IfOk result (λ o. (names : Names) → AreEffects names self.now → option_map (type_state names) o
            ≡ apply_step (ground_of (body_of self.now) place) (step_in names step.entry) (type_state names state)) }
    {
        let most = self.body.max_stack;
        match step {
            Step::Opcode(op) => move_by_opcode(alloc, state, op, most),
            Step::Push(kind) => move_state(alloc, state, &[], &[Give::Kind(kind)], most),
            Step::Take(want) => move_state(alloc, state, &[want], &[], most),
            Step::Put(want) => move_state(alloc, state, &[Want::Target, want], &[], most),
            Step::Turn(want, kind) => move_state(alloc, state, &[want], &[Give::Kind(kind)], most),
            Step::Dimensions(count, kind) => new_arrays(alloc, state, count, kind, most),
            Step::Call(wants, Some(kind)) => move_state(
                alloc,
                state,
                wants,
                &[Give::Kind(kind)],
                most,
            ),
            Step::Call(wants, None) => move_state(alloc, state, wants, &[], most),
            Step::Load(slot, want) => load(alloc, state, slot, want, most),
            Step::Store(slot, want) => Ok(store(state, slot, want, most)),
            Step::Count(slot) => Ok(count(state, slot, most)),
            Step::Make => make(alloc, state, place, most),
            Step::Build(wants, outcome) => self.build_with(alloc, &state, wants, outcome),
            Step::Fail => Ok(None),
        }
    }

    /// The state after an instruction, under all longer lists of names.
    fn leave(
        &mut self,
        alloc: Global,
        state: State,
        i: u32,
        names: &mut Names,
    ) -> Result<Option<State>, Memory>
        requires effects { AreEffects names.old self.old }
        requires place { i < length (body_of self.old).code }
        requires state { IsStateOf (length names.old) (body_of self.old) state }
        ensures after { IfOk result (LeavesAlways names.old names.new (body_of self.old) i state) }
        ensures names { Grows names.old names.new }
        ensures effects { AreEffects names.new self.new }
        ensures body { body_of self.new ≡ body_of self.old }
    {
        let body = self.body;
        let insn = &body.code[i as usize];
        if is_aaload(insn) {
            return pick(alloc, state, body.max_stack, &mut self.elements, names);
        }
        match insn {
            Insn::NewArray { elem } => new_array(alloc, state, *elem, body.max_stack, names),
            _ => self.apply(alloc, state, self.step(insn), i),
        }
    }

    /// The types after the instruction with this number, as `after` gives them, made of those before it: where no
    /// class is numbered and no constructor called, the lists are changed and none is made.
    ///
    /// # Errors
    ///
    /// `Memory` where memory was refused, or where a class is new and the list has 4,294,967,295 names.
    pub fn advance(
        &mut self,
        alloc: Global,
        state: State,
        i: u32,
        names: &mut Names,
    ) -> Result<Option<State>, Memory>
        requires effects { AreEffects names.old self.old }
        requires place { i < length (body_of self.old).code }
        requires state { IsStateOf (length names.old) (body_of self.old) state }
        ensures after { IfOk result (λ after. LeavesState names.old names.new (body_of self.old) i state after) }
        ensures next { IfOk result (λ after. IfSome after (λ s. IsStateOf (length names.new) (body_of self.old) s)) }

        // A state that is well made leaves one that is.
        ensures whole { IfOk result (λ after. IfSome after (λ s. IsWhole (body_of self.old) state → IsWhole (body_of self.old) s)) }
        ensures names { Grows names.old names.new }

        // They are the effects under the names that there are then, after a refusal too.
        ensures effects { AreEffects names.new self.new }
        ensures body { body_of self.new ≡ body_of self.old }
    {
        self.leave(alloc, state, i, names)
    }

    /// The types after the instruction with this number, where it may be reached with the types before it. There
    /// are none exactly where an operand is missing or of another kind, where the stack would have more slots than
    /// `max_stack` after it (JVM Specification 4.9.2), whichever the instruction is and however many it had before, or
    /// where one of the other rules of the instruction is broken.
    ///
    /// # Errors
    ///
    /// `Memory` where memory was refused, or where a class is new and the list has 4,294,967,295 names.
    pub fn after(
        &mut self,
        alloc: Global,
        state: &State,
        i: u32,
        names: &mut Names,
    ) -> Result<Option<State>, Memory>
        requires effects { AreEffects names.old self.old }
        requires place { i < length (body_of self.old).code }
        requires state { IsStateOf (length names.old) (body_of self.old) state.now }
        ensures after { IfOk result (λ after. LeavesState names.old names.new (body_of self.old) i state.now after) }
        ensures next { IfOk result (λ after. IfSome after (λ s. IsStateOf (length names.new) (body_of self.old) s)) }

        // A state that is well made leaves one that is.
        ensures whole { IfOk result (λ after. IfSome after (λ s. IsWhole (body_of self.old) state.now → IsWhole (body_of self.old) s)) }
        ensures names { Grows names.old names.new }

        // They are the effects under the names that there are then, after a refusal too.
        ensures effects { AreEffects names.new self.new }
        ensures body { body_of self.new ≡ body_of self.old }
    {
        let copy = state.try_clone(alloc)?;
        self.advance(alloc, copy, i, names)
    }
}
