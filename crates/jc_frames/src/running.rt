//! Frames one after the other, without their states.
ghost use Rattle.std.specs.Prelude.{◌≡◌, ◌+◌, ◌*◌, ◌<◌, ◌≤◌, ◌^◌, ◌++◌, ℕ, length, map, take, IfOk};
ghost use Rattle.std.specs.Prelude.{OnOk, IfSome, OnSome, Some, None, All, option_map, if◌then◌else◌};
ghost use Rattle.std.specs.List.{sum_by};
ghost use Rattle.jc_methods.specs.VerificationTypes.{Names, verification_type, type_state, is_pair, IsNumbered};
ghost use Rattle.jc_pool.specs.Pool.{PoolValue};
ghost use Rattle.jc_frames.specs.Frames.{delta_of, values_of, stack_of, types_of, frame_of, fits_slots, first_before, trimmed, values_in, without_last};
ghost use Rattle.jc_frames.specs.FullTable.{IsPlaced};
ghost use Rattle.jc_frames.specs.Running.{held_values, IsUnnumbered, IsNumberedValue, value_slots, IsRunning, HasFewTypes, before, found_as};

use crate::items::{FrameItem, TypeItem};
use crate::method::{Method, Value};
use jc_bytes::Memory;
use jc_methods::{Kind, State};
use std::alloc::Global;

/// A frame that says something: where it stands, and the values on the stack there.
#[derive(Drop)]
pub struct Frame {
    pub at: u32,
    pub stack: Vec<Value>,
}

/// What the next frame depends on.
#[derive(Drop)]
pub struct Running {
    /// The offset from which its delta counts.
    pub base: usize,
    /// The values in local variables before it, each of them once.
    pub values: Vec<Value>,
    /// How many local variables they take.
    pub slots: usize,
}

impl Value {
    /// How many slots the value takes.
    fn slots(self) -> usize
        ensures slots { result ≡ value_slots self }
        ensures few { result ≤ 2 }
    {
        match self {
            Value::Of(Kind::Long | Kind::Double) => 2,
            Value::Of(_) | Value::ClassAt(_) => 1,
        }
    }
}

/// How many slots values take.
fn slots_of(values: &[Value]) -> usize
    requires { length values.now < 2 ^ 33 }
    ensures slots { result ≡ sum_by value_slots values.now }
    ensures few { result ≤ 2 * length values.now }
{
    let mut slots = 0;
    'counting: for value in values {
        slots += value.slots();
    }
    slots
}

impl FrameItem {
    /// How far behind the frame before this one stands, less 1.
    fn delta(&self) -> u16
        ensures { result ≡ delta_of self.now }
    {
        match self {
            FrameItem::Same { delta }
            | FrameItem::OneItem { delta, .. }
            | FrameItem::Chop { delta, .. }
            | FrameItem::Append { delta, .. }
            | FrameItem::Full { delta, .. } => *delta,
        }
    }

    /// The values on the stack, where each type in the frame's stack names what is there.
    ///
    /// # Errors
    ///
    /// `Memory` where memory was refused.
    fn stack(&self, alloc: Global, method: &Method<'_>) -> Result<Option<Vec<Value>>, Memory>
        requires { HasFewTypes self.now }
        ensures says { (names : Names) → IfOk result (λ found.
            stack_of method.now self.now ≡ option_map (λ values. held_values method.now.pool names values.items) found) }
        ensures unnumbered { IfOk result (λ found. IfSome found (λ values. All IsUnnumbered values.items)) }
        ensures few { IfOk result (λ found. IfSome found (λ values. length values.items < 2 ^ 33)) }
    {
        match self {
            FrameItem::OneItem { item, .. } => method.types_of(alloc, &[*item]),
            FrameItem::Full { stack, .. } => method.types_of(alloc, stack),
            _ => Ok(Some(Vec::new(alloc))),
        }
    }
}

/// Where the values in local variables end: what stands behind is `Top`.
fn end_of_values(locals: &[Kind]) -> usize
    ensures within { result ≤ length locals.now }
    ensures trimmed { (names : Names) → trimmed (map (verification_type names) locals.now) ≡ map (verification_type names) (take result locals.now) }
{
    let mut end = locals.len();
    'trimming: while end > 0 && matches!(locals[end - 1], Kind::Top) {
        end -= 1;
    }
    end
}

/// Whether the value takes two slots.
pub fn is_wide(kind: Kind) -> bool
    ensures { (names : Names) → result ≡ is_pair (verification_type names kind) }
{
    matches!(kind, Kind::Long | Kind::Double)
}

/// The kinds of the values in local variables, each of them once, without the `Top`s at the end.
///
/// # Errors
///
/// `Memory` where memory was refused.
pub fn kinds_in_locals(alloc: Global, locals: &[Kind]) -> Result<Vec<Kind>, Memory>
    ensures values { (names : Names) → IfOk result (λ kinds. map (verification_type names) kinds.items ≡ values_in (map (verification_type names) locals.now)) }
    ensures few { IfOk result (λ kinds. length kinds.items ≤ length locals.now) }
    ensures numbered { (count : ℕ) → All (IsNumbered count) locals.now → IfOk result (λ kinds. All (IsNumbered count) kinds.items) }
    ensures placed { (count : ℕ) → All (IsPlaced count) locals.now → IfOk result (λ kinds. All (IsPlaced count) kinds.items) }
{
    let trimmed = &locals[..end_of_values(locals)];
    let mut kinds = Vec::with_capacity(alloc, trimmed.len())?;
    let mut skips = false;
    'listing: for kind in trimmed {
        if skips {
            skips = false;
        } else {
            kinds.push(*kind)?;
            skips = is_wide(*kind);
        }
    }
    Ok(kinds)
}

/// The values in local variables, each of them once.
///
/// # Errors
///
/// `Memory` where memory was refused.
fn values_of_locals(alloc: Global, locals: &[Kind]) -> Result<Vec<Value>, Memory>
    ensures values { (pool : PoolValue) (names : Names) → IfOk result (λ values.
        held_values pool names values.items ≡ values_in (map (verification_type names) locals.now)) }
    ensures few { IfOk result (λ values. length values.items ≤ length locals.now) }
    ensures numbered { (count : ℕ) → All (IsNumbered count) locals.now
        → IfOk result (λ values. All (IsNumberedValue count) values.items) }
{
    let kinds = kinds_in_locals(alloc, locals)?;
    let mut values = Vec::with_capacity(alloc, kinds.len())?;
    'listing: for kind in &kinds {
        values.push(Value::Of(*kind))?;
    }
    Ok(values)
}

impl Running {
    /// What the first frame depends on: the values of the state in which the method begins.
    ///
    /// # Errors
    ///
    /// `Memory` where memory was refused.
    pub fn first(alloc: Global, entry: &State) -> Result<Running, Memory>
        requires { length entry.now.locals < 2 ^ 32 }
        ensures values { (pool : PoolValue) (names : Names)
            → IfOk result (λ running. before pool names running ≡ first_before (type_state names entry.now)) }
        ensures running { IfOk result IsRunning }
        ensures numbered { (count : ℕ) → All (IsNumbered count) entry.now.locals
            → IfOk result (λ running. All (IsNumberedValue count) running.values.items) }
    {
        let values = values_of_locals(alloc, &entry.locals)?;
        let slots = slots_of(&values);
        Ok(Running {
            base: 0,
            values,
            slots,
        })
    }

    /// Takes so many values away, where there are so many.
    fn chop(&mut self, count: usize) -> bool
        requires { IsRunning self.old }
        ensures values { (pool : PoolValue) (names : Names) → without_last count (held_values pool names self.old.values.items)
            ≡ (if result then Some (held_values pool names self.new.values.items) else None) }
        ensures running { IsRunning self.new }
        ensures numbered { (count : ℕ) → All (IsNumberedValue count) self.old.values.items
            → All (IsNumberedValue count) self.new.values.items }
        ensures base { self.new.base ≡ self.old.base }
    {
        if self.values.len() < count {
            return false;
        }
        let kept = self.values.len() - count;
        self.slots -= slots_of(&self.values[kept..]);
        self.values.truncate(kept);
        true
    }

    /// Puts values behind the others, where each of the types names what is there.
    ///
    /// # Errors
    ///
    /// `Memory` where memory was refused.
    fn append(
        &mut self,
        alloc: Global,
        method: &Method<'_>,
        added: &[TypeItem],
    ) -> Result<bool, Memory>
        requires running { IsRunning self.old }
        requires few { length added.now < 65536 }
        ensures values { (names : Names) → let held = held_values method.now.pool names in IfOk result (λ done.
            option_map (λ more. held self.old.values.items ++ more) (types_of method.now added.now)
            ≡ (if done then Some (held self.new.values.items) else None)) }
        ensures slots { OnOk result (self.new.slots ≡ sum_by value_slots self.new.values.items) }
        ensures few { OnOk result (length self.new.values.items ≤ length self.old.values.items + length added.now) }
        ensures numbered { (count : ℕ) → All (IsNumberedValue count) self.old.values.items
            → OnOk result (All (IsNumberedValue count) self.new.values.items) }
        ensures base { OnOk result (self.new.base ≡ self.old.base) }
    {
        let Some(more) = method.types_of(alloc, added)? else {
            return Ok(false);
        };
        self.slots += slots_of(&more);
        self.values.extend_from_slice(&more)?;
        Ok(true)
    }

    /// Has these values in place of the others, where each of the types names what is there.
    ///
    /// # Errors
    ///
    /// `Memory` where memory was refused.
    fn replace(
        &mut self,
        alloc: Global,
        method: &Method<'_>,
        locals: &[TypeItem],
    ) -> Result<bool, Memory>
        requires running { IsRunning self.old }
        requires few { length locals.now < 65536 }
        ensures values { (names : Names) → IfOk result (λ done. types_of method.now locals.now
            ≡ (if done then Some (held_values method.now.pool names self.new.values.items) else None)) }
        ensures slots { OnOk result (self.new.slots ≡ sum_by value_slots self.new.values.items) }
        ensures few { OnOk result (length self.new.values.items < 2 ^ 32) }
        ensures numbered { (count : ℕ) → All (IsNumberedValue count) self.old.values.items
            → OnOk result (All (IsNumberedValue count) self.new.values.items) }
        ensures base { OnOk result (self.new.base ≡ self.old.base) }
    {
        let Some(values) = method.types_of(alloc, locals)? else {
            return Ok(false);
        };
        self.slots = slots_of(&values);
        self.values = values;
        Ok(true)
    }

    /// Has the values that a frame says, where it says some.
    ///
    /// # Errors
    ///
    /// `Memory` where memory was refused.
    fn change(
        &mut self,
        alloc: Global,
        method: &Method<'_>,
        item: &FrameItem,
    ) -> Result<bool, Memory>
        requires running { IsRunning self.old }
        requires few { HasFewTypes item.now }
        ensures values { (names : Names) → IfOk result (λ done. values_of method.now (before method.now.pool names self.old) item.now
            ≡ (if done then Some (held_values method.now.pool names self.new.values.items) else None)) }
        ensures slots { OnOk result (self.new.slots ≡ sum_by value_slots self.new.values.items) }
        ensures few { OnOk result (length self.new.values.items < 2 ^ 33) }
        ensures numbered { (count : ℕ) → All (IsNumberedValue count) self.old.values.items
            → OnOk result (All (IsNumberedValue count) self.new.values.items) }
        ensures base { OnOk result (self.new.base ≡ self.old.base) }
    {
        match item {
            FrameItem::Same { .. } | FrameItem::OneItem { .. } => Ok(true),
            FrameItem::Chop { count, .. } => Ok(self.chop(usize::from(*count))),
            FrameItem::Append { added, .. } => self.append(alloc, method, added),
            FrameItem::Full { locals, .. } => self.replace(alloc, method, locals),
        }
    }

    /// Whether the values and a stack take as many slots as there are.
    fn fits(&self, method: &Method<'_>, stack: &[Value]) -> bool
        requires slots { self.now.slots ≡ sum_by value_slots self.now.values.items }
        requires few { length stack.now < 2 ^ 33 }
        ensures { (names : Names) → result ≡ fits_slots method.now (held_values method.now.pool names self.now.values.items)
            (held_values method.now.pool names stack.now) }
    {
        self.slots <= method.max_locals() as usize
            && slots_of(stack) <= usize::from(method.max_stack())
    }

    /// What a frame says, if it says something. Then the next frame depends on the new values.
    ///
    /// # Errors
    ///
    /// `Memory` where memory was refused.
    pub fn follow(
        &mut self,
        alloc: Global,
        method: &Method<'_>,
        item: &FrameItem,
    ) -> Result<Option<Frame>, Memory>
        requires running { IsRunning self.old }
        requires few { HasFewTypes item.now }
        requires locals { method.now.max_locals < 2 ^ 32 }
        ensures says { (names : Names) → IfOk result (λ frame. frame_of method.now (before method.now.pool names self.old) item.now
            ≡ option_map (found_as method.now names self.new) frame) }
        ensures running { IfOk result (λ frame. OnSome frame (IsRunning self.new)) }
        ensures unnumbered { IfOk result (λ frame. IfSome frame (λ f. All IsUnnumbered f.stack.items)) }
        ensures numbered { (count : ℕ) → All (IsNumberedValue count) self.old.values.items
            → OnOk result (All (IsNumberedValue count) self.new.values.items) }
    {
        let offset = self.base + usize::from(item.delta());
        let Some(at) = method.number_at(offset) else {
            return Ok(None);
        };
        let Some(stack) = item.stack(alloc, method)? else {
            return Ok(None);
        };
        if !self.change(alloc, method, item)? || !self.fits(method, &stack) {
            return Ok(None);
        }
        self.base = offset + 1;
        Ok(Some(Frame { at, stack }))
    }
}
