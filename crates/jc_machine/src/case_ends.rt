//! What a case leaves.
ghost use Rattle.std.specs.Prelude.{◌≡◌, ◌<◌, ◌≤◌, [], length, slice_index_or, IfOk};
ghost use Rattle.jc_programs.specs.declared.program.Program.{Program};
ghost use Rattle.jc_machine_model.specs.Values.{null, seen_value};
ghost use Rattle.jc_machine_model.specs.CaseEnds.{number_of, ends_in, case_end_in};
ghost use Rattle.jc_machine_memory.specs.Values.{value_of};
ghost use Rattle.jc_machine.specs.StaticEnds.{value_at, ends_at};
ghost use Rattle.jc_machine.specs.Machines.{world_of, Fits};

use crate::integral_fields::IntegralField;
use crate::seen::seen;
use crate::world::World;
use jc_bytes::{Bytes, List, Memory};
use jc_machine_memory::Value;
use jc_machine_turn::Shared;
use jc_programs as outside;
use jc_programs::{CaseEnd, End, StaticEnd};
use std::alloc::Global;

/// The number that a value is; 0 for a reference.
fn number(value: Value) -> i64
    ensures { result ≡ number_of (value_of value) }
{
    match value {
        Value::Int(n) => i64::from(n),
        Value::Long(n) => n,
        _ => 0,
    }
}

/// The number that a static field of an integral type holds.
fn number_at(shared: &Shared, at: &IntegralField) -> i64
    ensures { result ≡ number_of (value_at shared.now.content.statics at.now) }
{
    match shared.static_value(at.class, at.field) {
        Some(value) => number(value),
        None => 0,
    }
}

/// What static fields hold.
fn static_ends(
    alloc: Global,
    shared: &Shared,
    fields: &[IntegralField],
) -> Result<Vec<StaticEnd>, Memory>
    ensures { IfOk result (λ ends. ends.items ≡ ends_at shared.now.content.statics fields.now) }
{
    let mut ends = Vec::with_capacity(alloc, fields.len())?;
    'fields: for at in fields {
        ends.push(StaticEnd {
            class: at.class,
            field: at.field,
            value: number_at(shared, at),
        })?;
    }
    Ok(ends)
}

impl World {
    /// How many threads there are.
    pub fn thread_count(&self) -> u32
        ensures count { result ≡ length self.now.threads }
        ensures few { (1 ≤ result) × (result ≤ 8) }
    {
        self.count as u32
    }

    /// How the threads stand. Takes no memory.
    pub fn ends(&self) -> &[End]
        ensures { result.now ≡ ends_in (world_of self.now) }
    {
        &self.ends[..self.count]
    }

    /// The bytes that were printed. Takes no memory.
    pub fn output(&self) -> &[u8]
        ensures { result.now ≡ self.now.shared.output }
    {
        self.shared.output()
    }

    /// What is seen of the value of a static field, by the numbers of its class and of itself among the static fields of its
    /// class. Takes no memory.
    pub fn static_of(&self, class: u32, field: u32) -> outside::Value
        requires class { class < length self.now.shared.statics }
        requires field { field < length (slice_index_or self.now.shared.statics class []) }
        ensures { result ≡ seen_value (slice_index_or (slice_index_or self.now.shared.statics class []) field null) }
    {
        match self.shared.static_value(class, field) {
            Some(value) => seen(value),
            None => outside::Value::Null,
        }
    }

    /// Whether a turn raised a throwable. Takes no memory.
    pub fn raised(&self) -> bool
        ensures { result ≡ self.now.shared.raised }
    {
        self.shared.raised()
    }

    /// What the case leaves: the output, how the threads stand, what the static fields of integral types hold, in the order of
    /// classes and fields, and whether a turn raised a throwable.
    ///
    /// # Errors
    ///
    /// `Memory` where memory was refused.
    pub fn end(&self, alloc: Global) -> Result<CaseEnd, Memory>
        ensures { (program : Program) → Fits program self.now → IfOk result (λ end. end ≡ case_end_in program (world_of self.now)) }
    {
        Ok(CaseEnd {
            output: Bytes::copy_of(alloc, self.output())?,
            ends: List::from_vec(self.ends().to_vec(alloc)?),
            statics: List::from_vec(static_ends(alloc, &self.shared, &self.fields)?),
            raised: self.raised(),
        })
    }
}
