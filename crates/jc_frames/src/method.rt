//! What the meaning of a table depends on.
ghost use Rattle.std.specs.Prelude.{◌≡◌, ◌+◌, ◌<◌, ◌≤◌, ◌^◌, length, IfOk, IfSome, IfNone, Some, All, option_map, slice_get};
ghost use Rattle.jc_methods.specs.VerificationTypes.{Names};
ghost use Rattle.jc_methods.specs.Starts.{insn_number};
ghost use Rattle.jc_frames.specs.Frames.{is_new, type_of, types_of};
ghost use Rattle.jc_frames.specs.Running.{held_value, held_values, IsUnnumbered};
ghost use Rattle.jc_frames.specs.WellMade.{AreOffsets};

use crate::items::TypeItem;
use jc_bytes::Memory;
use jc_methods::{Insn, Kind, insn_numbers, opcode};
use jc_pool::Pool;
use std::alloc::Global;
use std::marker::Model;

/// A value in a local variable or on the stack.
#[derive(Clone, Copy, Debug)]
pub enum Value {
    /// A value of this kind.
    Of(Kind),
    /// An object of the class at this place in the pool.
    ClassAt(u16),
}

/// The method that a table stands in, which contracts see as what the meaning of a table depends on.
#[derive(Drop)]
pub struct Method<'a> {
    pool: &'a Pool,
    code: &'a [Insn],
    starts: &'a [u32],
    /// At each offset the number of the instruction that begins there, or the number of instructions.
    numbers: Vec<u32>,
    max_locals: u32,
    max_stack: u16,
}

impl<'a> Model for Method<'a> {
    ghost use Rattle.std.specs.Prelude.{length};
    ghost use Rattle.jc_frames.specs.Frames.{Ground};
    ghost use Rattle.jc_frames.specs.Numbering.{HasEachNumber};

    ghost Value = { Ground };

    ghost view = { λ m. record {
      pool = m.pool.now;
      code = m.code.now;
      starts = m.starts.now;
      max_locals = m.max_locals;
      max_stack = m.max_stack;
    } };

    ghost invariant = { λ m. HasEachNumber (length m.code.now) m.starts.now m.numbers.items };
}

impl<'a> Method<'a> {
    ghost use Rattle.jc_frames.specs.Frames.{Ground};

    /// A method with this code, whose instructions begin at these offsets.
    ///
    /// # Errors
    ///
    /// `Memory` where memory was refused.
    pub fn new(
        alloc: Global,
        max_locals: u32,
        max_stack: u16,
        code: &'a [Insn],
        starts: &'a [u32],
        pool: &'a Pool,
    ) -> Result<Method<'a>, Memory>
        requires few { length starts.now < 2 ^ 32 }
        requires offsets { AreOffsets (length code.now) starts.now }
        ensures { IfOk result (λ method. method ≡ record {
          pool = pool.now;
          code = code.now;
          starts = starts.now;
          max_locals = max_locals;
          max_stack = max_stack;
        }) }
    {
        let size = starts[code.len()] as usize + 1;
        let numbers = insn_numbers(alloc, starts, size)?;
        Ok(Method {
            pool,
            code,
            starts,
            numbers,
            max_locals,
            max_stack,
        })
    }

    /// How many local variables there are.
    pub fn max_locals(&self) -> u32
        ensures { result ≡ self.now.max_locals }
    {
        self.max_locals
    }

    /// How many slots the operand stack has.
    pub fn max_stack(&self) -> u16
        ensures { result ≡ self.now.max_stack }
    {
        self.max_stack
    }

    /// The constant pool.
    pub fn pool(&self) -> &'a Pool
        ensures { result.now ≡ self.now.pool }
    {
        self.pool
    }

    /// The number of the instruction that begins at an offset.
    pub fn number_at(&self, offset: usize) -> Option<u32>
        ensures number { IfSome result (λ number. insn_number self.now.starts offset ≡ number) }
        ensures below { IfSome result (λ number. number < length self.now.code) }
        ensures within { IfSome result (λ number. offset < 2 ^ 32 + 1) }
        ensures none { IfNone result (length self.now.code ≤ insn_number self.now.starts offset) }
    {
        let number = *self.numbers.get(offset)?;
        if (number as usize) < self.code.len() {
            Some(number)
        } else {
            None
        }
    }

    /// Whether the instruction with this number is a `new`.
    fn is_new(&self, number: u32) -> bool
        requires { number < length self.now.code }
        ensures { result ≡ is_new (slice_get self.now.code number) }
    {
        match &self.code[number as usize] {
            Insn::OfClass { op, .. } => *op == opcode::NEW,
            _ => false,
        }
    }

    /// An object of the class at a place, where a Class entry stands there.
    fn class_at(&self, place: u16) -> Option<Value>
        ensures says { (names : Names) → type_of self.now (TypeItem.Object place) ≡ option_map (held_value self.now.pool names) result }
        ensures unnumbered { IfSome result IsUnnumbered }
    {
        match self.pool.class_at(place) {
            Ok(_) => Some(Value::ClassAt(place)),
            Err(_) => None,
        }
    }

    /// An object that the `new` at an offset made, where a `new` stands there.
    fn new_at(&self, offset: u16) -> Option<Value>
        ensures says { (names : Names) → type_of self.now (TypeItem.Uninit offset) ≡ option_map (held_value self.now.pool names) result }
        ensures unnumbered { IfSome result IsUnnumbered }
    {
        let number = self.number_at(usize::from(offset))?;
        if self.is_new(number) {
            Some(Value::Of(Kind::Uninit(number)))
        } else {
            None
        }
    }

    /// The value that a verification type stands for, where it names a Class entry, or a `new`.
    pub fn type_of(&self, item: TypeItem) -> Option<Value>
        ensures says { (names : Names) → type_of self.now item ≡ option_map (held_value self.now.pool names) result }
        ensures unnumbered { IfSome result IsUnnumbered }
    {
        match item {
            TypeItem::Top => Some(Value::Of(Kind::Top)),
            TypeItem::Int => Some(Value::Of(Kind::Int)),
            TypeItem::Float => Some(Value::Of(Kind::Float)),
            TypeItem::Double => Some(Value::Of(Kind::Double)),
            TypeItem::Long => Some(Value::Of(Kind::Long)),
            TypeItem::Null => Some(Value::Of(Kind::Null)),
            TypeItem::UninitThis => Some(Value::Of(Kind::UninitThis)),
            TypeItem::Object { place } => self.class_at(place),
            TypeItem::Uninit { offset } => self.new_at(offset),
        }
    }

    /// The values that verification types stand for, where each of them names what is there.
    ///
    /// # Errors
    ///
    /// `Memory` where memory was refused.
    pub fn types_of(&self, alloc: Global, items: &[TypeItem]) -> Result<Option<Vec<Value>>, Memory>
        ensures says { (names : Names) → IfOk result (λ found.
            types_of self.now items.now ≡ option_map (λ values. held_values self.now.pool names values.items) found) }
        ensures unnumbered { IfOk result (λ found. IfSome found (λ values. All IsUnnumbered values.items)) }
        ensures as_many { IfOk result (λ found. IfSome found (λ values. length values.items ≡ length items.now)) }
    {
        let mut values = Vec::with_capacity(alloc, items.len())?;
        'typing: for item in items {
            match self.type_of(*item) {
                Some(value) => values.push(value)?,
                None => return Ok(None),
            }
        }
        Ok(Some(values))
    }
}
