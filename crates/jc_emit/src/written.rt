//! The code of an instrumented method as it is written.
ghost use Rattle.std.specs.Prelude.{◌≡◌, ◌+◌, ◌<◌, ◌≤◌, [], ◌∷◌, ◌++◌, Bool, Option, ℕ, length, IfOk, OnOk};
ghost use Rattle.jc_methods.specs.ProbeMembers.{most_short};
ghost use Rattle.jc_methods.specs.Widened.{goto};
ghost use Rattle.jc_emit.specs.Branching.{IsPushed};
ghost use Rattle.jc_emit.specs.Items.{prelude, image, probe, hop, lead_part, early_part, hop_part};
ghost use Rattle.jc_emit.specs.Marks.{push, push_by};
ghost use Rattle.jc_emit.specs.Writing.{Grows, GrowsFrom};
ghost use Rattle.jc_emit.specs.Written.{Shows, integer_in};

use jc_bytes::Memory;
use jc_methods::{Fetch, Insn, MOST_SHORT, opcode};
use std::alloc::Global;

/// The instructions of an instrumented method, and of each the instruction of the method to which it
/// belongs, whether it is the image of that one, and how many values a probe or the prelude has put on
/// the stack before it.
#[derive(Drop)]
pub(crate) struct Written {
    pub(crate) code: Vec<Insn>,
    pub(crate) at: Vec<u32>,
    pub(crate) own: Vec<bool>,
    pub(crate) extra: Vec<u8>,
}

/// Where the probes of a method find what they need.
#[derive(Clone, Copy)]
pub(crate) struct ProbeSource<'a> {
    /// The local variable that holds the array of probes.
    pub(crate) slot: u16,
    /// The places of the Integers of the ids that `sipush` doesn't push, from the first such id on.
    pub(crate) constants: &'a [u16],
}

/// The shortest instruction with its operand in it that pushes an id (JVM Specification 6.5, iconst, bipush and sipush).
fn push_short(id: u32) -> Insn
    requires { id ≤ most_short }
    ensures { result ≡ push id }
{
    if id <= 5 {
        Insn::Simple(opcode::ICONST_0 + id as u8)
    } else if id <= 127 {
        Insn::Push {
            op: opcode::BIPUSH,
            value: id as i16,
        }
    } else {
        Insn::Push {
            op: opcode::SIPUSH,
            value: id as i16,
        }
    }
}

/// The instruction that pushes an id: ldc of its Integer, where sipush doesn't push it (JVM Specification 6.5).
fn push(id: u32, constants: &[u16]) -> Insn
    requires { id < most_short + 1 + length constants.now }
    ensures { result ≡ push_by (integer_in constants.now) id }
{
    if id <= MOST_SHORT {
        push_short(id)
    } else {
        Insn::Constant {
            place: constants[(id - MOST_SHORT - 1) as usize],
        }
    }
}

impl Written {
    /// Nothing yet, with room for so many instructions.
    pub(crate) fn with_room(alloc: Global, count: usize) -> Result<Self, Memory>
        ensures { IfOk result (λ written. (integer : ℕ → ℕ) (slot : ℕ) → Shows integer slot ([]) written) }
    {
        Ok(Written {
            code: Vec::with_capacity(alloc, count)?,
            at: Vec::with_capacity(alloc, count)?,
            own: Vec::with_capacity(alloc, count)?,
            extra: Vec::with_capacity(alloc, count)?,
        })
    }

    /// Puts an instruction at the end.
    fn put(&mut self, insn: Insn, at: u32, own: bool, extra: u8) -> Result<(), Memory>
        ensures code { OnOk result (self.new.code.items ≡ self.old.code.items ++ insn ∷ []) }
        ensures at { OnOk result (self.new.at.items ≡ self.old.at.items ++ at ∷ []) }
        ensures own { OnOk result (self.new.own.items ≡ self.old.own.items ++ own ∷ []) }
        ensures extra { OnOk result (self.new.extra.items ≡ self.old.extra.items ++ extra ∷ []) }
    {
        self.code.push(insn)?;
        self.at.push(at)?;
        self.own.push(own)?;
        self.extra.push(extra)?;
        Ok(())
    }

    /// Puts the instructions that get the array of probes and store it in a local variable. The places in the pool of
    /// what they name aren't known yet and stand as 0.
    pub(crate) fn put_prelude(&mut self, fetch: Fetch, slot: u16) -> Result<(), Memory>
        ensures { (integer : ℕ → ℕ) → OnOk result (Grows integer slot self.old self.new (prelude fetch)) }
    {
        let store = Insn::Local {
            op: opcode::ASTORE,
            slot,
        };
        match fetch {
            Fetch::Member => {
                let call = Insn::Member {
                    op: opcode::INVOKESTATIC,
                    place: 0,
                };
                self.put(call, 0, false, 0)?;
                self.put(store, 0, false, 1)?;
                Ok(())
            }
            Fetch::Constant => {
                let cast = Insn::OfClass {
                    op: opcode::CHECKCAST,
                    place: 0,
                };
                self.put(Insn::Constant { place: 0 }, 0, false, 0)?;
                self.put(cast, 0, false, 1)?;
                self.put(store, 0, false, 1)?;
                Ok(())
            }
        }
    }

    /// Puts the image of an instruction.
    pub(crate) fn put_image(&mut self, insn: Insn, at: u32) -> Result<(), Memory>
        ensures { OnOk result ((integer : ℕ → ℕ) (slot : ℕ) (early : Option ℕ) → Grows integer slot self.old self.new (image insn at early ∷ [])) }
    {
        self.put(insn, at, true, 0)?;
        Ok(())
    }

    /// Puts a probe, which belongs to the instruction at a place: it stores true in the array of
    /// probes.
    fn put_probe(&mut self, source: ProbeSource<'_>, id: u32, at: u32) -> Result<(), Memory>
        requires { id < most_short + 1 + length source.constants.now }
        ensures { OnOk result ((late : Bool) → GrowsFrom source.entry self.old self.new (probe id at late)) }
    {
        let array = Insn::Local {
            op: opcode::ALOAD,
            slot: source.slot,
        };
        self.put(array, at, false, 0)?;
        self.put(push(id, source.constants), at, false, 1)?;
        self.put(Insn::Simple(opcode::ICONST_1), at, false, 2)?;
        self.put(Insn::Simple(opcode::BASTORE), at, false, 3)?;
        Ok(())
    }

    /// Puts a goto that is no image, to where jumps to an instruction land.
    fn put_hop(&mut self, landing: u32, at: u32) -> Result<(), Memory>
        ensures { OnOk result ((integer : ℕ → ℕ) (slot : ℕ) (due : Option ℕ) → Grows integer slot self.old self.new (hop landing at due ∷ [])) }
    {
        let jump = Insn::Jump {
            op: opcode::GOTO,
            to: landing,
        };
        self.put(jump, at, false, 0)?;
        Ok(())
    }

    /// Puts the probe in front of an instruction, if there is one.
    pub(crate) fn put_front(
        &mut self,
        source: ProbeSource<'_>,
        id: Option<u32>,
        at: u32,
    ) -> Result<(), Memory>
        requires pushed { IsPushed (length source.constants.now) id }
        ensures lead { OnOk result (GrowsFrom source.entry self.old self.new (lead_part id at)) }
        ensures early { OnOk result (GrowsFrom source.entry self.old self.new (early_part id at)) }
    {
        if let Some(id) = id {
            self.put_probe(source, id, at)?;
        }
        Ok(())
    }

    /// Puts a probe and a goto to where jumps to an instruction land, if there is a probe. Both belong
    /// to that instruction.
    pub(crate) fn put_behind(
        &mut self,
        source: ProbeSource<'_>,
        id: Option<u32>,
        to: u32,
        landing: u32,
    ) -> Result<(), Memory>
        requires pushed { IsPushed (length source.constants.now) id }
        ensures { OnOk result ((land : ℕ → ℕ) → land to ≡ landing
            → GrowsFrom source.entry self.old self.new (hop_part land id to)) }
    {
        if let Some(id) = id {
            self.put_probe(source, id, to)?;
            self.put_hop(landing, to)?;
        }
        Ok(())
    }
}
