//! Code of which one jump after the other becomes wide.
ghost use Rattle.std.specs.Prelude.{◌≡◌, IfOk, OnOk, true, false, length, replicate, set, slice_index_or};
ghost use Rattle.std.specs.List.{AllByRecursion};
ghost use Rattle.jc_methods.specs.Widened.{listed};
ghost use Rattle.jc_layout.specs.Layable.{IsLayable};
ghost use Rattle.jc_layout.specs.Layout.{starts_of};
ghost use Rattle.jc_layout.specs.Shift.{IsJumpOf, far_in};
ghost use Rattle.jc_layout.specs.Widening.{IsWidening, widened_each};

use crate::jumps::{Ends, Jump, ends_of, far_jumps, jumps_of};
use crate::offsets::offsets;
use crate::shift::{Shift, passed_on, raise};
use jc_bytes::Memory;
use jc_methods::{Insn, is_listed};
use std::alloc::Global;

/// The most jumps that become wide one after the other in a round. Where there are more, the code is
/// laid out again.
const MOST_RAISED: usize = 8;

/// Code, and which of its jumps are wide.
#[derive(Drop)]
pub struct Widening<'a> {
    pub code: &'a [Insn],
    pub jumps: Vec<Jump>,
    /// Of each instruction whether it is a wide jump.
    pub wide: Vec<bool>,
    /// Offsets, of which those of switches and that of the end are right but for a multiple of four.
    pub starts: Vec<u32>,
    /// The offsets of the jumps.
    pub ends: Vec<Ends>,
}

impl<'a> Widening<'a> {
    /// Code of which these jumps are wide, where the instructions begin at these offsets.
    pub fn new(
        alloc: Global,
        code: &'a [Insn],
        wide: Vec<bool>,
        starts: Vec<u32>,
    ) -> Result<Widening<'a>, Memory>
        requires layable { IsLayable code.now }
        requires wide { length wide.items ≡ length code.now }
        requires starts { starts.items ≡ starts_of (listed wide.items) code.now }
        ensures code { IfOk result (λ w. w.code.now ≡ code.now) }
        ensures wide { IfOk result (λ w. w.wide.items ≡ wide.items) }
        ensures kept { IfOk result IsWidening }
    {
        let jumps = jumps_of(alloc, code)?;
        let ends = ends_of(alloc, &jumps, &starts)?;
        Ok(Widening {
            code,
            jumps,
            wide,
            starts,
            ends,
        })
    }

    /// The jumps that aren't wide and have no room in two bytes.
    pub fn far(&self, alloc: Global) -> Result<Vec<Jump>, Memory>
        requires { IsWidening self.now }
        ensures { IfOk result (λ far. far.items ≡ far_in self.now.jumps.items self.now.ends.items self.now.wide.items) }
    {
        far_jumps(alloc, &self.jumps, &self.ends, &self.wide)
    }

    /// Makes a jump wide.
    fn widen(&mut self, jump: Jump)
        requires layable { IsLayable self.old.code.now }
        requires kept { IsWidening self.old }
        requires jump { IsJumpOf self.old.code.now jump }
        ensures code { self.new.code ≡ self.old.code }
        ensures jumps { self.new.jumps ≡ self.old.jumps }
        ensures wide { self.new.wide.items ≡ set self.old.wide.items jump.number true }
        ensures kept { IsWidening self.new }
    {
        if is_listed(&self.wide, jump.number as usize) {
            return;
        }
        let offset = self.starts[jump.switch as usize] % 4;
        let shift = Shift {
            jump: jump.number,
            switch: jump.switch,
            near: jump.more,
            behind: passed_on(offset, jump.more),
        };
        self.wide[jump.number as usize] = true;
        self.starts[jump.switch as usize] = (offset + jump.more) % 4;
        raise(shift, &self.jumps, &mut self.ends);
    }

    /// Makes jumps wide, one after the other.
    fn widen_each(&mut self, far: &[Jump])
        requires layable { IsLayable self.old.code.now }
        requires kept { IsWidening self.old }
        requires far { AllByRecursion (IsJumpOf self.old.code.now) far.now }
        ensures code { self.new.code ≡ self.old.code }
        ensures jumps { self.new.jumps ≡ self.old.jumps }
        ensures wide { self.new.wide.items ≡ widened_each far.now self.old.wide.items }
        ensures kept { IsWidening self.new }
    {
        'widening: for jump in far {
            self.widen(*jump);
        }
    }

    /// Makes jumps wide, and lays the code out again.
    fn widen_all(&mut self, alloc: Global, far: &[Jump]) -> Result<(), Memory>
        requires layable { IsLayable self.old.code.now }
        requires kept { IsWidening self.old }
        requires far { AllByRecursion (IsJumpOf self.old.code.now) far.now }
        ensures code { OnOk result (self.new.code ≡ self.old.code) }
        ensures jumps { OnOk result (self.new.jumps ≡ self.old.jumps) }
        ensures wide { OnOk result (self.new.wide.items ≡ widened_each far.now self.old.wide.items) }
        ensures kept { OnOk result (IsWidening self.new) }
    {
        'widening: for jump in far {
            self.wide[jump.number as usize] = true;
        }
        self.starts = offsets(alloc, self.code, &self.wide)?;
        self.ends = ends_of(alloc, &self.jumps, &self.starts)?;
        Ok(())
    }

    /// Makes the jumps of a round wide: where they are few one after the other, and else the code is laid
    /// out again.
    pub fn widen_far(&mut self, alloc: Global, far: &[Jump]) -> Result<(), Memory>
        requires layable { IsLayable self.old.code.now }
        requires kept { IsWidening self.old }
        requires far { AllByRecursion (IsJumpOf self.old.code.now) far.now }
        ensures code { OnOk result (self.new.code ≡ self.old.code) }
        ensures wide { OnOk result (self.new.wide.items ≡ widened_each far.now self.old.wide.items) }
        ensures kept { OnOk result (IsWidening self.new) }
    {
        if far.len() > MOST_RAISED {
            return self.widen_all(alloc, far);
        }
        self.widen_each(far);
        Ok(())
    }
}
