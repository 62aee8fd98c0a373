//! The counters of a class, put together body by body.
ghost use Rattle.std.specs.Prelude.{◌≡◌, ◌++◌, ◌∷◌, [], List as Seq, Bool, OnOk};
ghost use Rattle.jc_bytes.specs.FirstSeen.{seen_behind};
ghost use Rattle.jc_methods.specs.declared.body.Body.{Body as MethodBody};
ghost use Rattle.jc_cover.specs.Counters.{counters_of};
ghost use Rattle.jc_cover.specs.Marking.{coverage_of};
ghost use Rattle.jc_cover.specs.Tally.{IsNext, IsTally};

use crate::counting::count_method;
use crate::coverage::{Count, Counters};
use crate::covering::body_values;
use crate::lines::Lines;
use crate::sums::{Sums, no_sums};
use indexmap::IndexSet;
use jc_bytes::Memory;
use jc_methods::{Body, Plan};
use std::alloc::Global;

/// The counters of the first bodies of a class. The others are put in one after the other, and none is kept.
#[derive(Drop)]
pub struct Tally {
    /// What the methods add to the counters but that of lines.
    pub sums: Sums,
    /// Their lines, each once.
    pub lines: IndexSet<u32>,
    /// Those of which an instruction is covered.
    pub covered: IndexSet<u32>,
}

/// Puts numbers into a set, one after the other.
fn put_numbers(set: &mut IndexSet<u32>, numbers: &[u32]) -> Result<(), Memory>
    ensures { OnOk result (set.new.keys ≡ seen_behind set.old.keys numbers.now) }
{
    'putting: for number in numbers {
        set.insert(*number)?;
    }
    Ok(())
}

impl Tally {
    /// Of no body.
    pub fn new(alloc: Global) -> Self
        ensures { (hits : Seq Bool) → IsTally [] hits result }
    {
        Tally {
            sums: no_sums(),
            lines: IndexSet::new(alloc),
            covered: IndexSet::new(alloc),
        }
    }

    /// Counts one more body by the hits of the class's probes. It takes room in proportion to the instructions of the body and to
    /// the number of different lines.
    ///
    /// # Errors
    ///
    /// `Memory` where memory was refused. Then the tally is of no use.
    pub fn add(
        &mut self,
        alloc: Global,
        body: &Body,
        plan: &Plan,
        hits: &[bool],
    ) -> Result<(), Memory>
        requires { (bodies : Seq MethodBody) × IsTally bodies hits.now self.old × IsNext bodies body.now plan.now }
        ensures { (bodies : Seq MethodBody) → IsTally bodies hits.now self.old → IsNext bodies body.now plan.now
            → OnOk result (IsTally (bodies ++ body.now ∷ []) hits.now self.new) }
    {
        let insns = body_values(alloc, body, plan, hits)?;
        let mut lines = Lines {
            all: Vec::new(alloc),
            covered: Vec::new(alloc),
        };
        count_method(alloc, &mut self.sums, &mut lines, body, &insns)?;
        put_numbers(&mut self.lines, &lines.all)?;
        put_numbers(&mut self.covered, &lines.covered)?;
        Ok(())
    }

    /// The counters of these bodies (JaCoCo's documentation on coverage counters): those of [`crate::counters`] for the coverage
    /// of [`crate::covered`], by the same hits.
    pub fn counters(&self) -> Counters
        requires { (bodies : Seq MethodBody) × (hits : Seq Bool) × IsTally bodies hits self.now }
        ensures { (bodies : Seq MethodBody) (hits : Seq Bool) → IsTally bodies hits self.now
            → result ≡ counters_of bodies (coverage_of bodies hits) }
    {
        let lines = self.lines.as_slice().len();
        let covered = self.covered.as_slice().len();
        Counters {
            instruction: self.sums.instruction,
            branch: self.sums.branch,
            line: Count {
                missed: (lines - covered) as u32,
                covered: covered as u32,
            },
            complexity: self.sums.complexity,
            method: self.sums.method,
        }
    }
}
