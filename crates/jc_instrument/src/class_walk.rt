//! A class file whose methods are read one after the other.
ghost use Rattle.std.specs.Prelude.{◌≡◌, ◌<◌, ◌+◌, ◌≤◌, [], ℕ, Some, length, List as Seq, IfOk, IfErr};
ghost use Rattle.jc_bytes.specs.Failing.{Said};
ghost use Rattle.jc_bytes.specs.Reader.{most_read};
ghost use Rattle.jc_methods.specs.declared.body.Body.{Body};
ghost use Rattle.jc_class.specs.Writable.{IsClassFile};
ghost use Rattle.jc_pool.specs.Lookup.{class_name_of};
ghost use Rattle.jc_instrument.specs.Analysis.{Describes};
ghost use Rattle.jc_instrument.specs.Causes.{FirstCause};
ghost use Rattle.jc_instrument.specs.ClassWalk.{Ends, IsWalk, WalksOn, analysed_of, front_causes, methods_read};
ghost use Rattle.jc_instrument.specs.Reasons.{AnalysisReason};

use crate::alone::{interface_refusal, is_left_alone};
use crate::class::class_refusal;
use crate::described::{class_name_at, outline};
use crate::known::{Known, PlannedMethod, know_one_more, known_refusal, nothing_known};
use jc_bytes::{Bytes, Fail, List, Memory, Names, Refusal};
use jc_class::{ClassFile, read_class};
use std::alloc::Global;

/// What [`crate::analyse`] tells of a class but its bodies and their plans.
#[derive(Debug, Drop)]
pub struct ClassOutline {
    /// The class id: a checksum of the bytes of the class file.
    pub id: u64,
    /// The name of the class.
    pub name: Bytes,
    /// The major version of the class file.
    pub version: u16,
    /// The access flags of the class.
    pub flags: u16,
    /// The name of its superclass, if it has one.
    pub super_name: Option<Bytes>,
    /// The names of its interfaces, in their order.
    pub interfaces: List<Bytes>,
    /// How many probes the class has.
    pub probes: u32,
}

/// A class file whose methods are read one after the other. Each body is handed on with its plan, and none is kept.
#[derive(Debug, Drop)]
pub struct ClassWalk {
    /// The class file.
    pub class: ClassFile,
    /// The names of the classes in frames.
    pub names: Names,
    /// What is known of the methods that were read.
    pub known: Known,
}

/// Why the class is refused before its methods are read, if it is.
fn front_refusal(class: &ClassFile) -> Option<Refusal>
    requires { length class.now.methods ≤ 65535 }
    ensures { FirstCause (front_causes class.now) result }
{
    if let Some(refusal) = class_refusal(class) {
        return Some(refusal);
    }
    if is_left_alone(class) {
        return None;
    }
    interface_refusal(class)
}

impl ClassWalk {
    /// A class file of which no method is read yet.
    ///
    /// # Errors
    ///
    /// `Memory` where memory was refused. Else `Said`, the first of the refusals 1 to 4 of [`crate::analyse`] that applies.
    pub fn of(alloc: Global, bytes: &[u8]) -> Result<ClassWalk, Fail<Refusal>>
        requires { length bytes.now ≤ most_read }
        ensures walk { IfOk result (IsWalk bytes.now 0 []) }
        ensures refused { IfErr result (λ e. Said e (λ r. AnalysisReason bytes.now (Some r))) }
    {
        let class = read_class(alloc, bytes)?;
        if let Some(refusal) = front_refusal(&class) {
            return Err(Fail::Said(refusal));
        }
        let names = Names::new(alloc)?;
        Ok(ClassWalk {
            class,
            names,
            known: nothing_known(),
        })
    }

    /// How many methods are to be read: none where the class stays as it is.
    pub fn methods(&self) -> usize
        ensures { result ≡ methods_read self.now }
    {
        if is_left_alone(&self.class) {
            return 0;
        }
        self.class.methods.len()
    }

    /// Reads the method with this number, once each in front of it is read. Its body is handed on with its plan, unless it has
    /// none, or the class is to be refused: [`ClassWalk::end`] then tells why.
    ///
    /// # Errors
    ///
    /// `Memory` where memory was refused, and `Said` with a `Subroutine`, as [`crate::analyse`] does.
    pub fn read(
        &mut self,
        alloc: Global,
        number: usize,
    ) -> Result<Option<PlannedMethod>, Fail<Refusal>>
        requires exists { number < methods_read self.old }
        requires before { (bytes : Seq ℕ) × (handed : Seq Body) × IsWalk bytes number handed self.old }
        ensures walks { (bytes : Seq ℕ) (handed : Seq Body) → IsWalk bytes number handed self.old
            → IfOk result (WalksOn bytes (number + 1) handed self.new) }
        ensures refused { (bytes : Seq ℕ) (handed : Seq Body) → IsWalk bytes number handed self.old
            → IfErr result (λ e. Said e (λ r. AnalysisReason bytes (Some r))) }
        ensures class { self.new.class ≡ self.old.class }
    {
        know_one_more(
            alloc,
            &self.class,
            number as u32,
            &mut self.names,
            &mut self.known,
        )
    }

    /// How many probes the class has, once all of its methods are read. Its bodies are those that were handed on.
    ///
    /// # Errors
    ///
    /// `Said`, the first of the refusals of [`crate::analyse`] that applies.
    pub fn end(&self) -> Result<u32, Fail<Refusal>>
        requires { (bytes : Seq ℕ) × (handed : Seq Body) × IsWalk bytes (methods_read self.now) handed self.now }
        ensures ends { (bytes : Seq ℕ) (handed : Seq Body) → IsWalk bytes (methods_read self.now) handed self.now
            → IfOk result (Ends bytes self.now.class handed) }
        ensures refused { (bytes : Seq ℕ) (handed : Seq Body) → IsWalk bytes (methods_read self.now) handed self.now
            → IfErr result (λ e. Said e (λ r. AnalysisReason bytes (Some r))) }
    {
        match known_refusal(&self.known) {
            Some(refusal) => Err(Fail::Said(refusal)),
            None => Ok(self.known.probes),
        }
    }

    /// The major version of the class file.
    pub fn version(&self) -> u16
        ensures { result ≡ self.now.class.major }
    {
        self.class.major
    }

    /// The name of the class.
    ///
    /// # Errors
    ///
    /// `Memory` where memory was refused.
    pub fn name(&self, alloc: Global) -> Result<Bytes, Memory>
        requires { IsClassFile self.now.class }
        ensures { IfOk result (λ name. class_name_of self.now.class.pool self.now.class.this_class ≡ Some name) }
    {
        class_name_at(alloc, &self.class.pool, self.class.this_class)
    }

    /// The class of these bytes, with so many probes, without its bodies and their plans.
    ///
    /// # Errors
    ///
    /// `Memory` where memory was refused.
    pub fn outline(&self, alloc: Global, bytes: &[u8], probes: u32) -> Result<ClassOutline, Memory>
        requires { IsClassFile self.now.class }
        ensures described { (bodies : Seq Body) → IfOk result (λ o. Describes bytes.now self.now.class (analysed_of o bodies)) }
        ensures probes { IfOk result (λ o. o.probes ≡ probes) }
    {
        outline(alloc, bytes, &self.class, probes)
    }
}
