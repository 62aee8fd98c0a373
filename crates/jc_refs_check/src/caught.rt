//! Whether handlers take what their rows catch (JVM Specification 4.10.1.6).
ghost use Rattle.std.specs.Prelude.{◌≡◌, ◌∷◌, ◌++◌, [], ◌<◌, List as Seq, length, map, Contains, IfOk, OnOk, IsTrue, ◌↔◌};
ghost use Rattle.std.specs.List.{AllByRecursion};
ghost use Rattle.jc_methods.specs.declared.body.Use.{Use as UseOf};
ghost use Rattle.jc_methods.specs.VerificationTypes.{Grows, IsNumbered, AreNumberedFrames, verification_type, object};
ghost use Rattle.jc_methods.specs.WellMade.{IsWellMade};
ghost use Rattle.jc_kinds.specs.Checked.{caught};
ghost use Rattle.jc_kinds.specs.Frames.{frame_in};
ghost use Rattle.jc_kinds.specs.First.{IsFirstOrBound};
ghost use Rattle.jc_refs_check.specs.Classes.{AreKnown, name_at};
ghost use Rattle.jc_refs_check.specs.RefsOk.{TakesCaught};
ghost use Rattle.jc_refs_check.specs.Unguarded.{AreUsedClasses, AreCaught, FrameTakes, IsUntakenBy, IsUntaken};

use crate::classes::Classes;
use crate::frames::frame_at;
use jc_bytes::{Memory, Names};
use jc_methods::{Body, Handler, Kind, Use, What};
use std::alloc::Global;
use std::collections::HashMap;

/// The class that rows without a class catch.
const ALL_THROWABLES: &[u8] = b"java/lang/Throwable";

/// The classes of what the rows of a body catch, by their numbers.
#[derive(Drop)]
pub struct Caught {
    /// Those that the body names, by their places in the pool.
    pub used: HashMap<u16, u32>,
    /// That of all throwables.
    pub all: u32,
}

/// Numbers the class at one more place of the pool, unless an earlier use is of that place.
fn add_class(
    alloc: Global,
    entry: &Use,
    used: &mut HashMap<u16, u32>,
    names: &mut Names,
) -> Result<(), Memory>
    ensures used { (uses : Seq UseOf) → AreUsedClasses names.old uses used.old
        → OnOk result (AreUsedClasses names.new (uses ++ entry.now ∷ []) used.new) }
    ensures names { Grows names.old names.new }
{
    if used.contains_key(&entry.place) {
        return Ok(());
    }
    match &entry.what {
        What::Class(name) => {
            let number = names.number(alloc, name)?;
            used.insert(entry.place, number)?;
            Ok(())
        }
        _ => Ok(()),
    }
}

/// The numbers of the classes that a body uses, by their places in the pool.
fn classes_used(alloc: Global, uses: &[Use], names: &mut Names) -> Result<HashMap<u16, u32>, Memory>
    ensures used { IfOk result (λ used. AreUsedClasses names.new uses.now used) }
    ensures names { Grows names.old names.new }
{
    let mut used = HashMap::new(alloc);
    'numbering: for entry in uses {
        add_class(alloc, entry, &mut used, names)?;
    }
    Ok(used)
}

/// Whether a reference of a class may stand where a type is expected that stands alone on a stack.
fn takes_alone(classes: &Classes, caught: u32, kind: Kind) -> bool
    requires known { AreKnown classes.now }
    requires caught { caught < length classes.now.names }
    requires kind { IsNumbered (length classes.now.names) kind }
    ensures { IsTrue result ↔ TakesCaught (object (name_at classes.now.names caught)) (verification_type classes.now.names kind ∷ []) }
{
    match kind {
        Kind::Object(class) => classes.suits(caught, class),
        Kind::Top | Kind::Int | Kind::Float | Kind::Double | Kind::Long => false,
        Kind::Null | Kind::UninitThis | Kind::Uninit(_) => false,
    }
}

/// Whether a reference of a class may stand alone on a stack.
fn takes_caught(classes: &Classes, caught: u32, stack: &[Kind]) -> bool
    requires known { AreKnown classes.now }
    requires caught { caught < length classes.now.names }
    requires stack { AllByRecursion (IsNumbered (length classes.now.names)) stack.now }
    ensures { IsTrue result ↔ TakesCaught (object (name_at classes.now.names caught)) (map (verification_type classes.now.names) stack.now) }
{
    stack.len() == 1 && takes_alone(classes, caught, stack[0])
}

impl Caught {
    /// The classes of what the rows of a body catch.
    ///
    /// # Errors
    ///
    /// `Memory` where memory was refused, or where there are 4,294,967,295 names.
    pub fn of(alloc: Global, body: &Body, classes: &mut Classes) -> Result<Caught, Memory>
        requires { AreKnown classes.old }
        ensures caught { IfOk result (AreCaught classes.new.names body.now) }
        ensures known { OnOk result (AreKnown classes.new) }
        ensures names { OnOk result (Grows classes.old.names classes.new.names) }
    {
        let used = classes_used(alloc, &body.uses, &mut classes.names)?;
        let all = classes.names.number(alloc, ALL_THROWABLES)?;
        classes.learn()?;
        Ok(Caught { used, all })
    }

    /// The class of what a row catches.
    fn class(&self, classes: &Classes, body: &Body, row: Handler) -> u32
        requires made { IsWellMade body.now }
        requires caught { AreCaught classes.now.names body.now self.now }
        requires row { Contains body.now.handlers row }
        ensures number { result < length classes.now.names }
        ensures class { object (name_at classes.now.names result) ≡ caught body.now row }
    {
        if row.class == 0 {
            return self.all;
        }
        match self.used.get(&row.class) {
            Some(class) => *class,
            None => self.all,
        }
    }

    /// Whether the frame at a row's handler takes what the row catches.
    fn is_taken(&self, classes: &Classes, body: &Body, row: Handler) -> bool
        requires made { IsWellMade body.now }
        requires known { AreKnown classes.now }
        requires frames { AreNumberedFrames (length classes.now.names) body.now.frames }
        requires caught { AreCaught classes.now.names body.now self.now }
        requires row { Contains body.now.handlers row }
        ensures { IsTrue result ↔ FrameTakes classes.now.names body.now row (frame_in body.now.frames row.target) }
    {
        match frame_at(body, row.target) {
            Some(frame) => takes_caught(classes, self.class(classes, body, row), &frame.stack),
            None => false,
        }
    }

    /// The first instruction that a row guards whose handler doesn't take what is caught, or the bound.
    fn first_in_row(&self, classes: &Classes, body: &Body, row: Handler, bound: usize) -> usize
        requires made { IsWellMade body.now }
        requires known { AreKnown classes.now }
        requires frames { AreNumberedFrames (length classes.now.names) body.now.frames }
        requires caught { AreCaught classes.now.names body.now self.now }
        requires row { Contains body.now.handlers row }
        ensures { IsFirstOrBound (IsUntakenBy classes.now.names body.now row) bound result }
    {
        let start = row.start as usize;
        if start < bound && !self.is_taken(classes, body, row) {
            start
        } else {
            bound
        }
    }

    /// The first instruction that one of the rows guards whose handler doesn't take what is caught, or the bound.
    pub fn first_untaken(&self, classes: &Classes, body: &Body, bound: usize) -> usize
        requires made { IsWellMade body.now }
        requires known { AreKnown classes.now }
        requires frames { AreNumberedFrames (length classes.now.names) body.now.frames }
        requires caught { AreCaught classes.now.names body.now self.now }
        ensures { IsFirstOrBound (IsUntaken classes.now.names body.now) bound result }
    {
        let mut first = bound;
        'catching: for row in body.handlers.as_slice() {
            first = self.first_in_row(classes, body, *row, first);
        }
        first
    }
}
